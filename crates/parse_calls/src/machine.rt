//! A run by tables as numbers.
ghost use Rattle.std.specs.Prelude.{◌≡◌, ◌+◌, ◌++◌, ◌<◌, [], ◌∷◌, IfOk, OnOk};
ghost use Rattle.parse_calls.specs.Runs.{IsRun, events_after, halted, run, stack_after, step_of};

use crate::turns::{Turn, turn_at};
use std::alloc::{AllocError, Global};

/// A run: its stack of states, with the newest last, the numbers of its events, and how many steps
/// are left.
#[derive(Drop)]
pub(crate) struct Machine {
    pub(crate) stack: Vec<u32>,
    pub(crate) events: Vec<u32>,
    pub(crate) left: usize,
}

/// How a run over tokens ends: all were shifted; a token was refused; the last reduction was the
/// final one, and whether one tree is left; no step is left and there is another; or the numbers do
/// not say what is done.
#[derive(Clone, Copy)]
pub enum Ending {
    AllShifted,
    Refused,
    Finished(bool),
    CutOff,
    Faulty,
}

/// What a turn does with a token: it shifts it, it goes on with it, or it ends the run.
#[derive(Clone, Copy)]
pub(crate) enum Step {
    Shifted,
    GoesOn,
    Ended(Ending),
}

// How a run ends by a turn if no step is left.
fn halted(turn: Turn) -> Ending
    ensures { result ≡ halted turn }
{
    match turn {
        Turn::Faulty => Ending::Faulty,
        Turn::Stuck => Ending::Refused,
        _ => Ending::CutOff,
    }
}

impl Machine {
    /// A run that has read nothing, in state 0.
    pub(crate) fn new(alloc: Global, limit: usize) -> Result<Machine, AllocError>
        ensures stack { IfOk result (λ m. m.stack.items ≡ 0 ∷ []) }
        ensures events { IfOk result (λ m. m.events.items ≡ []) }
        ensures left { IfOk result (λ m. m.left ≡ limit) }
    {
        let mut stack = Vec::new(alloc);
        stack.push(0)?;
        Ok(Machine {
            stack,
            events: Vec::new(alloc),
            left: limit,
        })
    }

    /// A copy of the run, without its events.
    pub(crate) fn copy(&self, alloc: Global) -> Result<Machine, AllocError>
        ensures stack { IfOk result (λ m. m.stack.items ≡ self.now.stack.items) }
        ensures events { IfOk result (λ m. m.events.items ≡ []) }
        ensures left { IfOk result (λ m. m.left ≡ self.now.left) }
    {
        Ok(Machine {
            stack: self.stack.to_vec(alloc)?,
            events: Vec::new(alloc),
            left: self.left,
        })
    }

    /// Goes on over tokens. Returns how the run ends, and how many tokens were shifted.
    pub(crate) fn run(
        &mut self,
        numbers: &[u32],
        tokens: &[u32],
    ) -> Result<(Ending, usize), AllocError>
        ensures { IfOk result (λ end. IsRun numbers.now self.old tokens.now end.0 end.1 self.new) }
    {
        let mut at = 0;
        while at < tokens.len() {
            let token = tokens[at];
            let turn = turn_at(numbers, &self.stack, token);
            if self.left == 0 {
                return Ok((halted(turn), at));
            }
            match self.take(turn, token)? {
                Step::Shifted => at += 1,
                Step::GoesOn => {}
                Step::Ended(ending) => return Ok((ending, at)),
            }
        }
        Ok((Ending::AllShifted, at))
    }

    // Makes a turn on a token.
    fn take(&mut self, turn: Turn, token: u32) -> Result<Step, AllocError>
        requires { 0 < self.old.left }
        ensures step { IfOk result (λ step. step ≡ step_of turn) }
        ensures stack { OnOk result (self.new.stack.items ≡ stack_after turn self.old.stack.items) }
        ensures events { OnOk result
            (self.new.events.items ≡ events_after turn token self.old.events.items) }
        ensures left { self.new.left + 1 ≡ self.old.left }
    {
        self.left -= 1;
        match turn {
            Turn::Faulty => Ok(Step::Ended(Ending::Faulty)),
            Turn::Stuck => Ok(Step::Ended(Ending::Refused)),
            Turn::Shifts(target) => {
                self.add_event(0, token)?;
                self.stack.push(target)?;
                Ok(Step::Shifted)
            }
            Turn::Reduces(production, rest, target) => {
                self.add_event(1, production)?;
                self.stack.truncate(rest);
                self.stack.push(target)?;
                Ok(Step::GoesOn)
            }
            Turn::Ends(production, alone) => {
                self.add_event(1, production)?;
                Ok(Step::Ended(Ending::Finished(alone)))
            }
        }
    }

    // Adds the two numbers of an event.
    fn add_event(&mut self, kind: u32, number: u32) -> Result<(), AllocError>
        ensures events { OnOk result
            (self.new.events.items ≡ self.old.events.items ++ kind ∷ number ∷ []) }
        ensures stack { self.new.stack ≡ self.old.stack }
        ensures left { self.new.left ≡ self.old.left }
    {
        self.events.push(kind)?;
        self.events.push(number)?;
        Ok(())
    }
}
