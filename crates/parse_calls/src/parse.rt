//! A call that parses tokens.
ghost use Rattle.std.specs.Prelude.{◌≡◌, [], ◌∷◌, IfOk};
ghost use Rattle.parse_calls.specs.Answers.{IsAnswer, IsParsed, are_below, counts_for, ended_by, fault, finished, finished_by, parse_answer, stopped, top_of};
ghost use Rattle.parse_calls.specs.Runs.{run};

use crate::machine::{Ending, Machine};
use crate::places::{Counts, counts_of};
use crate::room::give;
use std::alloc::{AllocError, Global};

/// The answer of a call: its status, its numbers, and how many tokens were read.
#[derive(Drop)]
pub(crate) struct Answer {
    status: u8,
    numbers: Vec<u32>,
    read: usize,
}

/// Parses tokens by tables as numbers, in at most `limit` steps: each shift and each reduction is
/// one. As many of the numbers of the answer as fit go to `out`, and how many there are to `length`.
/// They are pairs, one for each step: 0 and the token of a shift, or 1 and the production of a
/// reduction. `read` becomes how many tokens were shifted. The result is the status. It is 0 for a
/// parse. It is 1 for a refusal of the next token, which has the last pair 2 and the state on top,
/// and for the limit, which has the last pair 3 and the state on top. It is 2 for a fault, and 3 if
/// an allocation fails. These two have no numbers.
pub fn parse(
    alloc: Global,
    tables: &[u32],
    tokens: &[u32],
    limit: usize,
    out: &mut [u32],
    length: &mut usize,
    read: &mut usize,
) -> u8
    ensures { IsParsed tables.now tokens.now limit result out.old out.new length.new read.new }
{
    match answer_to(alloc, tables, tokens, limit) {
        Ok(answer) => {
            *read = answer.read;
            give(answer.status, &answer.numbers, out, length)
        }
        Err(_) => {
            *read = 0;
            give(3, &[], out, length)
        }
    }
}

// The answer for tokens.
fn answer_to(
    alloc: Global,
    tables: &[u32],
    tokens: &[u32],
    limit: usize,
) -> Result<Answer, AllocError>
    ensures { IfOk result (IsAnswer (parse_answer tables.now tokens.now limit)) }
{
    let Some(counts) = counts_for(tables, tokens) else {
        return Ok(fault(alloc));
    };
    let mut machine = Machine::new(alloc, limit)?;
    let end = machine.run(tables, tokens)?;
    after_tokens(alloc, machine, tables, counts.terminals, end.0, end.1)
}

/// The counts of tables, if the list begins as tables do, and all tokens are terminals.
pub(crate) fn counts_for(tables: &[u32], tokens: &[u32]) -> Option<Counts>
    ensures { result ≡ counts_for tables.now tokens.now }
{
    let counts = counts_of(tables)?;
    if are_below(tokens, counts.terminals) {
        Some(counts)
    } else {
        None
    }
}

// Whether all tokens are below a number.
fn are_below(tokens: &[u32], count: u32) -> bool
    ensures { result ≡ are_below count tokens.now }
{
    tokens.iter().all(|token| *token < count)
}

// The answer for a run over the tokens, which ended so. If it has shifted all, it goes on with the
// end of the input.
fn after_tokens(
    alloc: Global,
    machine: Machine,
    tables: &[u32],
    end: u32,
    ending: Ending,
    read: usize,
) -> Result<Answer, AllocError>
    ensures { IfOk result (IsAnswer (ended_by ending tables.now end read machine.left
        machine.stack.items machine.events.items)) }
{
    match ending {
        Ending::AllShifted => finish(alloc, machine, tables, end, read),
        Ending::Refused => stop(machine, 2, read),
        Ending::Finished(_) => stop(machine, 2, read),
        Ending::CutOff => stop(machine, 3, read),
        Ending::Faulty => Ok(fault(alloc)),
    }
}

// The answer for a run that has shifted all tokens. It goes on with the end of the input.
fn finish(
    alloc: Global,
    mut machine: Machine,
    tables: &[u32],
    end: u32,
    read: usize,
) -> Result<Answer, AllocError>
    ensures { IfOk result (IsAnswer (finished read (run tables.now machine.left machine.stack.items
        machine.events.items (end ∷ [])))) }
{
    let ended = machine.run(tables, &[end])?;
    after_end(alloc, machine, ended.0, read)
}

// The answer for a run over the end of the input, which ended so.
fn after_end(
    alloc: Global,
    machine: Machine,
    ending: Ending,
    read: usize,
) -> Result<Answer, AllocError>
    ensures { IfOk result (IsAnswer (finished_by ending read machine.stack.items
        machine.events.items)) }
{
    match ending {
        Ending::Finished(true) => Ok(Answer {
            status: 0,
            numbers: machine.events,
            read,
        }),
        Ending::Finished(false) => stop(machine, 2, read),
        Ending::AllShifted => stop(machine, 2, read),
        Ending::Refused => stop(machine, 2, read),
        Ending::CutOff => stop(machine, 3, read),
        Ending::Faulty => Ok(fault(alloc)),
    }
}

// The answer for a run that stopped, with a number that says why.
fn stop(machine: Machine, why: u32, read: usize) -> Result<Answer, AllocError>
    ensures { IfOk result (IsAnswer (stopped why machine.stack.items machine.events.items read)) }
{
    let mut numbers = machine.events;
    numbers.push(why)?;
    numbers.push(top_of(&machine.stack))?;
    Ok(Answer {
        status: 1,
        numbers,
        read,
    })
}

// The state on top of a stack, or 0 if there is none.
fn top_of(stack: &[u32]) -> u32
    ensures { result ≡ top_of stack.now }
{
    stack.last().copied().unwrap_or(0)
}

// The answer for a fault.
fn fault(alloc: Global) -> Answer
    ensures { IsAnswer fault result }
{
    Answer {
        status: 2,
        numbers: Vec::new(alloc),
        read: 0,
    }
}
