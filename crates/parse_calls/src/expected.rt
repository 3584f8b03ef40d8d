//! A call for the tokens that may come next.
ghost use Rattle.std.specs.Prelude.{◌≡◌, [], ◌∷◌, IfOk};
ghost use Rattle.parse_calls.specs.Expected.{AreListed, IsExpected, expected_answer, expected_by, expected_from, may_end, may_shift, trial};

use crate::machine::{Ending, Machine};
use crate::parse::counts_for;
use crate::room::give;
use crate::turns::{Turn, turn_at};
use std::alloc::{AllocError, Global};

/// Whether a token may come next. `Unknown` has the status of a call that cannot say.
#[derive(Clone, Copy)]
pub(crate) enum May {
    Comes,
    DoesNot,
    Unknown(u8),
}

/// The status of a call, and its numbers.
#[derive(Drop)]
pub(crate) struct Listed {
    status: u8,
    tokens: Vec<u32>,
}

/// The tokens that may come after tokens, by tables as numbers. The tokens are read in at most
/// `limit` steps, and each token is tried with the steps that are left. As many of the tokens as fit
/// go to `out`, ascending, and how many there are to `length`. The end of the input is the number
/// of terminals. The result is the status: 0 for the tokens, 1 if the given tokens are refused or a
/// step would pass the limit, 2 for a fault, and 3 if an allocation fails. Only the status 0 has
/// numbers.
pub fn expected(
    alloc: Global,
    tables: &[u32],
    tokens: &[u32],
    limit: usize,
    out: &mut [u32],
    length: &mut usize,
) -> u8
    ensures { IsExpected tables.now tokens.now limit result out.old out.new length.new }
{
    match answer_to(alloc, tables, tokens, limit) {
        Ok(listed) => give(listed.status, &listed.tokens, out, length),
        Err(_) => give(3, &[], out, length),
    }
}

// The answer for tokens.
fn answer_to(
    alloc: Global,
    tables: &[u32],
    tokens: &[u32],
    limit: usize,
) -> Result<Listed, AllocError>
    ensures { IfOk result (AreListed (expected_answer tables.now tokens.now limit)) }
{
    let Some(counts) = counts_for(tables, tokens) else {
        return Ok(none(alloc, 2));
    };
    let mut machine = Machine::new(alloc, limit)?;
    let end = machine.run(tables, tokens)?;
    after_tokens(alloc, tables, &machine, counts.terminals, end.0)
}

// The answer for a run over the tokens, which ended so.
fn after_tokens(
    alloc: Global,
    tables: &[u32],
    machine: &Machine,
    end: u32,
    ending: Ending,
) -> Result<Listed, AllocError>
    ensures { IfOk result (AreListed (expected_by ending tables.now end machine.now.left
        machine.now.stack.items)) }
{
    match ending {
        Ending::AllShifted => list_expected(alloc, tables, machine, end),
        Ending::Refused => Ok(none(alloc, 1)),
        Ending::Finished(_) => Ok(none(alloc, 1)),
        Ending::CutOff => Ok(none(alloc, 1)),
        Ending::Faulty => Ok(none(alloc, 2)),
    }
}

// A status without tokens.
fn none(alloc: Global, status: u8) -> Listed
    ensures status { result.status ≡ status }
    ensures tokens { result.tokens.items ≡ [] }
{
    Listed {
        status,
        tokens: Vec::new(alloc),
    }
}

// The tokens that may come next in a run.
fn list_expected(
    alloc: Global,
    tables: &[u32],
    machine: &Machine,
    end: u32,
) -> Result<Listed, AllocError>
    ensures { IfOk result (AreListed (expected_from tables.now machine.now.left
        machine.now.stack.items end 0 [])) }
{
    let mut tokens = Vec::new(alloc);
    for token in 0..end {
        match may_shift(alloc, tables, machine, token)? {
            May::Comes => tokens.push(token)?,
            May::DoesNot => {}
            May::Unknown(status) => return Ok(none(alloc, status)),
        }
    }
    match may_end(alloc, tables, machine, end)? {
        May::Comes => tokens.push(end)?,
        May::DoesNot => {}
        May::Unknown(status) => return Ok(none(alloc, status)),
    }
    Ok(Listed { status: 0, tokens })
}

// Whether a terminal may come next.
fn may_shift(
    alloc: Global,
    tables: &[u32],
    machine: &Machine,
    token: u32,
) -> Result<May, AllocError>
    ensures { IfOk result (λ may. may ≡ may_shift (trial tables.now machine.now.left
        machine.now.stack.items token).ending) }
{
    match tried(alloc, tables, machine, token)? {
        Ending::AllShifted => Ok(May::Comes),
        Ending::Refused => Ok(May::DoesNot),
        Ending::Finished(_) => Ok(May::DoesNot),
        Ending::CutOff => Ok(May::Unknown(1)),
        Ending::Faulty => Ok(May::Unknown(2)),
    }
}

// Whether the end of the input may come next.
fn may_end(alloc: Global, tables: &[u32], machine: &Machine, end: u32) -> Result<May, AllocError>
    ensures { IfOk result (λ may. may ≡ may_end (trial tables.now machine.now.left
        machine.now.stack.items end).ending) }
{
    match tried(alloc, tables, machine, end)? {
        Ending::Finished(true) => Ok(May::Comes),
        Ending::Finished(false) => Ok(May::DoesNot),
        Ending::AllShifted => Ok(May::DoesNot),
        Ending::Refused => Ok(May::DoesNot),
        Ending::CutOff => Ok(May::Unknown(1)),
        Ending::Faulty => Ok(May::Unknown(2)),
    }
}

// How a copy of a run ends on one token more. A token without an action needs no copy.
fn tried(alloc: Global, tables: &[u32], machine: &Machine, token: u32) -> Result<Ending, AllocError>
    ensures { IfOk result (λ ending. ending ≡ (trial tables.now machine.now.left
        machine.now.stack.items token).ending) }
{
    match turn_at(tables, &machine.stack, token) {
        Turn::Stuck => Ok(Ending::Refused),
        _ => tried_on_copy(alloc, tables, machine, token),
    }
}

// How a copy of a run ends on one token more.
fn tried_on_copy(
    alloc: Global,
    tables: &[u32],
    machine: &Machine,
    token: u32,
) -> Result<Ending, AllocError>
    ensures { IfOk result (λ ending. ending ≡ (trial tables.now machine.now.left
        machine.now.stack.items token).ending) }
{
    let mut copy = machine.copy(alloc)?;
    let end = copy.run(tables, &[token])?;
    Ok(end.0)
}
