//! A call for the goto of a state on a nonterminal.
ghost use Rattle.std.specs.Prelude.{◌≡◌};
ghost use Rattle.parse_calls.specs.Answers.{IsGiven, goto_answer};

use crate::lookups::{Target, goto_at};
use crate::room::give;

/// The goto of a state on a nonterminal, by tables as numbers. If `out` has room, it gets the number
/// of the state, and `length` becomes 1. The result is the status: 0 for a goto, 1 if there is none,
/// and 2 for a fault: the numbers are not tables that have the state and the nonterminal. Only a
/// goto has a number.
pub fn goto(tables: &[u32], state: u32, nonterminal: u32, out: &mut [u32], length: &mut usize) -> u8
    ensures { IsGiven (goto_answer tables.now state nonterminal) result out.old out.new length.new }
{
    match goto_at(tables, state, nonterminal) {
        Target::Fault => give(2, &[], out, length),
        Target::Nothing => give(1, &[], out, length),
        Target::State(target) => give(0, &[target], out, length),
    }
}
