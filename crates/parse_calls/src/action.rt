//! A call for the action of a state on a token.
ghost use Rattle.std.specs.Prelude.{◌≡◌};
ghost use Rattle.parse_calls.specs.Answers.{IsGiven, action_answer, reduce_answer};
ghost use Rattle.parse_calls.specs.Lookups.{side_at};

use crate::lookups::{Found, action_at, side_at};
use crate::room::give;

/// The action of a state on a token, by tables as numbers. As many of its numbers as fit go to
/// `out`, and how many there are to `length`. A shift has the number 0 and its state. A reduction has
/// 1, its production, the nonterminal of that, and the length of its right side. The result is the
/// status: 0 for an action, 1 if there is none, and 2 for a fault: the numbers are not tables that
/// have the state and the token. Only an action has numbers.
pub fn action(tables: &[u32], state: u32, token: u32, out: &mut [u32], length: &mut usize) -> u8
    ensures { IsGiven (action_answer tables.now state token) result out.old out.new length.new }
{
    match action_at(tables, state, token) {
        Found::Fault => give(2, &[], out, length),
        Found::Nothing => give(1, &[], out, length),
        Found::Shift(target) => give(0, &[0, target], out, length),
        Found::Reduce(production) => give_reduction(tables, production, out, length),
    }
}

// The answer for a reduction by a production.
fn give_reduction(tables: &[u32], production: u32, out: &mut [u32], length: &mut usize) -> u8
    ensures { IsGiven (reduce_answer production (side_at tables.now production)) result out.old
        out.new length.new }
{
    match side_at(tables, production) {
        Some((name, len)) => give(0, &[1, production, name, len], out, length),
        None => give(2, &[], out, length),
    }
}
