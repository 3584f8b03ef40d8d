//! What a run does next.
ghost use Rattle.std.specs.Prelude.{◌≡◌};
ghost use Rattle.parse_calls.specs.Lookups.{goto_at};
ghost use Rattle.parse_calls.specs.Turns.{goto_turn, reduction_turn, turn_at};

use crate::lookups::{Found, Target, action_at, goto_at, side_at};

/// What a run does next on a token: a shift to a state; a reduction by a production, which leaves
/// so many states on the stack, and goes to a state; or the final reduction, by a production, and
/// whether one tree is left. `Stuck` means that the token is refused, and `Faulty` that the numbers
/// do not say.
#[derive(Clone, Copy)]
pub enum Turn {
    Faulty,
    Stuck,
    Shifts(u32),
    Reduces(u32, usize, u32),
    Ends(u32, bool),
}

/// The turn of a stack of states, with the newest last, on a token.
pub(crate) fn turn_at(numbers: &[u32], stack: &[u32], token: u32) -> Turn
    ensures { result ≡ turn_at numbers.now stack.now token }
{
    let Some(state) = stack.last().copied() else {
        return Turn::Faulty;
    };
    match action_at(numbers, state, token) {
        Found::Fault => Turn::Faulty,
        Found::Nothing => Turn::Stuck,
        Found::Shift(target) => Turn::Shifts(target),
        Found::Reduce(production) => reduction_turn(numbers, stack, production),
    }
}

// The turn of a reduction by a production.
fn reduction_turn(numbers: &[u32], stack: &[u32], production: u32) -> Turn
    ensures { result ≡ reduction_turn numbers.now stack.now production }
{
    let Some((name, len)) = side_at(numbers, production) else {
        return Turn::Faulty;
    };
    let rest = stack.len().saturating_sub(len as usize);
    if rest == 0 {
        return Turn::Ends(production, true);
    }
    goto_turn(numbers, production, name, rest, stack[rest - 1])
}

// The turn of a reduction after which a state is on top of the stack.
fn goto_turn(numbers: &[u32], production: u32, name: u32, rest: usize, state: u32) -> Turn
    ensures { result ≡ goto_turn production rest (goto_at numbers.now state name) }
{
    match goto_at(numbers, state, name) {
        Target::Fault => Turn::Faulty,
        Target::Nothing => Turn::Ends(production, rest == 1),
        Target::State(target) => Turn::Reduces(production, rest, target),
    }
}
