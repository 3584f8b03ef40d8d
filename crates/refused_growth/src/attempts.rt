//! A call that is attempted over and over, each time with a little more memory.
use crate::refusing::{MOST_TURNS, Refusing};
use std::alloc::{AllocError, Global};

/// A call that can be attempted again and again.
pub trait Attempt {
    /// The outcome of an attempt. `Some(true)` if the call returned the expected result and nothing
    /// else, and `Some(false)` if it did anything else. `None` if it reported an allocation failure
    /// and left everything as it was.
    fn attempt(&mut self, alloc: Global) -> Option<bool>;
}

/// The outcome of a call that is attempted in turns.
#[derive(Clone, Copy, Debug, PartialEq, Eq)]
pub enum Outcome {
    /// In so many turns the call reported an allocation failure. Then it returned the expected
    /// result.
    Refused(usize),
    /// In this turn, counted from 0, the call did something else.
    Wrong(usize),
    /// No turn left enough memory.
    TooLarge,
}

/// Attempts a call in turn after turn, up to the first turn with enough memory. The call may
/// allocate at most 128,000 bytes in all. Values that the call reads must exist before.
pub fn refused_in_turn<A: Attempt>(alloc: Global, call: &mut A) -> Result<Outcome, AllocError> {
    let mut refusing = Refusing::new(alloc, MOST_TURNS)?;
    for turn in 0..MOST_TURNS {
        refusing.arm(alloc, turn);
        let answered = call.attempt(alloc);
        refusing.disarm(alloc);
        match answered {
            Some(true) => return Ok(Outcome::Refused(turn)),
            Some(false) => return Ok(Outcome::Wrong(turn)),
            None => (),
        }
    }
    Ok(Outcome::TooLarge)
}
