//! Calls whose allocations are refused in turn, for tests.
use refused_growth::attempts::{Attempt, Outcome, refused_in_turn};
use std::alloc::Global;
use std::test::Fail;

// The number of turns in which an allocation of a call was refused, before it returned the expected
// result.
fn turns_of<A: Attempt>(alloc: Global, call: &mut A) -> Result<usize, Fail> {
    match refused_in_turn(alloc, call)? {
        Outcome::Refused(turns) => Ok(turns),
        Outcome::Wrong(turn) => Err(Fail::new(format_args!("another answer in turn {turn}"))),
        Outcome::TooLarge => Err(Fail::from("too little memory in each turn")),
    }
}

/// Fails unless an allocation of a call is refused in at least one turn. Each such turn must leave
/// what the call promises for a failure, and the last turn must give the expected result.
pub fn each_growth_refused<A: Attempt>(alloc: Global, call: &mut A) -> Result<(), Fail> {
    if turns_of(alloc, call)? == 0 {
        return Err(Fail::from("no growth was refused"));
    }
    Ok(())
}

/// Fails unless a call returns the expected result without any allocation.
pub fn no_growth_needed<A: Attempt>(alloc: Global, call: &mut A) -> Result<(), Fail> {
    let turns = turns_of(alloc, call)?;
    if turns > 0 {
        return Err(Fail::new(format_args!("{turns} growths were refused")));
    }
    Ok(())
}
