//! Lists of states.
use lalrpop_base::collections::Set;
use lalrpop_base::lr1_core::state::StateIndex;
use lalrpop_base::memory::OutOfMemory;

/// Appends the numbers of states, each after a space, or a hyphen if there are none.
pub fn push_state_list(text: &mut String, states: &[StateIndex]) -> Result<(), OutOfMemory> {
    if states.is_empty() {
        text.push_str(" -")?;
    }
    for state in states {
        write!(text, " {state}")?;
    }
    Ok(())
}

/// Appends the numbers of a set of states in ascending order, each after a space, or a hyphen if
/// there are none.
pub fn push_state_set(text: &mut String, states: &Set<StateIndex>) -> Result<(), OutOfMemory> {
    if states.is_empty() {
        text.push_str(" -")?;
    }
    for state in states.iter() {
        write!(text, " {state}")?;
    }
    Ok(())
}
