//! States at the places of their numbers, each joined with those of the same number.
ghost use Rattle.std.specs.Prelude.{IfOk, OnOk};
ghost use Rattle.lalrpop_base.specs.Words.{Places, AreMoved, number_in};
ghost use Rattle.lalrpop_states.specs.collapse.Merging.{ArePlaced};

use super::join::join_state;
use lalrpop_base::lr1_core::state::Lr1State;
use lalrpop_base::memory::OutOfMemory;
use lalrpop_state_graph::renumber::renumber_state;
use std::alloc::Global;

// Joins a state with the one at its number, or appends it if there is none.
fn place_state<'grammar>(
    state: Lr1State<'grammar>,
    merged: &mut Vec<Lr1State<'grammar>>,
) -> Result<(), OutOfMemory>
    ensures { OnOk result (Places state.entry merged.old.items merged.new.items) }
{
    let number = state.index.0;
    if number < merged.len() {
        return join_state(&mut merged[number], state);
    }
    merged.push(state)?;
    Ok(())
}

/// One state for each number: the join of the states with that number.
pub(super) fn place_states<'grammar>(
    alloc: Global,
    states: Vec<Lr1State<'grammar>>,
) -> Result<Vec<Lr1State<'grammar>>, OutOfMemory>
    ensures { IfOk result (λ merged. ArePlaced states.entry.items merged.items) }
{
    let mut merged = Vec::new(alloc);
    for state in states {
        place_state(state, &mut merged)?;
    }
    Ok(merged)
}

/// The states in their order. Their own numbers and those of their targets are replaced by new
/// ones.
pub(super) fn number_states<'grammar>(
    alloc: Global,
    states: Vec<Lr1State<'grammar>>,
    numbers: &[usize],
) -> Result<Vec<Lr1State<'grammar>>, OutOfMemory>
    ensures { IfOk result
        (λ numbered. AreMoved (number_in numbers.now) states.entry.items numbered.items) }
{
    let mut numbered = Vec::new(alloc);
    for state in states {
        numbered.push(renumber_state(state, numbers))?;
    }
    Ok(numbered)
}
