//! Tests whether all states are reached from the first, and no edge leads to the first.
ghost use Rattle.std.specs.Prelude.{◌≡◌, ◌<◌, ℕ, length, slice_get, Some, true, IfOk, IsFalse, IsTrue, OnOk};
ghost use Rattle.lalrpop_base.specs.Words.{LeadsBy, IsTarget};
ghost use Rattle.lalrpop_check.specs.check.ByNumber.{AreReachedByNumber, MarksTarget, MarksTargets};

use lalrpop_base::lr1_core::state::{Lr1State, StateIndex};
use lalrpop_base::memory::OutOfMemory;
use lalrpop_construction::construction::numbered_state::NumberedState;
use std::alloc::Global;
use std::collections::BTreeMap;

// Whether an edge leads to the first state.
fn leads_to_first<K: Ord>(edges: &BTreeMap<K, StateIndex>) -> bool
    ensures { IsFalse result → ¬ LeadsBy K.cmp edges.now 0 }
{
    let _count = edges.len();
    for (_, target) in edges.iter() {
        if target.0 == 0 {
            return true;
        }
    }
    false
}

/// Whether an edge of some state leads to the first state.
pub(super) fn lead_to_first<'grammar>(states: &[Lr1State<'grammar>]) -> bool
    ensures { IsFalse result → ¬ IsTarget states.now 0 }
{
    for state in states {
        if leads_to_first(&state.shifts) {
            return true;
        }
        if leads_to_first(&state.gotos) {
            return true;
        }
    }
    false
}

// Marks the state with the number `target`, if there is one. If it was not marked, it is found.
fn mark_target(
    target: usize,
    marks: &mut Vec<bool>,
    found: &mut Vec<usize>,
) -> Result<(), OutOfMemory>
    ensures { OnOk result (MarksTarget target marks.old.items found.old.items marks.new.items
        found.new.items) }
{
    if target >= marks.len() {
        return Ok(());
    }
    if marks[target] {
        return Ok(());
    }
    marks[target] = true;
    found.push(target)?;
    Ok(())
}

// Marks the states to which edges lead. Those that were not marked are found.
fn mark_targets(
    edges: &[(usize, usize)],
    marks: &mut Vec<bool>,
    found: &mut Vec<usize>,
) -> Result<(), OutOfMemory>
    ensures { OnOk result (MarksTargets edges.now marks.old.items found.old.items marks.new.items
        found.new.items) }
{
    for edge in edges {
        mark_target(edge.1, marks, found)?;
    }
    Ok(())
}

// Whether all states are marked.
fn all_marked(marks: &[bool]) -> bool
    ensures { IsTrue result → (s : ℕ) → s < length marks.now → slice_get marks.now s ≡ Some true }
{
    for mark in marks {
        if !*mark {
            return false;
        }
    }
    true
}

/// Whether all states are reached from the first.
pub(super) fn are_reached(alloc: Global, states: &[NumberedState]) -> Result<bool, OutOfMemory>
    ensures { IfOk result (λ yes. IsTrue yes → AreReachedByNumber states.now) }
{
    let mut marks = vec![in alloc; false; states.len()]?;
    let mut found = Vec::with_capacity(alloc, states.len())?;
    mark_target(0, &mut marks, &mut found)?;
    for count in 0..states.len() {
        if count >= found.len() {
            return Ok(false);
        }
        let place = found[count];
        if place >= states.len() {
            return Ok(false);
        }
        mark_targets(&states[place].edges, &mut marks, &mut found)?;
    }
    Ok(all_marked(&marks))
}
