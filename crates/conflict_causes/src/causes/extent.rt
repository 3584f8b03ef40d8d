//! The tokens and the states of a cause.
ghost use Rattle.std.specs.Prelude.{IfOk, OnOk};
ghost use Rattle.std.specs.BTreeSet.{IsOrdered};
ghost use Rattle.std.specs.Ordering.{nat_cmp};
ghost use Rattle.conflict_causes.specs.Extents.{AddsState, AddsConflictTokens, AreCauseStates, AreCauseTokens};

use super::Cause;
use lalrpop_base::lookahead::token_set::TokenSet;
use lalrpop_base::lr1_core::state::Lr1Conflict;
use lalrpop_base::memory::OutOfMemory;
use std::alloc::Global;
use std::collections::BTreeSet;

impl Cause {
    /// The tokens of all conflicts of the cause, among the conflicts of which it is a cause. The
    /// error is `OutOfMemory` if an allocation fails.
    pub fn tokens(
        &self,
        alloc: Global,
        conflicts: &[Lr1Conflict<'_>],
    ) -> Result<TokenSet, OutOfMemory>
        ensures tokens { IfOk result (AreCauseTokens conflicts.now self.now) }
    {
        tokens_of(alloc, conflicts, self.conflicts())
    }

    /// The numbers of the states of all conflicts of the cause, among the conflicts of which it is a
    /// cause. The error is `OutOfMemory` if an allocation fails.
    pub fn states(
        &self,
        alloc: Global,
        conflicts: &[Lr1Conflict<'_>],
    ) -> Result<BTreeSet<usize>, OutOfMemory>
        ensures states { IfOk result (λ set. AreCauseStates conflicts.now self.now set.keys) }
    {
        states_of(alloc, conflicts, self.conflicts())
    }
}

// The tokens of the conflicts with the numbers.
fn tokens_of(
    alloc: Global,
    conflicts: &[Lr1Conflict<'_>],
    numbers: &[usize],
) -> Result<TokenSet, OutOfMemory>
    ensures { IfOk result (AreCauseTokens conflicts.now numbers.now) }
{
    let mut set = TokenSet::empty_set(alloc);
    for number in numbers {
        add_tokens(&mut set, conflicts, *number)?;
    }
    Ok(set)
}

// Adds the tokens of a conflict, if there is one with the number.
fn add_tokens(
    set: &mut TokenSet,
    conflicts: &[Lr1Conflict<'_>],
    number: usize,
) -> Result<(), OutOfMemory>
    ensures { OnOk result (AddsConflictTokens conflicts.now number set.old set.new) }
{
    if number < conflicts.len() {
        set.union_with(&conflicts[number].lookahead)?;
    }
    Ok(())
}

// The numbers of the states of the conflicts with the numbers.
fn states_of(
    alloc: Global,
    conflicts: &[Lr1Conflict<'_>],
    numbers: &[usize],
) -> Result<BTreeSet<usize>, OutOfMemory>
    ensures { IfOk result (λ set. AreCauseStates conflicts.now numbers.now set.keys) }
{
    let mut set = BTreeSet::new(alloc);
    for number in numbers {
        add_state(&mut set, conflicts, *number)?;
    }
    Ok(set)
}

// Adds the number of the state of a conflict, if there is a conflict with the number.
fn add_state(
    set: &mut BTreeSet<usize>,
    conflicts: &[Lr1Conflict<'_>],
    number: usize,
) -> Result<(), OutOfMemory>
    ensures { OnOk result (AddsState conflicts.now number set.old.keys set.new.keys) }
{
    if number < conflicts.len() {
        set.insert(conflicts[number].state.0)?;
    }
    Ok(())
}
