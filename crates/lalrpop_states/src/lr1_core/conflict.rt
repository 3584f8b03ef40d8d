//! The conflicts of a state.
ghost use Rattle.std.specs.Prelude.{◌≡◌, ◌++◌, ◌<◌, ◌↔◌, ℕ, [], List, IfOk, OnOk, ◌∷◌};
ghost use Rattle.std.specs.List.{flat_map};
ghost use Rattle.lalrpop_states.specs.conflicts.StateConflicts.{state_conflicts, shift_conflicts, conflicts_on_bit, conflicts_on_place, reduce_conflicts, later_conflicts, IsConflictFree};

use super::state::{Action, Conflict, Lr1Conflict, Lr1State, StateIndex};
use lalrpop_collections::memory::OutOfMemory;
use lalrpop_grammar::lookahead::token_set::TokenSet;
use lalrpop_grammar::repr::terminals::TerminalSet;
use lalrpop_grammar::repr::{Production, TerminalString};
use std::alloc::Global;
use std::collections::BTreeMap;

/// The conflicts of a state. First, for each shift, by rising terminal, there is a conflict with
/// each reduction that holds the terminal. Then there is a conflict for each two reductions that
/// share a token. `OutOfMemory` if an allocation fails.
pub fn conflicts<'grammar>(
    alloc: Global,
    state: &Lr1State<'grammar>,
    terminals: &TerminalSet,
) -> Result<Vec<Lr1Conflict<'grammar>>, OutOfMemory>
    ensures list { IfOk result (λ list. list.items ≡ state_conflicts terminals.now state.now) }
    ensures none { IfOk result (λ list. (list.items ≡ []) ↔
        IsConflictFree terminals.now state.now) }
{
    let list = list_conflicts(alloc, state, terminals)?;
    Ok(list)
}

// The conflicts of a shift and a reduction, and then those of two reductions.
fn list_conflicts<'grammar>(
    alloc: Global,
    state: &Lr1State<'grammar>,
    terminals: &TerminalSet,
) -> Result<Vec<Lr1Conflict<'grammar>>, OutOfMemory>
    ensures { IfOk result (λ list. list.items ≡ state_conflicts terminals.now state.now) }
{
    let mut list = Vec::new(alloc);
    add_shift_conflicts(
        alloc,
        &mut list,
        state.index,
        &state.shifts,
        &state.reductions,
        terminals,
    )?;
    add_reduce_conflicts(alloc, &mut list, state.index, &state.reductions)?;
    Ok(list)
}

// Adds the conflicts of each shift with each reduction that holds its terminal.
fn add_shift_conflicts<'grammar>(
    alloc: Global,
    list: &mut Vec<Lr1Conflict<'grammar>>,
    state: StateIndex,
    shifts: &BTreeMap<TerminalString, StateIndex>,
    reductions: &[(TokenSet, &'grammar Production)],
    terminals: &TerminalSet,
) -> Result<(), OutOfMemory>
    ensures { OnOk result (list.new.items ≡ list.old.items ++ flat_map
        (shift_conflicts terminals.now state reductions.now) shifts.now.entries) }
{
    for (terminal, target) in shifts.iter() {
        let bit = terminals.bit(terminal);
        add_conflicts_on(alloc, list, state, terminal, *target, reductions, bit)?;
    }
    Ok(())
}

// Adds the conflicts of a shift with each reduction that holds the bit of its terminal. Adds none
// if the terminal has no bit.
fn add_conflicts_on<'grammar>(
    alloc: Global,
    list: &mut Vec<Lr1Conflict<'grammar>>,
    state: StateIndex,
    terminal: &TerminalString,
    target: StateIndex,
    reductions: &[(TokenSet, &'grammar Production)],
    bit: Option<usize>,
) -> Result<(), OutOfMemory>
    ensures { OnOk result (list.new.items ≡ list.old.items ++ conflicts_on_place state terminal.now
        target reductions.now bit) }
{
    let Some(bit) = bit else {
        return Ok(());
    };
    for reduction in reductions {
        add_conflict_on(alloc, list, state, terminal, target, reduction, bit)?;
    }
    Ok(())
}

// Adds the conflict of a shift with a reduction, if the reduction holds the bit.
fn add_conflict_on<'grammar>(
    alloc: Global,
    list: &mut Vec<Lr1Conflict<'grammar>>,
    state: StateIndex,
    terminal: &TerminalString,
    target: StateIndex,
    reduction: &(TokenSet, &'grammar Production),
    bit: usize,
) -> Result<(), OutOfMemory>
    ensures { OnOk result (list.new.items ≡ list.old.items ++ conflicts_on_bit state terminal.now
        target (reduction.now ∷ []) bit) }
{
    if !reduction.0.contains_bit(bit) {
        return Ok(());
    }
    list.push(Conflict {
        state,
        lookahead: TokenSet::single(alloc, bit)?,
        production: reduction.1,
        action: Action::Shift(terminal.clone(alloc)?, target),
    })?;
    Ok(())
}

// Adds the conflicts of each reduction with each later one that shares a token with it.
fn add_reduce_conflicts<'grammar>(
    alloc: Global,
    list: &mut Vec<Lr1Conflict<'grammar>>,
    state: StateIndex,
    reductions: &[(TokenSet, &'grammar Production)],
) -> Result<(), OutOfMemory>
    ensures { OnOk result
        (list.new.items ≡ list.old.items ++ reduce_conflicts state reductions.now) }
{
    for place in 0..reductions.len() {
        let later = &reductions[place + 1..];
        add_later_conflicts(alloc, list, state, &reductions[place], later)?;
    }
    Ok(())
}

// Adds the conflicts of a reduction with each later one that shares a token with it.
fn add_later_conflicts<'grammar>(
    alloc: Global,
    list: &mut Vec<Lr1Conflict<'grammar>>,
    state: StateIndex,
    reduction: &(TokenSet, &'grammar Production),
    later: &[(TokenSet, &'grammar Production)],
) -> Result<(), OutOfMemory>
    ensures { OnOk result
        (list.new.items ≡ list.old.items ++ later_conflicts state reduction.now later.now) }
{
    for other in later {
        add_conflict_of(alloc, list, state, reduction, other)?;
    }
    Ok(())
}

// Adds the conflict of two reductions, if they share a token.
fn add_conflict_of<'grammar>(
    alloc: Global,
    list: &mut Vec<Lr1Conflict<'grammar>>,
    state: StateIndex,
    first: &(TokenSet, &'grammar Production),
    second: &(TokenSet, &'grammar Production),
) -> Result<(), OutOfMemory>
    ensures { OnOk result
        (list.new.items ≡ list.old.items ++ later_conflicts state first.now (second.now ∷ [])) }
{
    if first.0.is_disjoint(&second.0) {
        return Ok(());
    }
    list.push(Conflict {
        state,
        lookahead: first.0.intersection(alloc, &second.0)?,
        production: first.1,
        action: Action::Reduce(second.1),
    })?;
    Ok(())
}
