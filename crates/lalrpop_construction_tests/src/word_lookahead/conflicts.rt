//! The conflicts of a state whose lookaheads are words.
ghost use Rattle.std.specs.Prelude.{◌≡◌, ◌++◌, ◌∷◌, [], OnOk, IfOk};
ghost use Rattle.std.specs.List.{flat_map};
ghost use Rattle.lalrpop_construction_tests.specs.WordConflicts.{word_conflicts, word_shift_conflicts, word_conflicts_on_place, word_conflicts_on_bit, word_later_conflicts, word_reduce_conflicts};

use super::Word;
use lalrpop_base::lr1_core::state::{Action, Conflict, State, StateIndex};
use lalrpop_base::memory::OutOfMemory;
use lalrpop_base::repr::terminals::TerminalSet;
use lalrpop_base::repr::{Production, TerminalString};
use std::alloc::Global;
use std::collections::BTreeMap;

/// The conflicts of each shift with each reduction that holds its bit, and then those of each two
/// reductions that share a bit.
pub(super) fn conflicts<'grammar>(
    alloc: Global,
    state: &State<'grammar, Word>,
    terminals: &TerminalSet,
) -> Result<Vec<Conflict<'grammar, Word>>, OutOfMemory>
    ensures { IfOk result (λ list. list.items ≡ word_conflicts terminals.now state.now) }
{
    let mut list = Vec::new(alloc);
    add_shift_conflicts(
        alloc,
        &mut list,
        state.index,
        &state.shifts,
        &state.reductions,
        terminals,
    )?;
    add_reduce_conflicts(&mut list, state.index, &state.reductions)?;
    Ok(list)
}

// Adds the conflicts of each shift with each reduction that holds the bit of its terminal.
fn add_shift_conflicts<'grammar>(
    alloc: Global,
    list: &mut Vec<Conflict<'grammar, Word>>,
    state: StateIndex,
    shifts: &BTreeMap<TerminalString, StateIndex>,
    reductions: &[(Word, &'grammar Production)],
    terminals: &TerminalSet,
) -> Result<(), OutOfMemory>
    ensures { OnOk result (list.new.items ≡ list.old.items ++ flat_map
        (word_shift_conflicts terminals.now state reductions.now) shifts.now.entries) }
{
    for (terminal, target) in shifts.iter() {
        let bit = terminals.bit(terminal);
        add_conflicts_on(alloc, list, state, terminal, *target, reductions, bit)?;
    }
    Ok(())
}

// Adds the conflicts of one shift with each reduction that holds the bit of its terminal. A
// terminal without a bit has no conflicts.
fn add_conflicts_on<'grammar>(
    alloc: Global,
    list: &mut Vec<Conflict<'grammar, Word>>,
    state: StateIndex,
    terminal: &TerminalString,
    target: StateIndex,
    reductions: &[(Word, &'grammar Production)],
    bit: Option<usize>,
) -> Result<(), OutOfMemory>
    ensures { OnOk result (list.new.items ≡
        list.old.items ++ word_conflicts_on_place state terminal.now target reductions.now bit) }
{
    let Some(bit) = bit else {
        return Ok(());
    };
    for reduction in reductions {
        add_conflict_on(alloc, list, state, terminal, target, reduction, bit)?;
    }
    Ok(())
}

// Adds the conflict of one shift with one reduction, if the reduction holds the bit.
fn add_conflict_on<'grammar>(
    alloc: Global,
    list: &mut Vec<Conflict<'grammar, Word>>,
    state: StateIndex,
    terminal: &TerminalString,
    target: StateIndex,
    reduction: &(Word, &'grammar Production),
    bit: usize,
) -> Result<(), OutOfMemory>
    ensures { OnOk result (list.new.items ≡
        list.old.items ++ word_conflicts_on_bit state terminal.now
        target (reduction.now ∷ []) bit) }
{
    if !reduction.0.holds(bit) {
        return Ok(());
    }
    list.push(Conflict {
        state,
        lookahead: Word::single(bit),
        production: reduction.1,
        action: Action::Shift(terminal.clone(alloc)?, target),
    })?;
    Ok(())
}

// Adds the conflicts of each reduction with each later one that shares a bit with it.
fn add_reduce_conflicts<'grammar>(
    list: &mut Vec<Conflict<'grammar, Word>>,
    state: StateIndex,
    reductions: &[(Word, &'grammar Production)],
) -> Result<(), OutOfMemory>
    ensures { OnOk result
        (list.new.items ≡ list.old.items ++ word_reduce_conflicts state reductions.now) }
{
    for place in 0..reductions.len() {
        let later = &reductions[place + 1..];
        add_later_conflicts(list, state, &reductions[place], later)?;
    }
    Ok(())
}

// Adds the conflicts of one reduction with each later one that shares a bit with it.
fn add_later_conflicts<'grammar>(
    list: &mut Vec<Conflict<'grammar, Word>>,
    state: StateIndex,
    reduction: &(Word, &'grammar Production),
    later: &[(Word, &'grammar Production)],
) -> Result<(), OutOfMemory>
    ensures { OnOk result
        (list.new.items ≡ list.old.items ++ word_later_conflicts state reduction.now later.now) }
{
    for other in later {
        add_conflict_of(list, state, reduction, other)?;
    }
    Ok(())
}

// Adds the conflict of two reductions, if they share a bit.
fn add_conflict_of<'grammar>(
    list: &mut Vec<Conflict<'grammar, Word>>,
    state: StateIndex,
    first: &(Word, &'grammar Production),
    second: &(Word, &'grammar Production),
) -> Result<(), OutOfMemory>
    ensures { OnOk result
        (list.new.items ≡ list.old.items ++ word_later_conflicts state first.now
        (second.now ∷ [])) }
{
    let shared = first.0.intersection(second.0);
    if shared.bits == 0 {
        return Ok(());
    }
    list.push(Conflict {
        state,
        lookahead: shared,
        production: first.1,
        action: Action::Reduce(second.1),
    })?;
    Ok(())
}
