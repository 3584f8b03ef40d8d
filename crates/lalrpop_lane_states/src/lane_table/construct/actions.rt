//! The actions of a state that are traced.
ghost use Rattle.std.specs.Prelude.{◌++◌, ◌↔◌, ℕ, IfOk, IsTrue, OnOk, List, map};
ghost use Rattle.std.specs.List.{flat_map};
ghost use Rattle.lalrpop_base.specs.Words.{has};
ghost use Rattle.lalrpop_states.specs.declared.lr1_core.state.Action.{Action as TheAction};
ghost use Rattle.lalrpop_states.specs.conflicts.HeldShifts.{held_shift, IsHeldBit};
ghost use Rattle.lalrpop_lane_states.specs.lanes.LaneActions.{ActionsAscend, AreActions, asked_actions, reduce_action};

use lalrpop_base::collections::Set;
use lalrpop_base::lookahead::token_set::TokenSet;
use lalrpop_base::lr1_core::all_conflicts::holds_terminal;
use lalrpop_base::lr1_core::state::{Action, Lr1State, StateIndex};
use lalrpop_base::memory::OutOfMemory;
use lalrpop_base::repr::terminals::TerminalSet;
use lalrpop_base::repr::{Production, TerminalString};
use std::alloc::Global;
use std::collections::BTreeMap;

// The tokens that some reduction holds.
fn held_tokens<'grammar>(
    alloc: Global,
    reductions: &[(TokenSet, &'grammar Production)],
    terminals: &TerminalSet,
) -> Result<TokenSet, OutOfMemory>
    ensures { IfOk result
        (λ held. (bit : ℕ) → IsTrue (has held bit) ↔ IsHeldBit reductions.now bit) }
{
    let mut held = TokenSet::new(alloc, terminals);
    for reduction in reductions {
        held.union_with(&reduction.0)?;
    }
    Ok(held)
}

// Adds a shift, if its terminal is held.
fn add_shift<'grammar>(
    alloc: Global,
    terminal: &TerminalString,
    target: StateIndex,
    held: &TokenSet,
    terminals: &TerminalSet,
    actions: &mut Set<Action<'grammar>>,
) -> Result<(), OutOfMemory>
    ensures { OnOk result ((asked : List TheAction) →
        AreActions asked actions.old.keys →
        AreActions (asked ++ held_shift terminals.now held.now (terminal.now, target))
        actions.new.keys) }
{
    let _all = terminals.all();
    if !holds_terminal(alloc, held, terminal, terminals)? {
        return Ok(());
    }
    actions.insert(Action::Shift(terminal.clone(alloc)?, target))?;
    Ok(())
}

// Adds each shift whose terminal is held.
fn add_shifts<'grammar>(
    alloc: Global,
    shifts: &BTreeMap<TerminalString, StateIndex>,
    held: &TokenSet,
    terminals: &TerminalSet,
    actions: &mut Set<Action<'grammar>>,
) -> Result<(), OutOfMemory>
    ensures { OnOk result ((asked : List TheAction) →
        AreActions asked actions.old.keys →
        AreActions (asked ++ flat_map (held_shift terminals.now held.now) shifts.now.entries)
        actions.new.keys) }
{
    for (terminal, target) in shifts.iter() {
        add_shift(alloc, terminal, *target, held, terminals, actions)?;
    }
    Ok(())
}

// Adds each reduction.
fn add_reductions<'grammar>(
    reductions: &[(TokenSet, &'grammar Production)],
    actions: &mut Set<Action<'grammar>>,
) -> Result<(), OutOfMemory>
    ensures { OnOk result ((asked : List TheAction) →
        AreActions asked actions.old.keys →
        AreActions (asked ++ map reduce_action reductions.now) actions.new.keys) }
{
    for reduction in reductions {
        actions.insert(Action::Reduce(reduction.1))?;
    }
    Ok(())
}

/// The actions of a state that are traced: its reductions, and the shifts of terminals that some
/// reduction holds. So these are the actions of the state's conflicts, and all its reductions.
pub(super) fn actions_of<'grammar>(
    alloc: Global,
    state: &Lr1State<'grammar>,
    terminals: &TerminalSet,
) -> Result<Set<Action<'grammar>>, OutOfMemory>
    ensures actions { IfOk result
        (λ actions. AreActions (asked_actions terminals.now state.now) actions.keys) }
    ensures ascend { IfOk result (λ actions. ActionsAscend actions.keys) }
{
    let held = held_tokens(alloc, &state.reductions, terminals)?;
    let mut actions = Set::new(alloc);
    add_shifts(alloc, &state.shifts, &held, terminals, &mut actions)?;
    add_reductions(&state.reductions, &mut actions)?;
    let _count = actions.len();
    Ok(actions)
}
