//! The conflicts of the states of a list.
ghost use Rattle.std.specs.Prelude.{◌≡◌, ◌<◌, ◌^◌, ◌↔◌, ℕ, IfOk, IsTrue, MatchOption, SomeIff, length};
ghost use Rattle.std.specs.List.{flat_map};
ghost use Rattle.lalrpop_states.specs.conflicts.StateConflicts.{IsConflictFree};
ghost use Rattle.lalrpop_collections.specs.Words.{has};
ghost use Rattle.lalrpop_grammar.specs.Words.{HasToken};
ghost use Rattle.lalrpop_states.specs.conflicts.StateConflicts.{state_conflicts};
ghost use Rattle.lalrpop_grammar.specs.declared.lookahead.token.Token.TheVariants.{Terminal as TokenOf};
ghost use Rattle.lalrpop_states.specs.conflicts.HeldShifts.{HoldsNoShift, IsHeldBit, ShareNoBit};
ghost use Rattle.lalrpop_states.specs.conflicts.AllConflicts.{AreAllConflictFree};

use crate::lookahead::Lookahead;
use crate::lr1_core::conflict_count;
use crate::lr1_core::state::{Lr1Conflict, Lr1State, StateIndex};
use lalrpop_collections::memory::OutOfMemory;
use lalrpop_grammar::lookahead::token::Token;
use lalrpop_grammar::lookahead::token_set::TokenSet;
use lalrpop_grammar::repr::terminals::TerminalSet;
use lalrpop_grammar::repr::{Production, TerminalString};
use std::alloc::Global;
use std::collections::BTreeMap;

/// The conflicts of each state, in the order of the states. `OutOfMemory` if an allocation fails.
pub fn conflicts_of<'grammar>(
    alloc: Global,
    states: &[Lr1State<'grammar>],
    terminals: &TerminalSet,
) -> Result<Vec<Lr1Conflict<'grammar>>, OutOfMemory>
    ensures { IfOk result
        (λ conflicts. conflicts.items ≡ flat_map (state_conflicts terminals.now) states.now) }
{
    let mut conflicts = Vec::new(alloc);
    for state in states {
        let mut own = TokenSet::conflicts(alloc, state, terminals)?;
        conflicts.append(&mut own)?;
    }
    Ok(conflicts)
}

/// How many conflicts the states have. `None` if there are more than the greatest `usize`.
/// Allocates nothing.
pub fn conflict_count_of<'grammar>(
    states: &[Lr1State<'grammar>],
    terminals: &TerminalSet,
) -> Option<usize>
    ensures { SomeIff result
        (length (flat_map (state_conflicts terminals.now) states.now) < 2 ^ 64)
        (length (flat_map (state_conflicts terminals.now) states.now)) }
{
    let mut count: usize = 0;
    for state in states {
        let own = conflict_count(state, terminals)?;
        count = count.checked_add(own)?;
    }
    Some(count)
}

// The tokens that the reductions hold, or `None` if two reductions share a token.
fn distinct_tokens<'grammar>(
    alloc: Global,
    reductions: &[(TokenSet, &'grammar Production)],
    terminals: &TerminalSet,
) -> Result<Option<TokenSet>, OutOfMemory>
    ensures { IfOk result (λ answer. MatchOption answer (¬ ShareNoBit reductions.now)
        (λ held. ShareNoBit reductions.now × ((bit : ℕ) →
        IsTrue (has held bit) ↔ IsHeldBit reductions.now bit))) }
{
    let mut held = TokenSet::new(alloc, terminals);
    for reduction in reductions {
        if held.is_intersecting(&reduction.0) {
            return Ok(None);
        }
        held.union_with(&reduction.0)?;
    }
    Ok(Some(held))
}

/// Whether the set holds a terminal. `OutOfMemory` if an allocation fails: the terminal is copied.
pub fn holds_terminal(
    alloc: Global,
    held: &TokenSet,
    terminal: &TerminalString,
    terminals: &TerminalSet,
) -> Result<bool, OutOfMemory>
    ensures { IfOk result
        (λ yes. IsTrue yes ↔ HasToken terminals.now held.now (TokenOf terminal.now)) }
{
    let token = Token::Terminal(terminal.clone(alloc)?);
    Ok(held.contains(&token, terminals))
}

// Whether none of the shifts is on a terminal that the set holds.
fn holds_no_shift(
    alloc: Global,
    shifts: &BTreeMap<TerminalString, StateIndex>,
    held: &TokenSet,
    terminals: &TerminalSet,
) -> Result<bool, OutOfMemory>
    ensures { IfOk result
        (λ yes. IsTrue yes ↔ HoldsNoShift terminals.now held.now shifts.now.entries) }
{
    for (terminal, _target) in shifts.iter() {
        if holds_terminal(alloc, held, terminal, terminals)? {
            return Ok(false);
        }
    }
    Ok(true)
}

/// Whether no two actions of a state share a token. Lists no conflict. `OutOfMemory` if an
/// allocation fails.
pub fn has_no_conflict<'grammar>(
    alloc: Global,
    state: &Lr1State<'grammar>,
    terminals: &TerminalSet,
) -> Result<bool, OutOfMemory>
    ensures { IfOk result (λ yes. IsTrue yes ↔ IsConflictFree terminals.now state.now) }
{
    let _all = terminals.all();
    if state.reductions.is_empty() {
        return Ok(true);
    }
    let Some(held) = distinct_tokens(alloc, &state.reductions, terminals)? else {
        return Ok(false);
    };
    let free = holds_no_shift(alloc, &state.shifts, &held, terminals)?;
    Ok(free)
}

/// Whether no state has a conflict. Stops at the first state that has one. `OutOfMemory` if an
/// allocation fails.
pub fn have_no_conflict<'grammar>(
    alloc: Global,
    states: &[Lr1State<'grammar>],
    terminals: &TerminalSet,
) -> Result<bool, OutOfMemory>
    ensures { IfOk result (λ yes. IsTrue yes ↔ AreAllConflictFree terminals.now states.now) }
{
    for state in states {
        if !has_no_conflict(alloc, state, terminals)? {
            return Ok(false);
        }
    }
    Ok(true)
}
