//! How many conflicts a state has.
ghost use Rattle.std.specs.Prelude.{◌≡◌, ◌+◌, ◌<◌, ◌^◌, length, SomeIff};
ghost use Rattle.lalrpop_states.specs.conflicts.StateConflicts.{state_conflicts, share};
ghost use Rattle.lalrpop_states.specs.conflicts.ConflictCounts.{count_on_bit, count_on_place, shift_conflict_count, later_count, reduce_conflict_count};

use super::state::{Lr1State, StateIndex};
use lalrpop_grammar::lookahead::token_set::TokenSet;
use lalrpop_grammar::repr::terminals::TerminalSet;
use lalrpop_grammar::repr::{Production, TerminalString};
use std::collections::BTreeMap;

/// How many conflicts `conflicts` lists for the state. `None` if there are more than the greatest
/// `usize`. Allocates nothing.
pub fn conflict_count<'grammar>(
    state: &Lr1State<'grammar>,
    terminals: &TerminalSet,
) -> Option<usize>
    ensures count { SomeIff result (length (state_conflicts terminals.now state.now) < 2 ^ 64)
        (length (state_conflicts terminals.now state.now)) }
{
    let shifts = count_shift_conflicts(&state.shifts, &state.reductions, terminals)?;
    let reduces = count_reduce_conflicts(&state.reductions)?;
    shifts.checked_add(reduces)
}

// How many conflicts are of a shift and a reduction. `None` if there are more than the greatest
// `usize`.
fn count_shift_conflicts<'grammar>(
    shifts: &BTreeMap<TerminalString, StateIndex>,
    reductions: &[(TokenSet, &'grammar Production)],
    terminals: &TerminalSet,
) -> Option<usize>
    ensures { SomeIff result
        (shift_conflict_count terminals.now reductions.now shifts.now.entries < 2 ^ 64)
        (shift_conflict_count terminals.now reductions.now shifts.now.entries) }
{
    if reductions.is_empty() {
        return Some(0);
    }
    let mut count: usize = 0;
    for (terminal, _) in shifts.iter() {
        count = count.checked_add(count_on_place(reductions, terminals.bit(terminal)))?;
    }
    Some(count)
}

// How many reductions hold the bit of a terminal: none if the terminal has no bit.
fn count_on_place<'grammar>(
    reductions: &[(TokenSet, &'grammar Production)],
    bit: Option<usize>,
) -> usize
    ensures { result ≡ count_on_place reductions.now bit }
{
    let Some(bit) = bit else {
        return 0;
    };
    count_on_bit(reductions, bit)
}

// How many reductions hold a bit.
fn count_on_bit<'grammar>(reductions: &[(TokenSet, &'grammar Production)], bit: usize) -> usize
    ensures { result ≡ count_on_bit reductions.now bit }
{
    reductions
        .iter()
        .filter(|reduction| reduction.0.contains_bit(bit))
        .count()
}

// How many conflicts are of two reductions. `None` if there are more than the greatest `usize`.
fn count_reduce_conflicts<'grammar>(
    reductions: &[(TokenSet, &'grammar Production)],
) -> Option<usize>
    ensures { SomeIff result (reduce_conflict_count reductions.now < 2 ^ 64)
        (reduce_conflict_count reductions.now) }
{
    let mut count: usize = 0;
    for place in 0..reductions.len() {
        let later = &reductions[place + 1..];
        count = count.checked_add(count_later(&reductions[place], later))?;
    }
    Some(count)
}

// How many later reductions share a token with a reduction.
fn count_later<'grammar>(
    reduction: &(TokenSet, &'grammar Production),
    later: &[(TokenSet, &'grammar Production)],
) -> usize
    ensures { result ≡ later_count reduction.now later.now }
{
    later
        .iter()
        .filter(|other| share_token(reduction, other))
        .count()
}

// Whether two reductions share a token.
fn share_token<'grammar>(
    first: &(TokenSet, &'grammar Production),
    second: &(TokenSet, &'grammar Production),
) -> bool
    ensures { result ≡ share first.now.0 second.now.0 }
{
    first.0.is_intersecting(&second.0)
}
