//! Actions and gotos, which are read at their places.
ghost use Rattle.std.specs.Prelude.{◌≡◌};
ghost use Rattle.parse_calls.specs.Lookups.{action_at, action_by, action_in, goto_at, goto_by, goto_in, has_token, is_reduced, production_in, shift_on, side_at, target_in};
ghost use Rattle.parse_calls.specs.Pairs.{pairs_of};

use crate::places::{Counts, block_of, counts_of, set_of, side_of};

/// The action of a state on a token: none, a shift to a state, or a reduction by a production.
/// `Fault` means that the numbers have no such state or token.
#[derive(Clone, Copy)]
pub enum Found {
    Fault,
    Nothing,
    Shift(u32),
    Reduce(u32),
}

/// The goto of a state on a nonterminal: none, or a state. `Fault` means that the numbers have no
/// such state or nonterminal.
#[derive(Clone, Copy)]
pub enum Target {
    Fault,
    Nothing,
    State(u32),
}

// The target of the first pair with a name, of the numbers of pairs.
fn target_in(pairs: &[u32], name: u32) -> Option<u32>
    ensures { result ≡ target_in (pairs_of pairs.now) name }
{
    for k in 0..pairs.len() / 2 {
        if pairs[2 * k] == name {
            return Some(pairs[2 * k + 1]);
        }
    }
    None
}

// The target of the shift on a token, of the numbers of shifts. The end of the input is never
// shifted.
fn shift_on(counts: Counts, shifts: &[u32], token: u32) -> Option<u32>
    ensures { result ≡ shift_on counts token (pairs_of shifts.now) }
{
    if token >= counts.terminals {
        return None;
    }
    target_in(shifts, token)
}

// Whether the token set with a number has a token.
fn has_token(numbers: &[u32], counts: Counts, set: u32, token: u32) -> bool
    ensures { result ≡ has_token numbers.now counts set token }
{
    let Some(tokens) = set_of(numbers, counts, set) else {
        return false;
    };
    tokens.contains(&token)
}

// Whether there is a production with a number, and a token set with a number has a token.
fn is_reduced(numbers: &[u32], counts: Counts, production: u32, set: u32, token: u32) -> bool
    ensures { result ≡ is_reduced numbers.now counts token (production, set) }
{
    if production >= counts.productions {
        return false;
    }
    has_token(numbers, counts, set, token)
}

// The production of the first reduction whose set has a token, of the numbers of reductions.
fn production_in(numbers: &[u32], counts: Counts, pairs: &[u32], token: u32) -> Option<u32>
    ensures { result ≡ production_in numbers.now counts token (pairs_of pairs.now) }
{
    for k in 0..pairs.len() / 2 {
        if is_reduced(numbers, counts, pairs[2 * k], pairs[2 * k + 1], token) {
            return Some(pairs[2 * k]);
        }
    }
    None
}

// The action on a token, of the shifts and reductions of a state.
fn action_by(
    numbers: &[u32],
    counts: Counts,
    shifts: &[u32],
    reductions: &[u32],
    token: u32,
) -> Found
    ensures { result ≡ action_by (shift_on counts token (pairs_of shifts.now))
        (production_in numbers.now counts token (pairs_of reductions.now)) }
{
    if let Some(target) = shift_on(counts, shifts, token) {
        return Found::Shift(target);
    }
    match production_in(numbers, counts, reductions, token) {
        Some(production) => Found::Reduce(production),
        None => Found::Nothing,
    }
}

// The action of a state on a token, if the counts are known.
fn action_in(numbers: &[u32], counts: Counts, state: u32, token: u32) -> Found
    ensures { result ≡ action_in numbers.now state token counts }
{
    if token > counts.terminals {
        return Found::Fault;
    }
    match block_of(numbers, counts, state) {
        Some(block) => action_by(numbers, counts, block.shifts, block.reductions, token),
        None => Found::Fault,
    }
}

/// The action of a state on a token.
pub(crate) fn action_at(numbers: &[u32], state: u32, token: u32) -> Found
    ensures { result ≡ action_at numbers.now state token }
{
    match counts_of(numbers) {
        Some(counts) => action_in(numbers, counts, state, token),
        None => Found::Fault,
    }
}

// The goto on a nonterminal, of the gotos of a state.
fn goto_by(gotos: &[u32], name: u32) -> Target
    ensures { result ≡ goto_by (target_in (pairs_of gotos.now) name) }
{
    match target_in(gotos, name) {
        Some(target) => Target::State(target),
        None => Target::Nothing,
    }
}

// The goto of a state on a nonterminal, if the counts are known.
fn goto_in(numbers: &[u32], counts: Counts, state: u32, name: u32) -> Target
    ensures { result ≡ goto_in numbers.now state name counts }
{
    if name >= counts.nonterminals {
        return Target::Fault;
    }
    match block_of(numbers, counts, state) {
        Some(block) => goto_by(block.gotos, name),
        None => Target::Fault,
    }
}

/// The goto of a state on a nonterminal.
pub(crate) fn goto_at(numbers: &[u32], state: u32, name: u32) -> Target
    ensures { result ≡ goto_at numbers.now state name }
{
    match counts_of(numbers) {
        Some(counts) => goto_in(numbers, counts, state, name),
        None => Target::Fault,
    }
}

/// The nonterminal of the production with a number and the length of its right side, if there is
/// one.
pub(crate) fn side_at(numbers: &[u32], production: u32) -> Option<(u32, u32)>
    ensures { result ≡ side_at numbers.now production }
{
    match counts_of(numbers) {
        Some(counts) => side_of(numbers, counts, production),
        None => None,
    }
}
