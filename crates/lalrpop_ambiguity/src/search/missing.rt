//! How many productions two derivations still need, at least.
use super::frames::{Frame, Frames, Shape, is_blocked, outermost, symbol_after, symbol_before};
use lalrpop_base::exact::equal;
use lalrpop_base::first::FirstSets;
use lalrpop_base::repr::Symbol;

/// How many productions have to be put around or within the two derivations before both are whole
/// derivations from one nonterminal, at least. A step adds one production, and lessens the number by
/// one at most.
pub(super) fn missing_productions(first_sets: &FirstSets<'_>, shape: &Shape<'_>) -> usize {
    let (left, right) = (&shape.left, &shape.right);
    let one = missing_around(first_sets, left, right);
    let around = missing_around(first_sets, right, left).saturating_add(one);
    if around > 0 {
        return missing_within(left, right).saturating_add(around);
    }
    if needs_one_root(left, right) {
        return 1;
    }
    missing_within(left, right)
}

// 1 if a derivation has to become the child of a production: the other one has a symbol before it
// that this one lacks, or a symbol after it, and this one has nothing left.
fn missing_around(first_sets: &FirstSets<'_>, one: &Frames<'_>, other: &Frames<'_>) -> usize {
    if symbol_before(one).is_none() && symbol_before(other).is_some() {
        return 1;
    }
    if is_blocked(one) && !derives_nothing(first_sets, other) {
        return 1;
    }
    0
}

// Whether both derivations are whole, and are from two nonterminals.
fn needs_one_root(left: &Frames<'_>, right: &Frames<'_>) -> bool {
    if !is_blocked(left) || !is_blocked(right) {
        return false;
    }
    match (outermost(left), outermost(right)) {
        (Some(a), Some(b)) => !equal(a, b),
        _ => false,
    }
}

// 1 if a nonterminal after one derivation has to be expanded: other symbols are after the two.
fn missing_within(left: &Frames<'_>, right: &Frames<'_>) -> usize {
    match (symbol_after(left), symbol_after(right)) {
        (Some(x), Some(y)) if !equal(x, y) => 1,
        _ => 0,
    }
}

// Whether all symbols after a derivation are nullable.
fn derives_nothing(first_sets: &FirstSets<'_>, frames: &Frames<'_>) -> bool {
    let Some((last, around)) = frames.as_slice().split_last() else {
        return true;
    };
    if !are_nullable(first_sets, last.rest()) {
        return false;
    }
    around.iter().all(|frame| are_nullable(first_sets, frame.with_after().rest()))
}

/// Whether each of the symbols is a nullable nonterminal.
pub(super) fn are_nullable(first_sets: &FirstSets<'_>, symbols: &[Symbol]) -> bool {
    for symbol in symbols {
        if !is_nullable(first_sets, symbol) {
            return false;
        }
    }
    true
}

fn is_nullable(first_sets: &FirstSets<'_>, symbol: &Symbol) -> bool {
    match symbol {
        Symbol::Nonterminal(name) => first_sets.is_nullable(name),
        Symbol::Terminal(_) => false,
    }
}
