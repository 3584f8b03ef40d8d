//! How many conflicts a state has, with sets of tokens by number.
ghost use Rattle.std.specs.Prelude.{◌≡◌, ◌<◌, ◌≤◌, ◌++◌, ℕ, List, Contains, cond, length, count_by, IfOk, OnOk};
ghost use Rattle.lalrpop_base.specs.Words.{has};
ghost use Rattle.lalrpop_grammar.specs.declared.repr.TerminalString.{TerminalString as Name};
ghost use Rattle.lalrpop_states.specs.conflicts.ConflictCounts.{count_on_place};
ghost use Rattle.lalrpop_states.specs.conflicts.StateConflicts.{share};
ghost use Rattle.canonical_by_number.specs.TokenSets.{AreSetsIn, set_at};
ghost use Rattle.canonical_by_number.specs.Conflicts.{CountsMore, conflicts_of, finished_entries, finished_entry, holds_in, reduce_conflicts_of, reductions_in, shares_in, shift_conflicts_of};
ghost use Rattle.canonical_by_number.specs.Edges.{AreOverSymbols, bit_of, bits_of};

use crate::token_sets::TokenSets;
use lalrpop_base::memory::OutOfMemory;
use lalrpop_base::numbers::Numbers;
use lalrpop_base::repr::Symbol;
use lalrpop_base::repr::terminals::TerminalSet;
use std::alloc::Global;

// The bit of a symbol: that of the terminal that it is, and none for a nonterminal.
fn bit_of(symbol: &Symbol, terminals: &TerminalSet) -> Option<usize>
    ensures { result ≡ bit_of terminals.now symbol.now }
{
    match symbol {
        Symbol::Terminal(terminal) => terminals.bit(terminal),
        Symbol::Nonterminal(_) => None,
    }
}

/// The bit of each symbol, by its number. `OutOfMemory` if an allocation fails.
pub fn bits_of(
    alloc: Global,
    numbers: &Numbers<'_>,
    terminals: &TerminalSet,
) -> Result<Vec<Option<usize>>, OutOfMemory>
    ensures { IfOk result
        (λ bits. bits.items ≡ bits_of terminals.now numbers.now.symbols.items) }
{
    let mut bits = Vec::new(alloc);
    for symbol in &numbers.symbols {
        bits.push(bit_of(symbol, terminals))?;
    }
    Ok(bits)
}

// Adds the item with its set, if the item is finished.
fn add_if_finished(
    numbers: &Numbers<'_>,
    item: usize,
    tokens: usize,
    finished: &mut Vec<(usize, usize)>,
) -> Result<(), OutOfMemory>
    requires { item < length numbers.now.items.items }
    ensures { OnOk result (finished.new.items ≡
        finished.old.items ++ finished_entry numbers.now (item, tokens)) }
{
    if let Some(_symbol) = numbers.behind[item] {
        return Ok(());
    }
    finished.push((item, tokens))?;
    Ok(())
}

/// Replaces the contents of `finished` by those items that are finished, in order. `OutOfMemory` if
/// an allocation fails.
pub fn finished_of(
    numbers: &Numbers<'_>,
    list: &[(usize, usize)],
    finished: &mut Vec<(usize, usize)>,
) -> Result<(), OutOfMemory>
    requires { (e : ℕ × ℕ) → Contains list.now e → e.0 < length numbers.now.items.items }
    ensures { OnOk result (finished.new.items ≡ finished_entries numbers.now list.now) }
{
    finished.clear();
    for entry in list {
        add_if_finished(numbers, entry.0, entry.1, finished)?;
    }
    Ok(())
}

// 1 if a set holds a bit, and otherwise 0.
fn held(sets: &TokenSets, tokens: usize, bit: usize) -> usize
    requires { tokens < length sets.now }
    ensures held { result ≡ cond (has (set_at sets.now tokens) bit) 1 0 }
    ensures few { result ≤ 1 }
{
    if sets.set(tokens).contains_bit(bit) {
        return 1;
    }
    0
}

// How many finished items hold a bit.
fn count_on_bit(sets: &TokenSets, finished: &[(usize, usize)], bit: usize) -> usize
    requires { AreSetsIn sets.now finished.now }
    ensures { result ≡ count_by (holds_in sets.now bit) finished.now }
{
    let mut count: usize = 0;
    for entry in finished {
        count += held(sets, entry.1, bit);
    }
    count
}

// How many finished items hold the bit of a terminal: none if the terminal has no bit.
fn count_on_place(
    numbers: &Numbers<'_>,
    sets: &TokenSets,
    finished: &[(usize, usize)],
    bit: Option<usize>,
) -> usize
    requires { AreSetsIn sets.now finished.now }
    ensures { result ≡ count_on_place (reductions_in numbers.now sets.now finished.now) bit }
{
    let _known = numbers.symbols.len();
    let Some(bit) = bit else {
        return 0;
    };
    count_on_bit(sets, finished, bit)
}

// A count with the conflicts of a shift and a reduction.
fn add_shift_conflicts(
    numbers: &Numbers<'_>,
    bits: &[Option<usize>],
    sets: &TokenSets,
    finished: &[(usize, usize)],
    edges: &[(usize, usize)],
    old: usize,
) -> usize
    requires finished { AreSetsIn sets.now finished.now }
    requires edges { AreOverSymbols numbers.now.symbols.items edges.now }
    requires bits { length numbers.now.symbols.items ≤ length bits.now }
    ensures { (terminals : List Name) →
        bits.now ≡ bits_of terminals numbers.now.symbols.items →
        CountsMore (shift_conflicts_of numbers.now sets.now terminals finished.now edges.now) old result }
{
    if finished.is_empty() {
        return old;
    }
    let mut count = old;
    for edge in edges {
        let held = count_on_place(numbers, sets, finished, bits[edge.0]);
        count = count.saturating_add(held);
    }
    count
}

// 1 if two sets share a token, and otherwise 0.
fn shared(sets: &TokenSets, first: usize, second: usize) -> usize
    requires first { first < length sets.now }
    requires second { second < length sets.now }
    ensures shared { result ≡ cond (share (set_at sets.now first) (set_at sets.now second)) 1 0 }
    ensures few { result ≤ 1 }
{
    if sets.share(first, second) {
        return 1;
    }
    0
}

// How many later finished items share a token with a set.
fn count_later(sets: &TokenSets, tokens: usize, later: &[(usize, usize)]) -> usize
    requires tokens { tokens < length sets.now }
    requires later { AreSetsIn sets.now later.now }
    ensures { result ≡ count_by (shares_in sets.now tokens) later.now }
{
    let mut count: usize = 0;
    for entry in later {
        count += shared(sets, tokens, entry.1);
    }
    count
}

// A count with the conflicts of two reductions.
fn add_reduce_conflicts(
    numbers: &Numbers<'_>,
    sets: &TokenSets,
    finished: &[(usize, usize)],
    old: usize,
) -> usize
    requires { AreSetsIn sets.now finished.now }
    ensures { CountsMore (reduce_conflicts_of numbers.now sets.now finished.now) old result }
{
    let _known = numbers.symbols.len();
    let mut count = old;
    for place in 0..finished.len() {
        let later = &finished[place + 1..];
        count = count.saturating_add(count_later(sets, finished[place].1, later));
    }
    count
}

/// A count with the conflicts of a state, by its finished items and its edges. A count above the
/// greatest `usize` is that `usize`. Allocates nothing.
pub fn add_conflicts(
    numbers: &Numbers<'_>,
    bits: &[Option<usize>],
    sets: &TokenSets,
    finished: &[(usize, usize)],
    edges: &[(usize, usize)],
    old: usize,
) -> usize
    requires finished { AreSetsIn sets.now finished.now }
    requires edges { AreOverSymbols numbers.now.symbols.items edges.now }
    requires bits { length numbers.now.symbols.items ≤ length bits.now }
    ensures { (terminals : List Name) →
        bits.now ≡ bits_of terminals numbers.now.symbols.items →
        CountsMore (conflicts_of numbers.now sets.now terminals finished.now edges.now) old result }
{
    let count = add_shift_conflicts(numbers, bits, sets, finished, edges, old);
    add_reduce_conflicts(numbers, sets, finished, count)
}
