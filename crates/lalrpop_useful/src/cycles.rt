//! The nonterminals that derive themselves.
ghost use Rattle.std.specs.Prelude.{◌≡◌, ◌↔◌, ◌+◌, ◌<◌, ◌∷◌, [], length, take, drop, IfOk, OnOk, IsTrue, Contains};
ghost use Rattle.lalrpop_collections.specs.lists.Walks.{Visits};
ghost use Rattle.lalrpop_grammar.specs.grammars.Grammar.{IsNullable};
ghost use Rattle.lalrpop_grammar.specs.grammars.WellFormed.{IsWellFormed, productions, rules_of};
ghost use Rattle.lalrpop_grammar.specs.declared.repr.NonterminalString.{NonterminalString};
ghost use Rattle.lalrpop_useful.specs.useful.Cycles.{DerivesAlone, IsAlone, IsAloneAt, IsAloneOn, IsCyclic};
ghost use Rattle.lalrpop_useful.specs.useful.KnownCycles.{IsKnown};

mod finished;
mod known;

use self::finished::finished_names;
use self::known::{Known, decide};
use crate::names::NameSet;
use crate::reachable::visit;
use lalrpop_base::first::FirstSets;
use lalrpop_base::memory::OutOfMemory;
use lalrpop_base::repr::grammar::Grammar;
use lalrpop_base::repr::{NonterminalString, Production, Symbol};
use lalrpop_collections::collections::walk::Walk;
use std::alloc::Global;

/// The nonterminals that derive themselves in at least one step. A walk over the nonterminals that one
/// derives alone is made only if it leads into a ring that is not known. `OutOfMemory` if an
/// allocation fails.
pub fn cyclic_names(alloc: Global, grammar: &Grammar) -> Result<NameSet, OutOfMemory>
    requires { IsWellFormed grammar.now }
    ensures cyclic { IfOk result (λ names. (a : NonterminalString) →
        Contains names.keys a ↔ IsCyclic (productions grammar.now) a) }
{
    let sets = FirstSets::new(alloc, grammar)?;
    let mut known = known_in_order(alloc, grammar, &sets)?;
    for (name, _entry) in grammar.nonterminals.iter() {
        decide(alloc, grammar, &sets, name, &mut known)?;
    }
    let Known { cyclic, .. } = known;
    Ok(cyclic)
}

// What is known after one nonterminal after another, so that most need no walk.
fn known_in_order(
    alloc: Global,
    grammar: &Grammar,
    sets: &FirstSets<'_>,
) -> Result<Known, OutOfMemory>
    requires well_formed { IsWellFormed grammar.now }
    requires sets { sets.now ≡ rules_of grammar.now }
    ensures { IfOk result (λ known. IsKnown grammar.now known) }
{
    let mut known = Known::new(alloc);
    let order = finished_names(alloc, grammar, sets)?;
    for name in &order {
        decide(alloc, grammar, sets, name, &mut known)?;
    }
    Ok(known)
}

// The nonterminals that a nonterminal derives alone.
fn derived_alone(
    alloc: Global,
    grammar: &Grammar,
    sets: &FirstSets<'_>,
    name: &NonterminalString,
) -> Result<NameSet, OutOfMemory>
    requires well_formed { IsWellFormed grammar.now }
    requires sets { sets.now ≡ rules_of grammar.now }
    ensures { IfOk result (λ names. (b : NonterminalString) →
        Contains names.keys b ↔ DerivesAlone (productions grammar.now) name.now b) }
{
    let mut walk = Walk::new(alloc);
    visit_right_sides(alloc, sets, grammar.productions_for(name), &mut walk)?;
    let _names = grammar.nonterminals.len();
    while let Some(next) = walk.waiting.pop_front() {
        visit_right_sides(alloc, sets, grammar.productions_for(&next), &mut walk)?;
    }
    let Walk { visited, .. } = walk;
    Ok(visited)
}

// Goes to the nonterminals of right sides around which all is nullable.
fn visit_right_sides(
    alloc: Global,
    sets: &FirstSets<'_>,
    productions: &[Production],
    walk: &mut Walk<NonterminalString>,
) -> Result<(), OutOfMemory>
    ensures { OnOk result
        (Visits (IsAloneOn sets.now.productions productions.now) walk.old walk.new) }
{
    for production in productions {
        visit_places(alloc, sets, production.symbols.as_slice(), walk)?;
    }
    Ok(())
}

// Goes to the nonterminals of some symbols around which all is nullable.
fn visit_places(
    alloc: Global,
    sets: &FirstSets<'_>,
    symbols: &[Symbol],
    walk: &mut Walk<NonterminalString>,
) -> Result<(), OutOfMemory>
    ensures { OnOk result (Visits (IsAlone sets.now.productions symbols.now) walk.old walk.new) }
{
    for place in 0..symbols.len() {
        visit_place(alloc, sets, symbols, place, walk)?;
    }
    Ok(())
}

// Goes to the symbol at a place, if it is a nonterminal and all around it is nullable.
fn visit_place(
    alloc: Global,
    sets: &FirstSets<'_>,
    symbols: &[Symbol],
    place: usize,
    walk: &mut Walk<NonterminalString>,
) -> Result<(), OutOfMemory>
    requires { place < length symbols.now }
    ensures { OnOk result
        (Visits (IsAloneAt sets.now.productions symbols.now place) walk.old walk.new) }
{
    let Symbol::Nonterminal(name) = &symbols[place] else {
        return Ok(());
    };
    if !are_nullable(sets, symbols_before(symbols, place)) {
        return Ok(());
    }
    if !are_nullable(sets, symbols_after(symbols, place)) {
        return Ok(());
    }
    visit(alloc, name, walk)?;
    Ok(())
}

// The symbols before a place.
fn symbols_before(symbols: &[Symbol], place: usize) -> &[Symbol]
    requires { place < length symbols.now }
    ensures { result.now ≡ take place symbols.now }
{
    &symbols[..place]
}

// The symbols after a place.
fn symbols_after(symbols: &[Symbol], place: usize) -> &[Symbol]
    requires { place < length symbols.now }
    ensures { result.now ≡ drop (place + 1) symbols.now }
{
    &symbols[place + 1..]
}

// Whether a list of symbols is nullable.
fn are_nullable(sets: &FirstSets<'_>, symbols: &[Symbol]) -> bool
    ensures { IsTrue result ↔ IsNullable sets.now.productions symbols.now }
{
    for symbol in symbols {
        if !is_nullable(sets, symbol) {
            return false;
        }
    }
    true
}

// Whether a symbol is nullable.
fn is_nullable(sets: &FirstSets<'_>, symbol: &Symbol) -> bool
    ensures { IsTrue result ↔ IsNullable sets.now.productions (symbol.now ∷ []) }
{
    match symbol {
        Symbol::Terminal(_) => false,
        Symbol::Nonterminal(name) => sets.is_nullable(name),
    }
}
