//! The nonterminals that the start symbol leads to.
ghost use Rattle.std.specs.Prelude.{◌≡◌, ◌↔◌, IfOk, OnOk, Contains};
ghost use Rattle.lalrpop_collections.specs.lists.Walks.{Visits};
ghost use Rattle.lalrpop_grammar.specs.grammars.WellFormed.{IsWellFormed, productions};
ghost use Rattle.lalrpop_grammar.specs.declared.repr.NonterminalString.{NonterminalString};
ghost use Rattle.lalrpop_grammar.specs.declared.repr.Symbol.TheVariants.{Nonterminal};
ghost use Rattle.lalrpop_useful.specs.useful.Reachable.{IsOnRightSide, IsReachable};

use crate::names::NameSet;
use lalrpop_base::memory::OutOfMemory;
use lalrpop_base::repr::grammar::Grammar;
use lalrpop_base::repr::{NonterminalString, Production, Symbol};
use lalrpop_collections::collections::sets::has_key;
use lalrpop_collections::collections::walk::Walk;
use std::alloc::Global;

/// The nonterminals of the lists that the start symbol derives, with the start symbol itself. Names
/// without a production are among them. `OutOfMemory` if an allocation fails.
pub fn reachable(
    alloc: Global,
    grammar: &Grammar,
    start: &NonterminalString,
) -> Result<NameSet, OutOfMemory>
    requires { IsWellFormed grammar.now }
    ensures reachable { IfOk result (λ names. (a : NonterminalString) →
        Contains names.keys a ↔ IsReachable (productions grammar.now) start.now a) }
{
    let mut walk = Walk::new(alloc);
    visit(alloc, start, &mut walk)?;
    let _names = grammar.nonterminals.len();
    while let Some(name) = walk.waiting.pop_front() {
        visit_right_sides(alloc, grammar.productions_for(&name), &mut walk)?;
    }
    let Walk { visited, .. } = walk;
    Ok(visited)
}

// Goes to the nonterminals of right sides.
fn visit_right_sides(
    alloc: Global,
    productions: &[Production],
    walk: &mut Walk<NonterminalString>,
) -> Result<(), OutOfMemory>
    ensures { OnOk result (Visits (IsOnRightSide productions.now) walk.old walk.new) }
{
    for production in productions {
        visit_symbols(alloc, production.symbols.as_slice(), walk)?;
    }
    Ok(())
}

// Goes to the nonterminals of some symbols.
fn visit_symbols(
    alloc: Global,
    symbols: &[Symbol],
    walk: &mut Walk<NonterminalString>,
) -> Result<(), OutOfMemory>
    ensures { OnOk result (Visits (λ a. Contains symbols.now (Nonterminal a)) walk.old walk.new) }
{
    for symbol in symbols {
        visit_symbol(alloc, symbol, walk)?;
    }
    Ok(())
}

// Goes to a symbol, if it is a nonterminal.
fn visit_symbol(
    alloc: Global,
    symbol: &Symbol,
    walk: &mut Walk<NonterminalString>,
) -> Result<(), OutOfMemory>
    ensures { OnOk result (Visits (λ a. symbol.now ≡ Nonterminal a) walk.old walk.new) }
{
    let Symbol::Nonterminal(name) = symbol else {
        return Ok(());
    };
    visit(alloc, name, walk)?;
    Ok(())
}

// Goes to a nonterminal, which is copied if it is new.
pub(crate) fn visit(
    alloc: Global,
    name: &NonterminalString,
    walk: &mut Walk<NonterminalString>,
) -> Result<(), OutOfMemory>
    ensures { OnOk result (Visits (λ a. name.now ≡ a) walk.old walk.new) }
{
    if has_key(&walk.visited, name) {
        return Ok(());
    }
    walk.visit(name.clone(alloc)?, name.clone(alloc)?)?;
    Ok(())
}
