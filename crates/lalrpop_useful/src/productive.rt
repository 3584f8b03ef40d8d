//! The nonterminals that derive a list of terminals.
ghost use Rattle.std.specs.Prelude.{◌↔◌, IsTrue, IfOk, OnOk, Contains, map};
ghost use Rattle.std.specs.List.{flat_map};
ghost use Rattle.lalrpop_grammar.specs.grammars.WellFormed.{IsWellFormed, productions, productions_of};
ghost use Rattle.lalrpop_grammar.specs.declared.repr.NonterminalString.{NonterminalString};
ghost use Rattle.lalrpop_useful.specs.useful.Productive.{AreNonterminalsAmong, AreTried, IsProductive, IsTried};
ghost use Rattle.lalrpop_grammar.specs.grammars.Entries.{users_at};

use crate::names::{NameSet, all_productions};
use crate::reachable::visit;
use crate::users::{Users, users_of};
use lalrpop_base::memory::OutOfMemory;
use lalrpop_base::repr::grammar::Grammar;
use lalrpop_base::repr::{NonterminalString, Production, Symbol};
use lalrpop_collections::collections::sets::has_key;
use lalrpop_collections::collections::walk::Walk;
use std::alloc::Global;

/// The nonterminals that derive a list of terminals. A production is read once, and again for each
/// nonterminal of its right side that is found. `OutOfMemory` if an allocation fails.
pub fn productive(alloc: Global, grammar: &Grammar) -> Result<NameSet, OutOfMemory>
    requires { IsWellFormed grammar.now }
    ensures productive { IfOk result (λ names. (a : NonterminalString) →
        Contains names.keys a ↔ IsProductive (productions grammar.now) a) }
{
    let all = all_productions(alloc, grammar)?;
    let users = users_of(alloc, &all)?;
    let mut walk = Walk::new(alloc);
    let _names = grammar.nonterminals.len();
    try_all(alloc, &all, &mut walk)?;
    while let Some(name) = walk.waiting.pop_front() {
        try_users(alloc, grammar, &users, &name, &mut walk)?;
    }
    let Walk { visited, .. } = walk;
    Ok(visited)
}

// Tries each production of a list of references.
fn try_all(
    alloc: Global,
    all: &[&Production],
    walk: &mut Walk<NonterminalString>,
) -> Result<(), OutOfMemory>
    ensures { OnOk result (AreTried (map (λ p. p.now) all.now) walk.old walk.new) }
{
    for production in all {
        try_one(alloc, production, walk)?;
    }
    Ok(())
}

// Tries the productions of those that have a nonterminal on a right side.
fn try_users(
    alloc: Global,
    grammar: &Grammar,
    users: &Users,
    name: &NonterminalString,
    walk: &mut Walk<NonterminalString>,
) -> Result<(), OutOfMemory>
    ensures { OnOk result (AreTried
        (flat_map (productions_of grammar.now) (users_at users.now name.now)) walk.old walk.new) }
{
    match users.get(name) {
        Some(names) => try_names(alloc, grammar, names, walk),
        None => Ok(()), // it is on no right side
    }
}

// Tries the productions of some nonterminals.
fn try_names(
    alloc: Global,
    grammar: &Grammar,
    names: &NameSet,
    walk: &mut Walk<NonterminalString>,
) -> Result<(), OutOfMemory>
    ensures { OnOk result
        (AreTried (flat_map (productions_of grammar.now) names.now.keys) walk.old walk.new) }
{
    for name in names {
        try_each(alloc, grammar.productions_for(name), walk)?;
    }
    Ok(())
}

// Tries each of some productions.
fn try_each(
    alloc: Global,
    productions: &[Production],
    walk: &mut Walk<NonterminalString>,
) -> Result<(), OutOfMemory>
    ensures { OnOk result (AreTried productions.now walk.old walk.new) }
{
    for production in productions {
        try_one(alloc, production, walk)?;
    }
    Ok(())
}

// Goes to the nonterminal of a production, if the walk went to all those of its right side.
fn try_one(
    alloc: Global,
    production: &Production,
    walk: &mut Walk<NonterminalString>,
) -> Result<(), OutOfMemory>
    ensures { OnOk result (IsTried production.now walk.old walk.new) }
{
    if has_key(&walk.visited, &production.nonterminal) {
        return Ok(());
    }
    if !are_among(&walk.visited, production.symbols.as_slice()) {
        return Ok(());
    }
    visit(alloc, &production.nonterminal, walk)?;
    Ok(())
}

// Whether each nonterminal of the symbols is one of the names.
fn are_among(names: &NameSet, symbols: &[Symbol]) -> bool
    ensures { IsTrue result ↔ AreNonterminalsAmong names.now.keys symbols.now }
{
    for symbol in symbols {
        if let Symbol::Nonterminal(name) = symbol
            && !has_key(names, name)
        {
            return false;
        }
    }
    true
}
