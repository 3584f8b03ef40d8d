//! The nonterminals that mention those that are to be inlined.
ghost use Rattle.std.specs.Prelude.{◌↔◌, IsTrue, OnOk, IfOk, Contains};
ghost use Rattle.lalrpop_grammar.specs.declared.repr.NonterminalString.{NonterminalString};
ghost use Rattle.lalrpop_grammar.specs.declared.repr.Symbol.TheVariants.{Nonterminal};
ghost use Rattle.lalrpop_grammar.specs.declared.repr.Production.{Production};
ghost use Rattle.lalrpop_inline.specs.inlining.InlineOrder.{IsMarked};
ghost use Rattle.lalrpop_inline.specs.inlining.InlineUsers.{KeepsUsers, HasUsersOfMarked};
ghost use Rattle.lalrpop_grammar.specs.grammars.Entries.{users_at};

use super::graph::is_marked;
use lalrpop_base::collections::Set;
use lalrpop_base::collections::multimap::Multimap;
use lalrpop_base::memory::OutOfMemory;
use lalrpop_base::repr::grammar::Grammar;
use lalrpop_base::repr::{NonterminalString, Production, Symbol};
use std::alloc::Global;

/// For the name of a nonterminal, the names of those that mention it.
pub type Users = Multimap<NonterminalString, Set<NonterminalString>>;

// Whether a nonterminal is marked.
fn has_mark(grammar: &Grammar, name: &NonterminalString) -> bool
    ensures { IsTrue result ↔ IsMarked grammar.now name.now }
{
    match grammar.nonterminals.get(name) {
        Some(entry) => is_marked(&entry.attributes),
        None => false,
    }
}

// Puts a user under a nonterminal, if that one is marked.
fn add_user(
    alloc: Global,
    grammar: &Grammar,
    user: &NonterminalString,
    name: &NonterminalString,
    users: &mut Users,
) -> Result<(), OutOfMemory>
    ensures added { OnOk result
        (IsMarked grammar.now name.now → Contains (users_at users.new name.now) user.now) }
    ensures kept { OnOk result (KeepsUsers users.old users.new) }
{
    if has_mark(grammar, name) {
        Multimap::push(users, name.clone(alloc)?, user.clone(alloc)?)?;
    }
    Ok(())
}

// Puts a user under the marked nonterminals among symbols.
fn add_to_symbols(
    alloc: Global,
    grammar: &Grammar,
    user: &NonterminalString,
    symbols: &[Symbol],
    users: &mut Users,
) -> Result<(), OutOfMemory>
    ensures added { OnOk result ((c : NonterminalString) →
        IsMarked grammar.now c →
        Contains symbols.now (Nonterminal c) →
        Contains (users_at users.new c) user.now) }
    ensures kept { OnOk result (KeepsUsers users.old users.new) }
{
    for symbol in symbols {
        if let Symbol::Nonterminal(name) = symbol {
            add_user(alloc, grammar, user, name, users)?;
        }
    }
    Ok(())
}

// Puts a user under the marked nonterminals that productions mention.
fn add_to_mentioned(
    alloc: Global,
    grammar: &Grammar,
    user: &NonterminalString,
    productions: &[Production],
    users: &mut Users,
) -> Result<(), OutOfMemory>
    ensures added { OnOk result ((c : NonterminalString) (p : Production) →
        IsMarked grammar.now c →
        Contains productions.now p →
        Contains p.symbols (Nonterminal c) →
        Contains (users_at users.new c) user.now) }
    ensures kept { OnOk result (KeepsUsers users.old users.new) }
{
    for production in productions {
        add_to_symbols(alloc, grammar, user, production.symbols.as_slice(), users)?;
    }
    Ok(())
}

/// For each marked nonterminal, the nonterminals that mention it. The error is `OutOfMemory` if an
/// allocation fails.
pub fn users_of(alloc: Global, grammar: &Grammar) -> Result<Users, OutOfMemory>
    ensures { IfOk result (HasUsersOfMarked grammar.now) }
{
    let mut users = Multimap::new(alloc);
    for (name, entry) in grammar.nonterminals.iter() {
        add_to_mentioned(alloc, grammar, name, &entry.productions, &mut users)?;
    }
    Ok(users)
}
