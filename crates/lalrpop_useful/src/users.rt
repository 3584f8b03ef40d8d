//! The nonterminals on whose right sides a nonterminal is.
ghost use Rattle.std.specs.Prelude.{◌∷◌, [], IfOk, OnOk, map};
ghost use Rattle.lalrpop_useful.specs.useful.Productive.{AddsUser, HasUsers};

use crate::names::NameSet;
use lalrpop_base::memory::OutOfMemory;
use lalrpop_base::repr::{NonterminalString, Production, Symbol};
use lalrpop_collections::collections::multimap::Multimap;
use std::alloc::Global;

// Under a nonterminal, those that have it on a right side.
pub(crate) type Users = Multimap<NonterminalString, NameSet>;

// The users of all nonterminals by some productions.
pub(crate) fn users_of(alloc: Global, all: &[&Production]) -> Result<Users, OutOfMemory>
    ensures { IfOk result (HasUsers (map (λ p. p.now) all.now)) }
{
    let mut users = Multimap::new(alloc);
    for production in all {
        let symbols = production.symbols.as_slice();
        add_user(alloc, &production.nonterminal, symbols, &mut users)?;
    }
    Ok(users)
}

// Puts a user under the nonterminals of some symbols.
fn add_user(
    alloc: Global,
    user: &NonterminalString,
    symbols: &[Symbol],
    users: &mut Users,
) -> Result<(), OutOfMemory>
    ensures { OnOk result (AddsUser user.now symbols.now users.old users.new) }
{
    for symbol in symbols {
        add_under(alloc, user, symbol, users)?;
    }
    Ok(())
}

// Puts a user under a symbol, if it is a nonterminal.
fn add_under(
    alloc: Global,
    user: &NonterminalString,
    symbol: &Symbol,
    users: &mut Users,
) -> Result<(), OutOfMemory>
    ensures { OnOk result (AddsUser user.now (symbol.now ∷ []) users.old users.new) }
{
    let Symbol::Nonterminal(name) = symbol else {
        return Ok(());
    };
    Multimap::push(users, name.clone(alloc)?, user.clone(alloc)?)?;
    Ok(())
}
