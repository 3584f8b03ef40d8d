//! The nonterminals that have no production.
ghost use Rattle.std.specs.Prelude.{◌≡◌, ◌↔◌, ◌∷◌, [], IfOk, OnOk, IsTrue, Contains};
ghost use Rattle.lalrpop_collections.specs.lists.Places.{AllDiffer};
ghost use Rattle.lalrpop_grammar.specs.grammars.WellFormed.{IsWellFormed, productions};
ghost use Rattle.lalrpop_grammar.specs.declared.repr.NonterminalString.{NonterminalString};
ghost use Rattle.lalrpop_grammar.specs.declared.repr.Production.{Production};
ghost use Rattle.lalrpop_useful.specs.useful.Undefined.{AddsUndefined, IsFirstUse, IsUndefined, names_of};
ghost use Rattle.lalrpop_useful.specs.useful.Reachable.{HasProduction};

use crate::names::all_productions;
use lalrpop_base::exact::equal;
use lalrpop_base::memory::OutOfMemory;
use lalrpop_base::repr::grammar::Grammar;
use lalrpop_base::repr::{NonterminalString, Production, Symbol};
use std::alloc::Global;
use std::marker::Model;

/// A nonterminal without a production, and the first production whose right side has it. Clauses
/// see it as the pair of both.
#[derive(Drop)]
pub struct Undefined<'grammar> {
    name: &'grammar NonterminalString,
    user: &'grammar Production,
}

impl<'grammar> Model for Undefined<'grammar> {
    ghost use Rattle.lalrpop_grammar.specs.declared.repr.NonterminalString.{NonterminalString};
    ghost use Rattle.lalrpop_grammar.specs.declared.repr.Production.{Production};

    ghost Value = { NonterminalString × Production };

    ghost view = { λ u. (u.name.now, u.user.now) };
}

impl<'grammar> Undefined<'grammar> {
    /// The nonterminal.
    pub fn name(&self) -> &'grammar NonterminalString
        ensures name { result.now ≡ self.now.0 }
    {
        self.name
    }

    /// The first production whose right side has the nonterminal.
    pub fn user(&self) -> &'grammar Production
        ensures user { result.now ≡ self.now.1 }
    {
        self.user
    }
}

/// The nonterminals of right sides that have no production, each with its first use, in the order
/// of these. `OutOfMemory` if an allocation fails.
pub fn undefined_names<'grammar>(
    alloc: Global,
    grammar: &'grammar Grammar,
) -> Result<Vec<Undefined<'grammar>>, OutOfMemory>
    requires { IsWellFormed grammar.now }
    ensures undefined { IfOk result (λ uses. (a : NonterminalString) →
        Contains (names_of uses.items) a ↔ IsUndefined (productions grammar.now) a) }
    ensures first { IfOk result (λ uses. (a : NonterminalString) (p : Production) →
        Contains uses.items (a, p) →
        IsFirstUse (productions grammar.now) a p) }
    ensures once { IfOk result (λ uses. AllDiffer (names_of uses.items)) }
{
    let all = all_productions(alloc, grammar)?;
    let mut uses = Vec::new(alloc);
    let _names = grammar.nonterminals.len();
    for production in &all {
        add_uses(
            grammar,
            production,
            production.symbols.as_slice(),
            &mut uses,
        )?;
    }
    Ok(uses)
}

// Adds the undefined nonterminals of some symbols of a production.
fn add_uses<'grammar>(
    grammar: &'grammar Grammar,
    production: &'grammar Production,
    symbols: &'grammar [Symbol],
    uses: &mut Vec<Undefined<'grammar>>,
) -> Result<(), OutOfMemory>
    requires { IsWellFormed grammar.now }
    ensures { OnOk result (AddsUndefined (productions grammar.now) production.now symbols.now
        uses.old.items uses.new.items) }
{
    for symbol in symbols {
        add_use(grammar, production, symbol, uses)?;
    }
    Ok(())
}

// Adds a symbol of a production, if it is an undefined nonterminal that is not listed yet.
fn add_use<'grammar>(
    grammar: &'grammar Grammar,
    production: &'grammar Production,
    symbol: &'grammar Symbol,
    uses: &mut Vec<Undefined<'grammar>>,
) -> Result<(), OutOfMemory>
    requires { IsWellFormed grammar.now }
    ensures { OnOk result (AddsUndefined (productions grammar.now) production.now (symbol.now ∷ [])
        uses.old.items uses.new.items) }
{
    let Symbol::Nonterminal(name) = symbol else {
        return Ok(());
    };
    if has_production(grammar, name) {
        return Ok(());
    }
    if is_listed(uses, name) {
        return Ok(());
    }
    uses.push(Undefined {
        name,
        user: production,
    })?;
    Ok(())
}

// Whether a nonterminal has a production.
fn has_production(grammar: &Grammar, name: &NonterminalString) -> bool
    requires { IsWellFormed grammar.now }
    ensures { IsTrue result ↔ HasProduction (productions grammar.now) name.now }
{
    let _names = grammar.nonterminals.len();
    !grammar.productions_for(name).is_empty()
}

// Whether a nonterminal is listed.
fn is_listed(uses: &[Undefined<'_>], name: &NonterminalString) -> bool
    ensures { IsTrue result ↔ Contains (names_of uses.now) name.now }
{
    for listed in uses {
        if equal(listed.name(), name) {
            return true;
        }
    }
    false
}
