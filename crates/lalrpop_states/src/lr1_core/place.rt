//! Places: dotted productions in states.
ghost use Rattle.std.specs.Prelude.{◌≡◌, ◌<◌, ◌-◌, ◌↔◌, IsTrue};
ghost use Rattle.lalrpop_states.specs.check.CheckCarrying.{at_place};

use crate::lookahead::nil::Nil;
use crate::lr1_core::item::{Item, Lr0Item};
use lalrpop_collections::exact::Exact;
use lalrpop_grammar::repr::NonterminalString;

/// A dotted production in the state with a number.
#[derive(Drop, PartialEq, Eq, PartialOrd, Ord)]
pub struct Place<'grammar> {
    pub state: usize,
    pub item: Lr0Item<'grammar>,
}

impl<'grammar> Exact for Place<'grammar> {
    ghost use Rattle.lalrpop_states.specs.check.CheckPlaces.{place_exact};
    ghost use Rattle.lalrpop_states.specs.states.Items.{dotted_exact};
    ghost use Rattle.lalrpop_grammar.specs.contracts.repr.exact.ProductionExact.TheImpl.Laws.{exact-law as production_exact};
    ghost use Rattle.lalrpop_states.specs.contracts.lookahead.nil.NilExact.TheImpl.Laws.{exact-law as nil_exact};

    ghost exact = { place_exact _ (dotted_exact _ _ production_exact nil_exact) };
}

impl<'grammar> Place<'grammar> {
    /// An equal place.
    pub fn copy(&self) -> Place<'grammar>
        ensures { result ≡ self.now }
    {
        Place {
            state: self.state,
            item: self.item.to_lr0(),
        }
    }

    /// Whether the dot is past the start.
    pub fn is_past_start(&self) -> bool
        ensures { IsTrue result ↔ (0 < self.now.item.index) }
    {
        self.item.index > 0
    }

    /// The nonterminal on the left side of the production.
    pub fn name(&self) -> &'grammar NonterminalString
        ensures { result.now ≡ self.now.item.production.nonterminal }
    {
        let production = self.item.production;
        &production.nonterminal
    }

    /// The place in the given state with the same production and the dot one symbol to the left.
    pub fn back_in(&self, state: usize) -> Place<'grammar>
        requires { 0 < self.now.item.index }
        ensures { result ≡ at_place state self.now.item.production (self.now.item.index - 1) }
    {
        let item = Item {
            production: self.item.production,
            index: self.item.index - 1,
            lookahead: Nil,
        };
        Place { state, item }
    }
}
