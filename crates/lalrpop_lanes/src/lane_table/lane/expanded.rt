//! Nonterminals that are expanded in states. A trace steps back alike from the starts of all
//! productions of one nonterminal in a state.
ghost use Rattle.std.specs.Prelude.{◌≡◌, ◌==◌, ◌&&◌};
ghost use Rattle.std.specs.Ordering.{on, then_cmp, nat_cmp, eq_of_both, as_partial_cmp};
ghost use Rattle.std.specs.Cmp.Rules.{comparing};
ghost use Rattle.std.specs.Cmp.{unsigned_ties, partial_order_from_own_ties};
ghost use Rattle.std.proofs.Common.{rules};
ghost use Rattle.lalrpop_collections.specs.lists.Ties.{ties_then};
ghost use Rattle.lalrpop_grammar.specs.contracts.repr.NonterminalStringPartialEq.TheImpl.Laws as name_partial_eq;
ghost use Rattle.lalrpop_grammar.specs.contracts.repr.NonterminalStringEq.TheImpl.Laws as name_eq;
ghost use Rattle.lalrpop_grammar.specs.contracts.repr.NonterminalStringOrd.TheImpl.Laws as name_ord;
ghost use Rattle.lalrpop_lanes.specs.lanes.Expanded.{expanded_exact};

use lalrpop_base::exact::Exact;
use lalrpop_base::lr1_core::place::Place;
use lalrpop_base::repr::NonterminalString;
use std::cmp::Ordering;
use std::marker::Model;

/// A nonterminal that is expanded in a state.
#[derive(Drop)]
pub(crate) struct Expanded<'grammar> {
    state: usize,
    name: &'grammar NonterminalString,
}

impl<'grammar> Model for Expanded<'grammar> {
    ghost use Rattle.std.specs.Prelude.{ℕ};
    ghost use Rattle.lalrpop_grammar.specs.declared.repr.NonterminalString.{NonterminalString};

    ghost Value = { ℕ × NonterminalString };

    ghost view = { λ e. (e.state, e.name.now) };
}

impl<'grammar> Expanded<'grammar> {
    /// The nonterminal of a place's production, in the state of the place.
    pub(crate) fn at(place: &Place<'grammar>) -> Expanded<'grammar>
        ensures { result ≡ (place.now.state, place.now.item.production.nonterminal) }
    {
        Expanded {
            state: place.state,
            name: place.name(),
        }
    }
}

impl<'grammar> PartialEq for Expanded<'grammar> {
    ghost eq = { eq_of_both (on (λ e. e.0) ◌==◌)
        (on (λ e. e.1) ⟦<NonterminalString as PartialEq>⟧.eq) };

    ghost laws = { Prim.search (comparing, rules, name_partial_eq.laws-law) };

    fn eq(&self, other: &Self) -> bool {
        self.state == other.state && *self.name == *other.name
    }
}

impl<'grammar> Eq for Expanded<'grammar> {
    ghost laws = { Prim.search (comparing, rules, name_eq.laws-law) };
}

impl<'grammar> Ord for Expanded<'grammar> {
    ghost cmp = { then_cmp (on (λ e. e.0) nat_cmp)
        (on (λ e. e.1) ⟦<NonterminalString as Ord>⟧.cmp) };

    ghost total = { Prim.search (comparing, rules, name_ord.total-law) };

    ghost matches_partial_cmp = { Prim.search (comparing, rules) };

    ghost matches_eq = { ties_then (on (λ e. e.0) ◌==◌)
        (on (λ e. e.1) ⟦<NonterminalString as PartialEq>⟧.eq) (on (λ e. e.0) nat_cmp)
        (on (λ e. e.1) ⟦<NonterminalString as Ord>⟧.cmp) (λ x y. unsigned_ties x.0 y.0)
        (λ x y. name_ord.matches_eq-law x.1 y.1) };

    fn cmp(&self, other: &Self) -> Ordering {
        self.state.cmp(&other.state).then(self.name.cmp(other.name))
    }
}

impl<'grammar> PartialOrd for Expanded<'grammar> {
    ghost partial_cmp = { as_partial_cmp (then_cmp (on (λ e. e.0) nat_cmp)
        (on (λ e. e.1) ⟦<NonterminalString as Ord>⟧.cmp)) };

    ghost laws = { partial_order_from_own_ties
        (Prim.search (comparing, rules, name_ord.total-law)) (ties_then (on (λ e. e.0) ◌==◌)
        (on (λ e. e.1) ⟦<NonterminalString as PartialEq>⟧.eq) (on (λ e. e.0) nat_cmp)
        (on (λ e. e.1) ⟦<NonterminalString as Ord>⟧.cmp) (λ x y. unsigned_ties x.0 y.0)
        (λ x y. name_ord.matches_eq-law x.1 y.1)) };

    fn partial_cmp(&self, other: &Self) -> Option<Ordering> {
        Some(self.cmp(other))
    }
}

impl<'grammar> Exact for Expanded<'grammar> {
    ghost exact = { expanded_exact };
}
