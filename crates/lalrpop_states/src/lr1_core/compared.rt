//! The order of items: by production, then by the index of the dot, then by lookahead. Equality and
//! hashing agree with it.
ghost use Rattle.std.specs.Prelude.{◌≡◌, ◌==◌, ◌&&◌, ◌++◌};
ghost use Rattle.std.specs.Ordering.{on, then_cmp, nat_cmp, eq_of_both, partial_ordering_then, as_partial_cmp};
ghost use Rattle.std.specs.Cmp.Rules.{comparing, hashing};
ghost use Rattle.std.specs.Cmp.{unsigned_ties, partial_order_from_own_ties, partial_order_from_agreeing_total};
ghost use Rattle.std.proofs.Common.{rules};
ghost use Rattle.std.specs.Hash as fed;
ghost use Rattle.lalrpop_collections.specs.lists.Ties.{ties_then};
ghost use Rattle.lalrpop_grammar.specs.contracts.repr.ProductionPartialEq.TheImpl.Laws as production_partial_eq;
ghost use Rattle.lalrpop_grammar.specs.contracts.repr.ProductionEq.TheImpl.Laws as production_eq;
ghost use Rattle.lalrpop_grammar.specs.contracts.repr.ProductionOrd.TheImpl.Laws as production_ord;
ghost use Rattle.lalrpop_grammar.specs.contracts.repr.ProductionHash.TheImpl.Laws as production_hash;

use super::item::Item;
use lalrpop_grammar::repr::Production;
use std::cmp::Ordering;
use std::hash::{Hash, Hasher};

impl<'grammar, L: PartialEq> PartialEq for Item<'grammar, L> {
    ghost eq = { eq_of_both (on (λ i. i.production) ⟦<Production as PartialEq>⟧.eq)
        (eq_of_both (on (λ i. i.index) ◌==◌) (on (λ i. i.lookahead) L.eq)) };

    ghost laws = { Prim.search (comparing, rules, production_partial_eq.laws-law) };

    fn eq(&self, other: &Self) -> bool {
        *self.production == *other.production
            && self.index == other.index
            && self.lookahead == other.lookahead
    }
}

impl<'grammar, L: Eq> Eq for Item<'grammar, L> {
    ghost laws = { Prim.search (comparing, rules, production_eq.laws-law) };
}

impl<'grammar, L: Ord> Ord for Item<'grammar, L> {
    ghost cmp = { then_cmp (on (λ i. i.production) ⟦<Production as Ord>⟧.cmp)
        (then_cmp (on (λ i. i.index) nat_cmp) (on (λ i. i.lookahead) L.cmp)) };

    ghost total = { Prim.search (comparing, rules, production_ord.total-law) };

    ghost matches_partial_cmp = { Prim.search (comparing, rules) };

    ghost matches_eq = { ties_then (on (λ i. i.production) ⟦<Production as PartialEq>⟧.eq)
        (eq_of_both (on (λ i. i.index) ◌==◌) (on (λ i. i.lookahead) L.eq))
        (on (λ i. i.production) ⟦<Production as Ord>⟧.cmp)
        (then_cmp (on (λ i. i.index) nat_cmp) (on (λ i. i.lookahead) L.cmp))
        (λ x y. production_ord.matches_eq-law x.production y.production) (ties_then
        (on (λ i. i.index) ◌==◌) (on (λ i. i.lookahead) L.eq) (on (λ i. i.index) nat_cmp)
        (on (λ i. i.lookahead) L.cmp) (λ x y. unsigned_ties x.index y.index)
        (λ x y. L.matches_eq x.lookahead y.lookahead)) };

    fn cmp(&self, other: &Self) -> Ordering {
        self.production
            .cmp(other.production)
            .then(self.index.cmp(&other.index))
            .then(self.lookahead.cmp(&other.lookahead))
    }
}

impl<'grammar, L: Ord> PartialOrd for Item<'grammar, L> {
    ghost partial_cmp = { as_partial_cmp (then_cmp
        (on (λ i. i.production) ⟦<Production as Ord>⟧.cmp)
        (then_cmp (on (λ i. i.index) nat_cmp) (on (λ i. i.lookahead) L.cmp))) };

    ghost laws = { partial_order_from_own_ties
        (Prim.search (comparing, rules, production_ord.total-law)) (ties_then
        (on (λ i. i.production) ⟦<Production as PartialEq>⟧.eq)
        (eq_of_both (on (λ i. i.index) ◌==◌) (on (λ i. i.lookahead) L.eq))
        (on (λ i. i.production) ⟦<Production as Ord>⟧.cmp)
        (then_cmp (on (λ i. i.index) nat_cmp) (on (λ i. i.lookahead) L.cmp))
        (λ x y. production_ord.matches_eq-law x.production y.production) (ties_then
        (on (λ i. i.index) ◌==◌) (on (λ i. i.lookahead) L.eq) (on (λ i. i.index) nat_cmp)
        (on (λ i. i.lookahead) L.cmp) (λ x y. unsigned_ties x.index y.index)
        (λ x y. L.matches_eq x.lookahead y.lookahead))) };

    fn partial_cmp(&self, other: &Self) -> Option<Ordering> {
        Some(self.cmp(other))
    }
}

impl<'grammar, L: Hash> Hash for Item<'grammar, L> {
    ghost hash_input = { λ i. ⟦<Production as Hash>⟧.hash_input i.production ++ fed.usize i.index ++
        L.hash_input i.lookahead };

    ghost respects_eq = { Prim.search (hashing, rules, production_hash.respects_eq-law) depth 9 };

    fn hash<H: Hasher>(&self, state: &mut H) {
        self.production.hash(state);
        self.index.hash(state);
        self.lookahead.hash(state);
    }
}
