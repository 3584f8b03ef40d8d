//! A binary search.
ghost use Rattle.std.specs.Prelude.{◌≡◌, Contains, IfSome, IsNone, Some, slice_get};
ghost use Rattle.lalrpop_states.specs.Words.{Dotted};
ghost use Rattle.lalrpop_states.specs.declared.lookahead.nil.Nil.{Nil};
ghost use Rattle.lalrpop_states.specs.grammars.Ascending.{Ascend};

use lalrpop_grammar::repr::Production;
use lalrpop_states::lr1_core::item::Lr0Item;
use std::cmp::Ordering;

/// The place of some dotted production of a production. The dotted productions of one production
/// are next to each other, so the search ends at the first one that it reaches.
pub(super) fn place_of_production<'grammar>(
    items: &[Lr0Item<'grammar>],
    production: &Production,
) -> Option<usize>
    requires { Ascend items.now }
    ensures found { IfSome result (λ place. (i : Dotted Nil) ×
        (slice_get items.now place ≡ Some i) × (i.production ≡ production.now)) }
    ensures none { IsNone result →
        (i : Dotted Nil) → Contains items.now i → ¬ (i.production ≡ production.now) }
{
    let mut low = 0;
    let mut high = items.len();
    while low < high {
        let middle = low + (high - low) / 2;
        let met = &items[middle];
        match met.production.cmp(production) {
            Ordering::Less => low = middle + 1,
            Ordering::Greater => high = middle,
            Ordering::Equal => return Some(middle),
        }
    }
    None
}
