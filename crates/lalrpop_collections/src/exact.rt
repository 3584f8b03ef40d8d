//! Types whose `==` is `true` only for values that clauses see as equal.
ghost use Rattle.std.specs.Prelude.{◌≡◌, ◌↔◌, IsTrue, IfSome, IsNone, Contains};
ghost use Rattle.lalrpop_collections.specs.lists.Places.{IsFirstPlace};
ghost use Rattle.std.proofs.Common.{eqb-true};
ghost use Rattle.lalrpop_collections.specs.lists.Exact.{Exactly, text_exact, list_exact};

use crate::sequence::Sequence;
use crate::text::Text;

/// A type whose `==` is `true` for equal values only.
pub trait Exact: Eq {
    ghost exact: { Exactly Self.eq };
}

impl Exact for usize {
    ghost exact = { eqb-true };
}

impl Exact for Text {
    ghost exact = { text_exact };
}

impl<T: Exact> Exact for Sequence<T> {
    ghost exact = { list_exact T.exact };
}

/// Whether two values are equal, by `==`.
pub fn equal<T: Exact>(a: &T, b: &T) -> bool
    ensures { IsTrue result ↔ (a.now ≡ b.now) }
{
    a == b
}

/// The first place of a value in a list: the index of the first equal entry.
pub fn place_of<T: Exact>(items: &[T], item: &T) -> Option<usize>
    ensures found { IfSome result (λ place. IsFirstPlace items.now item.now place) }
    ensures absent { IsNone result → ¬ Contains items.now item.now }
{
    for (place, x) in items.iter().enumerate() {
        if equal(x, item) {
            return Some(place);
        }
    }
    None
}

/// Whether a value is in a list.
pub fn contains<T: Exact>(items: &[T], item: &T) -> bool
    ensures { IsTrue result ↔ Contains items.now item.now }
{
    place_of(items, item).is_some()
}
