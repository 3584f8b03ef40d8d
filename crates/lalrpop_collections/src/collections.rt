//! Collections, into which items are pushed: lists, sets, maps of collections, and `()`, which
//! keeps nothing.
pub mod multimap;
pub mod queue;
pub mod sets;
pub mod walk;

ghost use Rattle.std.specs.Prelude.{◌≡◌, ◌++◌, ◌∷◌, [], false, MatchBool, IfOk, OnErr, List, ⊤, refl};
ghost use Rattle.std.specs.declared.vec.Vec.{Vec};
ghost use Rattle.std.specs.declared.cmp.Ordering.TheVariants.{Equal};
ghost use Rattle.std.specs.BTreeSet.{insert_key};

use crate::memory::OutOfMemory;
use std::alloc::Global;
use std::collections::{BTreeMap, BTreeSet};

/// A map whose keys are kept in order.
pub type Map<K, V> = BTreeMap<K, V>;

/// A set whose values are kept in order.
pub type Set<T> = BTreeSet<T>;

/// A collection, into which items can be pushed.
pub trait Collection {
    type Item;

    // Two collections have the same contents.
    ghost same: { Self → Self → Type 0 };

    // A collection has no items.
    ghost is_empty: { Self → Type 0 };

    // The second collection is the first one with the item pushed.
    ghost pushes: { Self → Self.Item → Self → Type 0 };

    /// A collection without items.
    fn empty(alloc: Global) -> Self
        ensures { is_empty result };

    /// Pushes an item, and returns whether the collection changed.
    fn push(&mut self, item: Self::Item) -> Result<bool, OutOfMemory>
        ensures pushed { IfOk result (λ _. pushes self.old item self.new) }
        ensures told { IfOk result
            (λ changed. MatchBool changed (¬ same self.old self.new) (same self.old self.new)) }
        ensures err { OnErr result (same self.old self.new) };

    ghost same_itself: { (a : Self) → same a a };
}

impl Collection for () {
    type Item = ();

    ghost same = { λ _ _. ⊤ };

    ghost is_empty = { λ _. ⊤ };

    ghost pushes = { λ _ _ _. ⊤ };

    fn empty(_alloc: Global) {}

    fn push(&mut self, _item: ()) -> Result<bool, OutOfMemory> {
        Ok(false)
    }

    ghost same_itself = { λ _. tt };
}

impl<T: Drop> Collection for Vec<T> {
    type Item = T;

    ghost same = { λ v w. w.items ≡ v.items };

    ghost is_empty = { λ v. v.items ≡ [] };

    ghost pushes = { λ v item w. w.items ≡ v.items ++ item ∷ [] };

    fn empty(alloc: Global) -> Vec<T> {
        Vec::new(alloc)
    }

    fn push(&mut self, item: T) -> Result<bool, OutOfMemory> {
        Vec::push(self, item)?;
        Ok(true)
    }

    ghost same_itself = { λ _. refl };
}

impl<T: Ord + Drop> Collection for BTreeSet<T> {
    type Item = T;

    ghost same = { λ s t. t.keys ≡ s.keys };

    ghost is_empty = { λ s. s.keys ≡ [] };

    ghost pushes = { λ s item t. t.keys ≡ insert_key T.cmp s.keys item };

    fn empty(alloc: Global) -> BTreeSet<T> {
        BTreeSet::new(alloc)
    }

    fn push(&mut self, item: T) -> Result<bool, OutOfMemory> {
        Ok(self.insert(item)?)
    }

    ghost same_itself = { λ _. refl };
}

/// Pushes two equal values into a set. The result is `false`, since the second push changes
/// nothing.
pub fn push_twice<T: Ord + Drop>(set: &mut Set<T>, item: T, again: T) -> Result<bool, OutOfMemory>
    requires { T.cmp item again ≡ Equal }
    ensures { IfOk result (λ changed. changed ≡ false) }
{
    Collection::push(set, item)?;
    Collection::push(set, again)
}
