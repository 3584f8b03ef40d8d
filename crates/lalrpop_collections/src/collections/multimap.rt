//! A map from keys to collections. Clauses see it as the list of its entries.
ghost use Rattle.std.specs.Prelude.{◌≡◌, [], List, IfOk, OnOk, OnErr, ◌↔◌, IsTrue, MatchBool, option_copied, None, false};
ghost use Rattle.std.specs.Ordering.{is_eq};
ghost use Rattle.std.specs.Iterator.{IsFinite, Drains};
ghost use Rattle.std.specs.List.Sorted.{IsStrictlySortedBy};
ghost use Rattle.std.specs.Map.{keys_of};
ghost use Rattle.lalrpop_collections.specs.lists.Multimaps.{collection_at, PushesAt, SameAt, AreSame, at_itself, IsCollectionOf, values_at};

pub use crate::collections::{Collection, Map, Set};
use crate::memory::OutOfMemory;
use std::alloc::Global;
use std::collections::{BTreeMap, btree_map};
use std::fmt;
use std::marker::Model;

/// A map whose values are collections.
#[derive(Drop)]
pub struct Multimap<K: Ord, C> {
    map: BTreeMap<K, C>,
    alloc: Global,
}

impl<K: Ord, C> Model for Multimap<K, C> {
    ghost use Rattle.std.specs.Prelude.{List};

    ghost Value = { List (K × C) };

    ghost view = { λ m. m.map.entries };
}

impl<K: Ord + fmt::Debug, C: fmt::Debug> fmt::Debug for Multimap<K, C> {
    fn fmt<W: fmt::Write>(&self, f: &mut fmt::Formatter<W>) -> fmt::Result {
        fmt::Debug::fmt(&self.map, f)
    }
}

impl<K: Ord + Drop, C: Collection + Drop> Multimap<K, C> {
    /// A map without keys.
    pub fn new(alloc: Global) -> Self
        ensures { result ≡ [] }
    {
        Multimap {
            map: BTreeMap::new(alloc),
            alloc,
        }
    }

    /// Whether the map has no keys.
    pub fn is_empty(&self) -> bool
        ensures { IsTrue result ↔ (self.now ≡ []) }
    {
        self.map.is_empty()
    }

    /// The collection of a key, or `None` if no value was pushed for the key.
    pub fn get(&self, key: &K) -> Option<&C>
        ensures { option_copied result ≡ collection_at K.cmp self.now key.now }
    {
        self.map.get(key)
    }

    /// An iterator over the keys and their collections, in ascending order of the keys.
    pub fn iter(&self) -> btree_map::Iter<'_, K, C>
        ensures entries { result ≡ self.now }
        ensures rising { IsStrictlySortedBy K.cmp (keys_of self.now) }
    {
        self.map.iter()
    }

    /// An iterator that takes the keys and their collections out, in ascending order of the keys.
    pub fn into_iter(self) -> btree_map::IntoIter<K, C>
        ensures entries { result ≡ self }
        ensures rising { IsStrictlySortedBy K.cmp (keys_of self) }
    {
        let Multimap { map, .. } = self;
        map.into_iter()
    }

    /// Pushes a value into the collection of a key, and returns whether the map changed. The
    /// collection of a new key is empty before the push. A new key is a change.
    pub fn push(&mut self, key: K, value: C::Item) -> Result<bool, OutOfMemory>
        ensures pushed { OnOk result (PushesAt C.is_empty C.pushes
            (collection_at K.cmp self.old key) value (collection_at K.cmp self.new key)) }
        ensures others { (q : K) →
            is_eq (K.cmp key q) ≡ false →
            collection_at K.cmp self.new q ≡ collection_at K.cmp self.old q }
        ensures told { IfOk result (λ changed. MatchBool changed
            (¬ SameAt C.same (collection_at K.cmp self.old key) (collection_at K.cmp self.new key))
            (SameAt C.same (collection_at K.cmp self.old key) (collection_at K.cmp self.new key))) }
        ensures err { OnErr result
            (SameAt C.same (collection_at K.cmp self.old key) (collection_at K.cmp self.new key)) }
        ensures fresh { collection_at K.cmp self.old key ≡ None →
            IfOk result (λ changed. IsTrue changed) }
        ensures no_key { collection_at K.cmp self.old key ≡ None →
            OnErr result (self.new ≡ self.old) }
    {
        if let Some(collection) = self.map.get_mut(&key) {
            return collection.push(value);
        }
        let mut collection = C::empty(self.alloc);
        collection.push(value)?;
        self.map.insert(key, collection)?;
        Ok(true)
    }

    /// A map into which the pairs were pushed, in their order.
    pub fn from_pairs<I: Iterator<Item = (K, C::Item)> + Drop>(
        alloc: Global,
        pairs: I,
    ) -> Result<Self, OutOfMemory>
        requires can { I.can_next pairs }
        requires finite { IsFinite (I.remaining pairs) }
        ensures { IfOk result (λ map. (given : List (K × C.Item)) × Drains I.next_gives pairs given
            × ((q : K) → IsCollectionOf C.is_empty C.pushes (values_at K.cmp q given)
            (collection_at K.cmp map q))) }
    {
        let mut map = Multimap::new(alloc);
        for (key, value) in pairs {
            Multimap::push(&mut map, key, value)?;
        }
        Ok(map)
    }
}

impl<K: Ord + Drop, C: Collection + Drop> Collection for Multimap<K, C> {
    type Item = (K, C::Item);

    ghost same = { AreSame K.cmp C.same };

    ghost is_empty = { λ m. m ≡ [] };

    ghost pushes = { λ m item n.
        PushesAt C.is_empty C.pushes
        (collection_at K.cmp m item.0) item.1 (collection_at K.cmp n item.0)
        × ((q : K) → is_eq (K.cmp item.0 q) ≡ false →
        collection_at K.cmp n q ≡ collection_at K.cmp m q) };

    fn empty(alloc: Global) -> Self {
        Multimap::new(alloc)
    }

    fn push(&mut self, item: (K, C::Item)) -> Result<bool, OutOfMemory> {
        let (key, value) = item;
        Multimap::push(self, key, value)
    }

    ghost same_itself = { λ m q. at_itself C.same C.same_itself (collection_at K.cmp m q) };
}

impl<K: Ord + Drop, C: Collection + Drop> IntoIterator for Multimap<K, C> {
    type Item = (K, C);

    type IntoIter = btree_map::IntoIter<K, C>;

    ghost into_iter_gives = { λ m it. (it ≡ m) × IsStrictlySortedBy K.cmp (keys_of m) };

    fn into_iter(self) -> btree_map::IntoIter<K, C> {
        Multimap::into_iter(self)
    }
}

impl<'a, K: Ord + Drop, C: Collection + Drop> IntoIterator for &'a Multimap<K, C> {
    type Item = (&'a K, &'a C);

    type IntoIter = btree_map::Iter<'a, K, C>;

    ghost into_iter_gives = { λ m it. (it ≡ m.now) × IsStrictlySortedBy K.cmp (keys_of m.now) };

    fn into_iter(self) -> btree_map::Iter<'a, K, C> {
        self.iter()
    }
}
