//! Maps from small numbers to values, for tables that are filled and emptied often.
ghost use Rattle.std.specs.Prelude.{◌≡◌, ◌≢◌, ◌<◌, ◌++◌, ◌∷◌, [], ℕ, IfOk, OnOk, IfSome, IsNone, Some, Contains, MatchBool, slice_get, IsPermutation};
ghost use Rattle.std.specs.Map.{keys_of};
ghost use Rattle.lalrpop_collections.specs.lists.Each.{Ordered};
ghost use Rattle.lalrpop_collections.specs.lists.Bits.{join as joined};
ghost use Rattle.lalrpop_collections.specs.lists.Entries.{IsJoinedAt, IsPushedAt, readings};
ghost use Rattle.lalrpop_collections.specs.lists.Places.{AllDiffer};

use crate::lookahead::{Lookahead, join};
use lalrpop_collections::memory::OutOfMemory;
use lalrpop_collections::sequence::Sequence;
use std::alloc::Global;
use std::marker::Model;
use std::mem::replace;

/// A map from numbers to values, as a sparse set of numbers with a value for each.
///
/// `places` has an index into `entries` for each number up to the greatest one that was ever a key.
/// The index counts only if the entry there has the number. So `clear` leaves `places` as it is,
/// and takes time linear in the number of entries.
#[derive(Drop)]
pub struct SparseMap<V> {
    places: Vec<usize>,
    entries: Vec<(usize, V)>,
}

impl<V> Model for SparseMap<V> {
    ghost use Rattle.std.specs.Prelude.{List, ℕ};
    ghost use Rattle.lalrpop_collections.specs.lists.SparseMaps.{AreEntryPlaces};

    ghost Value = { List (ℕ × V) };

    ghost view = { λ m. m.entries.items };

    ghost invariant = { λ m. AreEntryPlaces m.places.items m.entries.items };
}

impl<V> SparseMap<V> {
    /// A map without entries.
    pub fn new(alloc: Global) -> Self
        ensures { result ≡ [] }
    {
        SparseMap {
            places: Vec::new(alloc),
            entries: Vec::new(alloc),
        }
    }

    /// The entries: numbers with their values, in the order in which the numbers were added.
    pub fn entries(&self) -> &[(usize, V)]
        ensures { result.now ≡ self.now }
    {
        &self.entries
    }

    // The index of the entry of a number, if there is one.
    fn place_of(&self, number: usize) -> Option<usize>
        ensures found { IfSome result (λ place. (value : V) ×
            (slice_get self.now place ≡ Some (number, value))) }
        ensures none { IsNone result → ¬ Contains (keys_of self.now) number }
    {
        if number >= self.places.len() {
            return None;
        }
        let place = self.places[number];
        if place < self.entries.len() && self.entries[place].0 == number {
            return Some(place);
        }
        None
    }

    /// The value of a number, if it has one.
    pub fn get(&self, number: usize) -> Option<&V>
        ensures found { IfSome result (λ value. Contains self.now (number, value.now)) }
        ensures none { IsNone result → ¬ Contains (keys_of self.now) number }
        ensures differ { AllDiffer (keys_of self.now) }
    {
        match self.place_of(number) {
            Some(place) => Some(&self.entries[place].1),
            None => None,
        }
    }

    // Adds an entry after the others.
    fn push(&mut self, number: usize, value: V) -> Result<(), OutOfMemory>
    where
        V: Drop,
        requires { ¬ Contains (keys_of self.old) number }
        ensures pushed { OnOk result (self.new ≡ self.old ++ (number, value) ∷ []) }
        ensures differ { OnOk result (AllDiffer (keys_of self.new)) }
    {
        let count = number.checked_add(1).ok_or(OutOfMemory)?;
        if self.places.len() < count {
            self.places.resize(count, 0)?;
        }
        self.places[number] = self.entries.len();
        self.entries.push((number, value))?;
        Ok(())
    }

    /// Removes all entries.
    pub fn clear(&mut self)
    where
        V: Drop,
        ensures { self.new ≡ [] }
    {
        self.entries.clear();
    }

    /// Removes all entries, and returns them in the order in which their numbers were added. The
    /// map then has room for as many entries; `OutOfMemory` if allocating that room fails.
    pub fn take_all(&mut self, alloc: Global) -> Result<Vec<(usize, V)>, OutOfMemory>
        ensures same { IfOk result (λ list. list.items ≡ self.old) }
        ensures differ { IfOk result (λ list. AllDiffer (keys_of list.items)) }
        ensures empty { OnOk result (self.new ≡ []) }
    {
        let room = Vec::with_capacity(alloc, self.entries.len())?;
        Ok(replace(&mut self.entries, room))
    }

    /// Removes all entries, and returns them by rising number. Fails as `take_all` does.
    pub fn take_rising(&mut self, alloc: Global) -> Result<Vec<(usize, V)>, OutOfMemory>
        ensures same { IfOk result (λ list. IsPermutation self.old list.items) }
        ensures rising { IfOk result
            (λ list. Ordered (λ (d e : ℕ × V). d.0 < e.0) list.items) }
        ensures empty { OnOk result (self.new ≡ []) }
    {
        let mut entries = self.take_all(alloc)?;
        entries.sort_unstable_by_key(|entry| entry.0);
        Ok(entries)
    }
}

// Adds tokens to `into`, and returns whether `into` changed.
fn join_own<L: Lookahead>(into: &mut L, tokens: L) -> Result<bool, OutOfMemory>
    ensures joined { OnOk result
        (L.meaning into.new ≡ joined (L.meaning into.old) (L.meaning tokens)) }
    ensures told { IfOk result
        (λ changed. MatchBool changed (into.new ≢ into.old) (into.new ≡ into.old)) }
{
    into.push(tokens)
}

impl<L: Lookahead> SparseMap<L> {
    /// Adds tokens to those of a number. Returns whether the number is new or has more tokens than
    /// before; `OutOfMemory` if an allocation fails.
    pub fn join(&mut self, number: usize, tokens: L) -> Result<bool, OutOfMemory>
        ensures joined { IfOk result (λ changed. IsJoinedAt number (L.meaning tokens) changed
            (readings L.meaning self.old) (readings L.meaning self.new)) }
        ensures differ { OnOk result (AllDiffer (keys_of self.new)) }
    {
        if let Some(place) = self.place_of(number) {
            return join_own(&mut self.entries[place].1, tokens);
        }
        self.push(number, tokens)?;
        Ok(true)
    }

    /// Does the same as `join` with borrowed tokens, which it copies if the number is new.
    pub fn join_copy(
        &mut self,
        alloc: Global,
        number: usize,
        tokens: &L,
    ) -> Result<bool, OutOfMemory>
        ensures joined { IfOk result (λ changed. IsJoinedAt number (L.meaning tokens.now) changed
            (readings L.meaning self.old) (readings L.meaning self.new)) }
        ensures differ { OnOk result (AllDiffer (keys_of self.new)) }
    {
        if let Some(place) = self.place_of(number) {
            return join(alloc, &mut self.entries[place].1, tokens);
        }
        self.push(number, tokens.copy(alloc)?)?;
        Ok(true)
    }
}

impl<T: Drop> SparseMap<Sequence<T>> {
    /// Adds an item after those of a number. `OutOfMemory` if an allocation fails.
    pub fn push_at(&mut self, alloc: Global, number: usize, item: T) -> Result<(), OutOfMemory>
        ensures pushed { OnOk result (IsPushedAt number item self.old self.new) }
        ensures differ { OnOk result (AllDiffer (keys_of self.new)) }
    {
        if let Some(place) = self.place_of(number) {
            self.entries[place].1.push(item)?;
            return Ok(());
        }
        let mut items = Sequence::with_capacity(alloc, 1)?;
        items.push(item)?;
        self.push(number, items)
    }
}
