//! Maps from small numbers to numbers of sets, for tables that are filled and emptied often.
ghost use Rattle.std.specs.Prelude.{◌≡◌, ◌<◌, ◌++◌, ◌∷◌, [], ℕ, IfOk, OnOk, IfSome, IsNone, Some, Contains, length, slice_get, IsPermutation};
ghost use Rattle.std.specs.Map.{keys_of};
ghost use Rattle.lalrpop_collections.specs.lists.Each.{Ordered};
ghost use Rattle.lalrpop_collections.specs.lists.Entries.{IsJoinedAt, readings};
ghost use Rattle.lalrpop_collections.specs.lists.Places.{AllDiffer};
ghost use Rattle.canonical_by_number.specs.TokenSets.{AreSetsIn, KeepsNumbers, set_at};

use crate::token_sets::TokenSets;
use lalrpop_base::memory::OutOfMemory;
use std::alloc::Global;
use std::marker::Model;
use std::mem::swap;

/// A map from numbers of symbols or of items to numbers of sets, as a sparse set of numbers with a
/// value for each.
///
/// `places` has an index into `entries` for each number up to the greatest one that was ever a key.
/// The index counts only if the entry there has the number. So `clear` leaves `places` as it is.
#[derive(Drop)]
pub struct NumberMap {
    places: Vec<usize>,
    entries: Vec<(usize, usize)>,
}

impl Model for NumberMap {
    ghost use Rattle.std.specs.Prelude.{List, ℕ};
    ghost use Rattle.lalrpop_collections.specs.lists.SparseMaps.{AreEntryPlaces};

    ghost Value = { List (ℕ × ℕ) };

    ghost view = { λ m. m.entries.items };

    ghost invariant = { λ m. AreEntryPlaces m.places.items m.entries.items };
}

impl NumberMap {
    /// A map without entries.
    pub fn new(alloc: Global) -> Self
        ensures { result ≡ [] }
    {
        NumberMap {
            places: Vec::new(alloc),
            entries: Vec::new(alloc),
        }
    }

    // The index of the entry of a number, if there is one.
    fn place_of(&self, number: usize) -> Option<usize>
        ensures found { IfSome result (λ place. (value : ℕ) ×
            (slice_get self.now place ≡ Some (number, value))) }
        ensures none { IsNone result → ¬ Contains (keys_of self.now) number }
    {
        if number >= self.places.len() {
            return None;
        }
        let place = self.places[number];
        if place < self.entries.len() && self.entries[place].0 == number {
            return Some(place);
        }
        None
    }

    /// The value of a number, if it has one.
    pub fn get(&self, number: usize) -> Option<usize>
        ensures found { IfSome result (λ value. Contains self.now (number, value)) }
        ensures none { IsNone result → ¬ Contains (keys_of self.now) number }
    {
        match self.place_of(number) {
            Some(place) => Some(self.entries[place].1),
            None => None,
        }
    }

    // Adds an entry after the others.
    fn push(&mut self, number: usize, value: usize) -> Result<(), OutOfMemory>
        requires { ¬ Contains (keys_of self.old) number }
        ensures pushed { OnOk result (self.new ≡ self.old ++ (number, value) ∷ []) }
        ensures differ { OnOk result (AllDiffer (keys_of self.new)) }
    {
        let count = number.checked_add(1).ok_or(OutOfMemory)?;
        if self.places.len() < count {
            self.places.resize(count, 0)?;
        }
        self.places[number] = self.entries.len();
        self.entries.push((number, value))?;
        Ok(())
    }

    /// Removes all entries.
    pub fn clear(&mut self)
        ensures { self.new ≡ [] }
    {
        self.entries.clear();
    }

    /// Adds the tokens of a set to those of a number. Returns whether the number is new or has more
    /// tokens than before. `OutOfMemory` if an allocation fails, or if there are too many sets.
    pub fn join(
        &mut self,
        alloc: Global,
        sets: &mut TokenSets,
        number: usize,
        tokens: usize,
    ) -> Result<bool, OutOfMemory>
        requires known { AreSetsIn sets.old self.old }
        requires within { tokens < length sets.old }
        ensures kept { OnOk result (KeepsNumbers sets.old sets.new) }
        ensures known { OnOk result (AreSetsIn sets.new self.new) }
        ensures joined { IfOk result (λ changed. IsJoinedAt number (set_at sets.old tokens) changed
            (readings (set_at sets.old) self.old) (readings (set_at sets.new) self.new)) }
        ensures differ { OnOk result (AllDiffer (keys_of self.new)) }
    {
        let Some(place) = self.place_of(number) else {
            self.push(number, tokens)?;
            return Ok(true);
        };
        let value = self.entries[place].1;
        let united = sets.union(alloc, value, tokens)?;
        self.entries[place].1 = united;
        Ok(united != value)
    }

    /// Removes all entries, and replaces the contents of `list` by them, by rising number. It takes
    /// linear time if the entries are a few rising lists, one after the other. `OutOfMemory` if an
    /// allocation fails.
    pub fn take_rising(&mut self, list: &mut Vec<(usize, usize)>) -> Result<(), OutOfMemory>
        ensures same { OnOk result (IsPermutation self.old list.new.items) }
        ensures rising { OnOk result
            (Ordered (λ (d e : ℕ × ℕ). d.0 < e.0) list.new.items) }
    {
        list.clear();
        swap(&mut self.entries, list);
        list.sort_by_key(|entry| entry.0)?;
        Ok(())
    }
}
