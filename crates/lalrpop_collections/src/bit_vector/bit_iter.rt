//! The iterator over the numbers of a bit vector.
ghost use Rattle.std.specs.Prelude.{◌≡◌, ◌*◌, ◌≤◌, ℕ, List, length};
ghost use Rattle.std.specs.Iterator.{YieldsFirst, item_count};
ghost use Rattle.lalrpop_collections.specs.lists.BitVectors.{members_from, IsBitVector};

use super::words::least_from;
use std::marker::Model;

/// An iterator over the numbers of a bit vector, in ascending order. Clauses see it as the list of
/// the numbers that it has not yet returned.
#[derive(Drop)]
pub struct BitIter<'words> {
    words: &'words [u64],
    first: usize,
}

impl<'words> Model for BitIter<'words> {
    ghost use Rattle.std.specs.Prelude.{◌*◌, ◌^◌, ◌≤◌, ℕ, List, length};
    ghost use Rattle.lalrpop_collections.specs.lists.BitVectors.{members_from};

    ghost Value = { List ℕ };

    ghost view = { λ i. members_from i.words.now i.first };

    ghost invariant = { λ i.
        (i.first ≤ 64 * length i.words.now) × (length i.words.now ≤ 2 ^ 57) };
}

impl<'words> BitIter<'words> {
    /// An iterator over all numbers of a bit vector.
    pub fn new(words: &'words [u64]) -> BitIter<'words>
        requires { IsBitVector words.now }
        ensures { result ≡ members_from words.now 0 }
    {
        BitIter { words, first: 0 }
    }
}

impl<'words> Iterator for BitIter<'words> {
    type Item = usize;

    ghost next_gives = { YieldsFirst (λ (numbers : List ℕ). numbers) };

    ghost remaining = { item_count (λ (numbers : List ℕ). numbers) };

    fn next(&mut self) -> Option<usize> {
        let number = least_from(self.words, self.first)?;
        self.first = number + 1;
        Some(number)
    }
}
