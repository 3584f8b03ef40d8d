//! Sets of tokens.
ghost use Rattle.std.specs.Prelude.{◌≡◌, ◌+◌, ◌<◌, ◌≤◌, ◌^◌, ◌==◌, ◌↔◌, ℕ, List, length, slice_index, IsTrue, IfOk, OnOk, OnErr, not, MatchBool, ◌≢◌, ◌&&◌, IsFalse, false, nat_lt, ⊤, refl};
ghost use Rattle.std.specs.Ordering.{nat_cmp, on, as_partial_cmp};
ghost use Rattle.std.specs.Cmp.{partial_order_from_own_ties};
ghost use Rattle.std.specs.Cmp.Rules.{comparing, hashing};
ghost use Rattle.std.specs.Cmp.Lexicographic.{slice_cmp};
ghost use Rattle.std.specs.Hash as fed;
ghost use Rattle.std.proofs.Common.{rules};
ghost use lib.Pointwise.{pointwise};
ghost use Rattle.lalrpop_collections.specs.lists.Bits.{no_bits, has, rising, with_bit, join, bits_exact};
ghost use Rattle.lalrpop_collections.specs.lists.BitVectors.{IsBitVector, bits_of_words, folded, bit_words};

use lalrpop_collections::bit_vector::bit_iter::BitIter;
use lalrpop_collections::bit_vector::word_changes::{
    join_words, meet_words, pad, put, take, trim, words_below,
};
use lalrpop_collections::bit_vector::words::{
    are_within, compare, fold_words, has_greater, has_number, share_number,
};
use lalrpop_collections::exact::Exact;
use lalrpop_collections::memory::OutOfMemory;
use std::alloc::Global;
use std::cmp::Ordering;
use std::fmt;
use std::hash::{Hash, Hasher};
use std::marker::Model;

/// A set of tokens, by their bits. Bit n of the set is bit n % 64 of word n / 64. The last word is
/// not 0.
#[derive(Drop)]
pub struct TokenSet {
    words: Vec<u64>,
}

impl Model for TokenSet {
    ghost use Rattle.std.specs.Coded.{coded_ℕ};
    ghost use base.Stored.{coded_unit};
    ghost use Rattle.std.specs.FinMap as finite;
    ghost use Rattle.lalrpop_collections.specs.lists.Bits.{Bits};
    ghost use Rattle.lalrpop_collections.specs.lists.BitVectors.{IsBitVector, bits_of_words};

    ghost Value = { Bits };

    ghost coded = { finite.code coded_ℕ coded_unit };

    ghost view = { λ s. bits_of_words s.words.items };

    ghost invariant = { λ s. IsBitVector s.words.items };
}

impl TokenSet {
    /// A set without bits.
    pub fn empty_set(alloc: Global) -> TokenSet
        ensures { result ≡ no_bits }
    {
        TokenSet {
            words: Vec::new(alloc),
        }
    }

    // The words of the set, of 64 bits each.
    fn words(&self) -> &[u64]
        ensures view { bits_of_words result.now ≡ self.now }
        ensures is { IsBitVector result.now }
    {
        &self.words
    }

    /// An iterator over the bits of the set, in ascending order.
    pub fn bits(&self) -> BitIter<'_>
        ensures items { result ≡ rising self.now }
        ensures small { length result ≤ 2 ^ 63 }
    {
        BitIter::new(self.words())
    }

    /// Whether a bit is in the set.
    pub fn contains_bit(&self, bit: usize) -> bool
        ensures has { result ≡ has self.now bit }
        ensures small { IsTrue result → bit < 2 ^ 63 }
    {
        has_number(self.words(), bit)
    }

    /// Whether the set has a bit greater than `bit`.
    pub fn has_greater_bit(&self, bit: usize) -> bool
        ensures yes { IsTrue result → (q : ℕ) × (bit < q) × IsTrue (has self.now q) }
        ensures no { IsFalse result → (q : ℕ) → bit < q → has self.now q ≡ false }
    {
        has_greater(self.words(), bit)
    }

    /// Adds a bit, and returns whether the set grew.
    pub fn insert_bit(&mut self, bit: usize) -> Result<bool, OutOfMemory>
        requires { bit < 2 ^ 63 }
        ensures inserted { OnOk result (self.new ≡ with_bit self.old bit) }
        ensures grew { IfOk result (λ grew. grew ≡ not (has self.old bit)) }
        ensures told { IfOk result
            (λ grew. MatchBool grew (self.new ≢ self.old) (self.new ≡ self.old)) }
        ensures err { OnErr result (self.new ≡ self.old) }
    {
        if self.contains_bit(bit) {
            return Ok(false);
        }
        pad(&mut self.words, bit / 64 + 1)?;
        put(&mut self.words, bit);
        Ok(true)
    }

    /// Removes a bit, and returns whether it was in the set.
    pub fn take_bit(&mut self, bit: usize) -> bool
        ensures was { result ≡ has self.old bit }
        ensures left { (q : ℕ) → has self.new q ≡ (has self.old q && not (q == bit)) }
    {
        if !self.contains_bit(bit) {
            return false;
        }
        take(&mut self.words, bit);
        trim(&mut self.words);
        true
    }

    /// Adds the bits of another set, and returns whether this set grew.
    pub fn union_with(&mut self, other: &TokenSet) -> Result<bool, OutOfMemory>
        ensures joined { OnOk result (self.new ≡ join self.old other.now) }
        ensures told { IfOk result
            (λ grew. MatchBool grew (self.new ≢ self.old) (self.new ≡ self.old)) }
        ensures err { OnErr result (self.new ≡ self.old) }
    {
        pad(&mut self.words, other.words.len())?;
        Ok(join_words(&mut self.words, &other.words))
    }

    /// The set of the bits that are in both sets.
    pub fn intersection(&self, alloc: Global, other: &TokenSet) -> Result<TokenSet, OutOfMemory>
        ensures { IfOk result (λ both. (q : ℕ) → has both q ≡ (has self.now q && has other.now q)) }
    {
        let mut words = meet_words(alloc, self.words(), other.words())?;
        trim(&mut words);
        Ok(TokenSet { words })
    }

    /// Whether no bit is in both sets.
    pub fn is_disjoint(&self, other: &TokenSet) -> bool
        ensures yes { IsTrue result →
            (bit : ℕ) →
            IsTrue (has self.now bit) →
            IsTrue (has other.now bit) →
            ⊥ }
        ensures no { IsFalse result →
            (bit : ℕ) × IsTrue (has self.now bit) × IsTrue (has other.now bit) }
    {
        !share_number(self.words(), other.words())
    }

    /// Whether a bit is in both sets.
    pub fn is_intersecting(&self, other: &TokenSet) -> bool
        ensures yes { IsTrue result →
            (bit : ℕ) × IsTrue (has self.now bit) × IsTrue (has other.now bit) }
        ensures no { IsFalse result →
            (bit : ℕ) →
            IsTrue (has self.now bit) →
            IsTrue (has other.now bit) →
            ⊥ }
    {
        !self.is_disjoint(other)
    }

    /// Whether each bit of this set is in another set, too.
    pub fn is_subset(&self, other: &TokenSet) -> bool
        ensures yes { IsTrue result →
            (bit : ℕ) →
            IsTrue (has self.now bit) →
            IsTrue (has other.now bit) }
        ensures no { IsFalse result →
            (bit : ℕ) × IsTrue (has self.now bit) × (has other.now bit ≡ false) }
    {
        are_within(self.words(), other.words())
    }

    /// Makes room for `len / 64 + 1` more words of 64 bits.
    pub fn reserve(&mut self, len: usize) -> Result<(), OutOfMemory>
        ensures { self.new ≡ self.old }
    {
        self.words.reserve(len / 64 + 1)?;
        Ok(())
    }

    /// A copy of the set.
    pub fn clone(&self, alloc: Global) -> Result<TokenSet, OutOfMemory>
        ensures { IfOk result (λ copy. copy ≡ self.now) }
    {
        Ok(TokenSet {
            words: Vec::from_slice(alloc, &self.words)?,
        })
    }

    /// The set of one bit.
    pub fn single(alloc: Global, bit: usize) -> Result<TokenSet, OutOfMemory>
        requires { bit < 2 ^ 63 }
        ensures { IfOk result (λ set. set ≡ with_bit no_bits bit) }
    {
        let mut set = TokenSet::empty_set(alloc);
        set.insert_bit(bit)?;
        Ok(set)
    }

    /// The set of the bits below `count`.
    pub fn below(alloc: Global, count: usize) -> Result<TokenSet, OutOfMemory>
        requires { count ≤ 2 ^ 63 }
        ensures { IfOk result (λ set. (bit : ℕ) → has set bit ≡ nat_lt bit count) }
    {
        Ok(TokenSet {
            words: words_below(alloc, count)?,
        })
    }
}

impl PartialEq for TokenSet {
    ghost eq = { on rising (pointwise ◌==◌) };

    ghost laws = { Prim.search (comparing, rules) };

    fn eq(&self, other: &TokenSet) -> bool {
        self.words() == other.words()
    }
}

impl Eq for TokenSet {
    ghost laws = { Prim.search (comparing, rules) };
}

impl Exact for TokenSet {
    ghost exact = { bits_exact };
}

impl Ord for TokenSet {
    ghost cmp = { on rising (slice_cmp nat_cmp) };

    ghost total = { Prim.search (comparing, rules) };

    ghost matches_partial_cmp = { Prim.search (comparing, rules) };

    ghost matches_eq = { Prim.search (comparing, rules) };

    fn cmp(&self, other: &TokenSet) -> Ordering {
        compare(self.words(), other.words())
    }
}

impl PartialOrd for TokenSet {
    ghost partial_cmp = { as_partial_cmp (on rising (slice_cmp nat_cmp)) };

    ghost laws = { partial_order_from_own_ties (Prim.search (comparing, rules))
        (Prim.search (comparing, rules)) };

    fn partial_cmp(&self, other: &TokenSet) -> Option<Ordering> {
        Some(self.cmp(other))
    }
}

impl Hash for TokenSet {
    ghost hash_input = { λ s. fed.u64 (folded (bit_words (rising s))) };

    ghost respects_eq = { Prim.search (hashing, rules) };

    fn hash<H: Hasher>(&self, state: &mut H) {
        fold_words(self.words()).hash(state);
    }
}

impl fmt::Debug for TokenSet {
    fn fmt<W: fmt::Write>(&self, f: &mut fmt::Formatter<W>) -> fmt::Result {
        f.debug_list().entries(self.bits()).finish()
    }
}
