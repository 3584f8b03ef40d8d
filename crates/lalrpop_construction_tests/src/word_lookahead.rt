//! A lookahead of a user's own: sets of tokens whose bits are below 64, as the bits of one word.
mod build;
mod conflicts;

ghost use Rattle.std.specs.Prelude.{◌≡◌, ◌==◌, ◌<◌, ◌^◌, bit_or, bit_and, IsTrue, refl};
ghost use Rattle.std.proofs.Common.{ap, ◌∙◌, eqb-true};
ghost use Rattle.lalrpop_base.specs.Words.{no_bits};
ghost use Rattle.lalrpop_construction_tests.specs.WordConflicts.{word_conflicts};
ghost use Rattle.lalrpop_construction_tests.specs.Words.{bits_of_word, holds_bit, same_word, word-zero, word-or};

use lalrpop_base::collections::Collection;
use lalrpop_base::lookahead::Lookahead;
use lalrpop_base::lr1_core::state::{Conflict, State};
use lalrpop_base::memory::OutOfMemory;
use lalrpop_base::repr::terminals::TerminalSet;
use std::alloc::Global;
use std::fmt;

/// A set of tokens whose bits are below 64.
#[derive(Clone, Copy, Debug, PartialEq, Eq, PartialOrd, Ord, Hash)]
pub struct Word {
    pub bits: u64,
}

impl Word {
    /// Whether the token with the bit is in the set.
    pub fn holds(self, bit: usize) -> bool
        ensures holds { result ≡ holds_bit self.bits bit }
        ensures low { IsTrue result → bit < 64 }
    {
        if bit >= 64 {
            return false;
        }
        (self.bits >> bit) & 1 == 1
    }

    /// The set of the token with the bit.
    pub fn single(bit: usize) -> Word
        requires { bit < 64 }
        ensures { result.bits ≡ 2 ^ bit }
    {
        Word { bits: 1 << bit }
    }

    /// The tokens that are in both sets.
    pub fn intersection(self, other: Word) -> Word
        ensures { result.bits ≡ bit_and self.bits other.bits }
    {
        Word {
            bits: self.bits & other.bits,
        }
    }
}

impl Collection for Word {
    type Item = Word;

    ghost same = { λ a b. b ≡ a };

    ghost is_empty = { λ w. w.bits ≡ 0 };

    ghost pushes = { λ a item b. b.bits ≡ bit_or a.bits item.bits };

    fn empty(_alloc: Global) -> Word {
        Word { bits: 0 }
    }

    fn push(&mut self, item: Word) -> Result<bool, OutOfMemory> {
        let old = self.bits;
        let new = old | item.bits;
        self.bits = new;
        Ok(new != old)
    }

    ghost same_itself = { λ _. refl };
}

impl Lookahead for Word {
    ghost meaning = { λ w. bits_of_word w.bits };

    fn copy(&self, _alloc: Global) -> Result<Word, OutOfMemory> {
        Ok(*self)
    }

    fn fmt_as_item_suffix<W: fmt::Write>(&self, f: &mut fmt::Formatter<W>) -> fmt::Result {
        write!(f, " {self:?}")
    }

    ghost lists_conflicts = { λ s terminals list. list ≡ word_conflicts terminals s };

    fn conflicts<'grammar>(
        alloc: Global,
        state: &State<'grammar, Word>,
        terminals: &TerminalSet,
    ) -> Result<Vec<Conflict<'grammar, Word>>, OutOfMemory> {
        conflicts::conflicts(alloc, state, terminals)
    }

    ghost equal_is_same = { λ a b h. ap (λ n. record { bits = n }) (eqb-true a.bits b.bits h) };

    ghost same_by_meaning = { λ a b e. ap (λ n. record { bits = n }) (same_word a.bits b.bits e) };

    ghost reads_all = { λ a b. (λ e. e, λ e. e) };

    ghost empty_is_empty = { λ w e. ap bits_of_word e ∙ word-zero };

    ghost push_is_join = { λ a b c e. ap bits_of_word e ∙ word-or a.bits b.bits };
}
