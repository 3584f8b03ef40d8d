//! Token sets that all differ, with their numbers.
ghost use Rattle.std.specs.Prelude.{◌≡◌, ◌∷◌, [], OnOk};
ghost use Rattle.lalrpop_base.specs.Words.{AllDiffer};
ghost use Rattle.table_data.specs.Sets.{AddsSets, number_of};

use lalrpop_base::lookahead::token_set::TokenSet;
use lalrpop_base::memory::OutOfMemory;
use std::alloc::Global;
use std::collections::BTreeMap;
use std::marker::Model;

/// Token sets that all differ. The number of a set is its index.
#[derive(Drop)]
pub(crate) struct TokenSets {
    list: Vec<TokenSet>,
    numbers: BTreeMap<TokenSet, usize>,
}

impl Model for TokenSets {
    ghost use Rattle.std.specs.Prelude.{List};
    ghost use Rattle.std.specs.Coded.{coded_list, coded_ℕ};
    ghost use base.Stored.{coded_unit};
    ghost use Rattle.std.specs.FinMap as finite;
    ghost use Rattle.lalrpop_base.specs.Words.{Bits};
    ghost use Rattle.table_data.specs.Sets.{AreNumbered};

    ghost Value = { List Bits };

    ghost coded = { coded_list (finite.code coded_ℕ coded_unit) };

    ghost view = { λ s. s.list.items };

    ghost invariant = { λ s. AreNumbered s.list.items s.numbers };
}

impl TokenSets {
    /// No token sets.
    pub(crate) fn new(alloc: Global) -> TokenSets
        ensures { result ≡ [] }
    {
        TokenSets {
            list: Vec::new(alloc),
            numbers: BTreeMap::new(alloc),
        }
    }

    /// The sets, in the order of their numbers.
    pub(crate) fn as_slice(&self) -> &[TokenSet]
        ensures sets { result.now ≡ self.now }
        ensures differ { AllDiffer self.now }
    {
        self.list.as_slice()
    }

    /// Adds a copy of a set with the next number, if the set has no number. `OutOfMemory` if an
    /// allocation fails.
    pub(crate) fn add(&mut self, alloc: Global, set: &TokenSet) -> Result<(), OutOfMemory>
        ensures { OnOk result (AddsSets (set.now ∷ []) self.old self.new) }
    {
        if self.numbers.contains_key(set) {
            return Ok(());
        }
        let number = self.list.len();
        let key = set.clone(alloc)?;
        let copy = set.clone(alloc)?;
        self.list.reserve(1)?;
        self.numbers.insert(key, number)?;
        self.list.push(copy).unwrap();
        Ok(())
    }

    /// The number of a set, or the number of all sets if it is none of them.
    pub(crate) fn number_of(&self, set: &TokenSet) -> usize
        ensures { result ≡ number_of self.now set.now }
    {
        match self.numbers.get(set) {
            Some(number) => *number,
            None => self.list.len(),
        }
    }
}
