//! Distinct sets of tokens, each with a number.
ghost use Rattle.std.specs.Prelude.{◌≡◌, ◌+◌, ◌*◌, ◌<◌, ◌≤◌, [], length, slice_get, Some, IfOk, OnOk};
ghost use Rattle.lalrpop_collections.specs.lists.Bits.{join};
ghost use Rattle.lalrpop_collections.specs.lists.Places.{AllDiffer};
ghost use Rattle.lalrpop_states.specs.conflicts.StateConflicts.{share};
ghost use Rattle.canonical_by_number.specs.TokenSets.{KeepsNumbers, pair_of, set_at};

use indexmap::{IndexMap, IndexSet};
use lalrpop_base::lookahead::token_set::TokenSet;
use lalrpop_base::memory::OutOfMemory;
use std::alloc::Global;
use std::marker::Model;

/// Distinct sets of tokens. The number of a set is its index in the order in which the sets were
/// added. No set is removed, so each number keeps its set.
///
/// There are at most 2 to the power of 32 sets, so a number has 32 bits. `unions` has the number of
/// the union of two sets, by the pair of their numbers. So a union is computed once, and is later
/// found by the two numbers.
#[derive(Drop)]
pub struct TokenSets {
    list: IndexSet<TokenSet>,
    unions: IndexMap<u64, usize>,
}

impl Model for TokenSets {
    ghost use Rattle.std.specs.Coded.{coded_list, coded_ℕ};
    ghost use Rattle.std.specs.FinMap as finite;
    ghost use Rattle.std.specs.Prelude.{List, nat_eq};
    ghost use base.Stored.{coded_unit};
    ghost use Rattle.indexmap.specs.IndexMap.{get};
    ghost use Rattle.lalrpop_collections.specs.lists.Bits.{Bits};
    ghost use Rattle.canonical_by_number.specs.TokenSets.{AreRemembered};

    ghost Value = { List Bits };

    ghost coded = { coded_list (finite.code coded_ℕ coded_unit) };

    ghost view = { λ s. s.list.keys };

    ghost invariant = { λ s. AreRemembered s.list.keys (get nat_eq s.unions) };
}

/// Two numbers below 2 to the power of 32 as one number.
pub fn pair_of(first: usize, second: usize) -> u64
    requires first { first < 4294967296 }
    requires second { second < 4294967296 }
    ensures { result ≡ pair_of first second }
{
    first as u64 * 4294967296 + second as u64
}

impl TokenSets {
    /// No sets.
    pub fn new(alloc: Global) -> Self
        ensures { result ≡ [] }
    {
        TokenSets {
            list: IndexSet::new(alloc),
            unions: IndexMap::new(alloc),
        }
    }

    /// The number of sets.
    pub fn len(&self) -> usize
        ensures len { result ≡ length self.now }
        ensures few { length self.now ≤ 4294967296 }
        ensures differ { AllDiffer self.now }
    {
        self.list.len()
    }

    /// The set with the number.
    pub fn set(&self, number: usize) -> &TokenSet
        requires { number < length self.now }
        ensures { slice_get self.now number ≡ Some result.now }
    {
        &self.list.as_slice()[number]
    }

    /// Whether two sets share a token.
    pub fn share(&self, first: usize, second: usize) -> bool
        requires first { first < length self.now }
        requires second { second < length self.now }
        ensures { result ≡ share (set_at self.now first) (set_at self.now second) }
    {
        self.set(first).is_intersecting(self.set(second))
    }

    /// Adds the set, unless an equal one is there, and returns its number. `OutOfMemory` if an
    /// allocation fails, or if there are 2 to the power of 32 sets.
    pub fn number_of(&mut self, set: TokenSet) -> Result<usize, OutOfMemory>
        ensures number { IfOk result (λ number. slice_get self.new number ≡ Some set) }
        ensures kept { OnOk result (KeepsNumbers self.old self.new) }
        ensures differ { OnOk result (AllDiffer self.new) }
        ensures few { OnOk result (length self.new ≤ 4294967296) }
    {
        let number = add_set(&mut self.list, set)?;
        Ok(number)
    }

    /// The number of the union of two sets, which is added if it is new. `OutOfMemory` if an
    /// allocation fails, or if there are 2 to the power of 32 sets.
    pub fn union(
        &mut self,
        alloc: Global,
        first: usize,
        second: usize,
    ) -> Result<usize, OutOfMemory>
        requires first { first < length self.old }
        requires second { second < length self.old }
        ensures union { IfOk result (λ number. slice_get self.new number ≡
            Some (join (set_at self.old first) (set_at self.old second))) }
        ensures kept { OnOk result (KeepsNumbers self.old self.new) }
        ensures differ { OnOk result (AllDiffer self.new) }
        ensures few { OnOk result (length self.new ≤ 4294967296) }
    {
        let _count = self.list.len();
        if first == second {
            return Ok(first);
        }
        let key = pair_of(first, second);
        if let Some(number) = self.unions.get(&key) {
            return Ok(*number);
        }
        let union = union_of(alloc, &self.list, first, second)?;
        let number = add_set(&mut self.list, union)?;
        self.unions.insert(key, number)?;
        Ok(number)
    }
}

// Adds the set, unless an equal one is there, and returns its index.
fn add_set(list: &mut IndexSet<TokenSet>, set: TokenSet) -> Result<usize, OutOfMemory>
    requires differ { AllDiffer list.old.keys }
    requires few { length list.old.keys ≤ 4294967296 }
    ensures number { IfOk result (λ number. slice_get list.new.keys number ≡ Some set) }
    ensures kept { KeepsNumbers list.old.keys list.new.keys }
    ensures differ { AllDiffer list.new.keys }
    ensures few { length list.new.keys ≤ 4294967296 }
{
    if list.len() >= 4294967296 {
        return Err(OutOfMemory);
    }
    let (number, _) = list.insert_full(set)?;
    Ok(number)
}

// The union of two sets.
fn union_of(
    alloc: Global,
    list: &IndexSet<TokenSet>,
    first: usize,
    second: usize,
) -> Result<TokenSet, OutOfMemory>
    requires first { first < length list.now.keys }
    requires second { second < length list.now.keys }
    ensures { IfOk result
        (λ set. set ≡ join (set_at list.now.keys first) (set_at list.now.keys second)) }
{
    let sets = list.as_slice();
    let mut union = sets[first].clone(alloc)?;
    union.union_with(&sets[second])?;
    Ok(union)
}
