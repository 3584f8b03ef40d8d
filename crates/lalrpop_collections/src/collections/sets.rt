//! Functions on ordered sets, with contracts about the keys of the sets.
ghost use Rattle.std.specs.Prelude.{◌≡◌, ◌↔◌, ◌+◌, length, IsTrue, IfOk, OnOk, MatchBool, Contains};
ghost use Rattle.lalrpop_collections.specs.lists.Places.{AllDiffer};
ghost use Rattle.lalrpop_collections.specs.lists.CheckSets.{IsAdded, HaveSame};

use crate::exact::Exact;
use crate::memory::OutOfMemory;
use std::collections::BTreeSet;

/// Adds a key, and returns whether it is new.
pub fn add_key<K: Ord + Exact + Drop>(set: &mut BTreeSet<K>, key: K) -> Result<bool, OutOfMemory>
    ensures added { OnOk result (IsAdded key set.old.keys set.new.keys) }
    ensures told { IfOk result (λ told. MatchBool told
        ((length set.new.keys ≡ length set.old.keys + 1) × ¬ Contains set.old.keys key)
        ((length set.new.keys ≡ length set.old.keys) × Contains set.old.keys key)) }
    ensures differ { OnOk result (AllDiffer set.new.keys) }
{
    Ok(set.insert(key)?)
}

/// Whether a key is in a set.
pub fn has_key<K: Ord + Exact>(set: &BTreeSet<K>, key: &K) -> bool
    ensures { IsTrue result ↔ Contains set.now.keys key.now }
{
    set.contains(key)
}

/// Whether two sets have the same keys.
pub fn have_same<K: Ord + Exact>(a: &BTreeSet<K>, b: &BTreeSet<K>) -> bool
    ensures { IsTrue result ↔ HaveSame a.now.keys b.now.keys }
{
    a.is_subset(b) && b.is_subset(a)
}
