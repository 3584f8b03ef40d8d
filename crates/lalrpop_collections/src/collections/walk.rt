//! A walk over keys, which visits each key once.
ghost use Rattle.std.specs.Prelude.{◌≡◌, [], OnOk};
ghost use Rattle.lalrpop_collections.specs.lists.Walks.{Visits};

use crate::collections::sets::add_key;
use crate::exact::Exact;
use crate::memory::OutOfMemory;
use std::alloc::Global;
use std::collections::{BTreeSet, VecDeque};

/// The keys that a walk has visited, and those of them that wait. The key that has waited longest
/// comes first.
#[derive(Drop)]
pub struct Walk<K: Ord> {
    pub visited: BTreeSet<K>,
    pub waiting: VecDeque<K>,
}

impl<K: Ord + Exact + Drop> Walk<K> {
    /// A walk that has visited no key.
    pub fn new(alloc: Global) -> Walk<K>
        ensures visited { result.visited.keys ≡ [] }
        ensures waiting { result.waiting.items ≡ [] }
    {
        Walk {
            visited: BTreeSet::new(alloc),
            waiting: VecDeque::new(alloc),
        }
    }

    /// Visits a key, which comes with a copy of it. A new key waits from then on.
    pub fn visit(&mut self, key: K, copy: K) -> Result<(), OutOfMemory>
        requires { copy ≡ key }
        ensures { OnOk result (Visits (λ k. key ≡ k) self.old self.new) }
    {
        if add_key(&mut self.visited, copy)? {
            self.waiting.push_back(key)?;
        }
        Ok(())
    }
}
