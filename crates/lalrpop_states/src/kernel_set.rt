//! Sets of kernels. A kernel is numbered when it first appears, and is handed out once.
ghost use Rattle.std.specs.Prelude.{◌≡◌, ◌+◌, ◌-◌, ◌++◌, ◌∷◌, [], ℕ, List, length, drop, slice_get, Some, IfOk, OnOk, OnErr, IfSome, IfNone, Contains};
ghost use Rattle.lalrpop_collections.specs.lists.Exact.{Exactly};
ghost use Rattle.lalrpop_collections.specs.states.Kernels.{Kernels, AddsOnce};
ghost use Rattle.lalrpop_collections.specs.lists.Places.{AllDiffer};

use lalrpop_collections::memory::OutOfMemory;
use std::alloc::Global;
use std::collections::{BTreeMap, VecDeque};
use std::fmt;
use std::hash::Hash;
use std::marker::Model;

/// A kernel: a value that determines a state, for example the items of which it is the closure.
pub trait Kernel: fmt::Debug + Hash + Eq + PartialOrd + Ord + Drop {
    /// The index of a state.
    type Index: Copy + fmt::Debug;

    // The index of the state with a number.
    ghost numbered: { ℕ → Self.Index };

    /// The index of the state with a number.
    fn index(number: usize) -> Self::Index
        ensures { result ≡ numbered number };

    /// An equal kernel. `OutOfMemory` if an allocation fails.
    fn copy(&self, alloc: Global) -> Result<Self, OutOfMemory>
        ensures { IfOk result (λ copy. copy ≡ self.now) };

    // Kernels for which `==` returns true are the same.
    ghost equal_is_same: { Exactly Self.eq };
}

/// Distinct kernels with their numbers, of which those with the lowest numbers were handed out.
#[derive(Drop)]
pub struct KernelSet<K: Ord> {
    numbers: BTreeMap<K, usize>,
    pending: VecDeque<K>,
    alloc: Global,
}

impl<K: Ord> Model for KernelSet<K> {
    ghost use Rattle.std.specs.Prelude.{◌-◌, length};
    ghost use Rattle.lalrpop_collections.specs.states.Kernels.{Kernels, IsNumbering, by_number};

    ghost Value = { Kernels K };

    ghost view = { λ s. record {
      list = by_number s.numbers.entries;
      handed = length s.numbers.entries - length s.pending.items;
    } };

    ghost invariant = { λ s. IsNumbering K.cmp s.numbers s.pending.items };
}

impl<K: Kernel> KernelSet<K> {
    /// A set without kernels.
    pub fn new(alloc: Global) -> Self
        ensures { result ≡ record { list = []; handed = 0 } }
    {
        KernelSet {
            numbers: BTreeMap::new(alloc),
            pending: VecDeque::new(alloc),
            alloc,
        }
    }

    /// Adds the kernel, unless an equal one is there, and returns its index. A new kernel gets the
    /// next number. `OutOfMemory` if an allocation fails.
    pub fn add_state(&mut self, kernel: K) -> Result<K::Index, OutOfMemory>
        ensures added { OnOk result (AddsOnce self.old.list self.new.list kernel) }
        ensures numbered { IfOk result (λ index. (n : ℕ) × (index ≡ K.numbered n) ×
            (slice_get self.new.list n ≡ Some kernel)) }
        ensures differ { OnOk result (AllDiffer self.new.list) }
        ensures handed { self.new.handed ≡ self.old.handed }
        ensures err { OnErr result (self.new ≡ self.old) }
    {
        if let Some(number) = self.numbers.get(&kernel) {
            return Ok(K::index(*number));
        }
        let alloc = self.alloc;
        let number = self.numbers.len();
        let copy = kernel.copy(alloc)?;
        self.pending.reserve(1)?;
        self.numbers.insert(copy, number)?;
        self.pending.push_back(kernel).unwrap();
        Ok(K::index(number))
    }

    /// Hands out the kernel with the lowest number that was not handed out yet, if there is one.
    pub fn next(&mut self) -> Option<K>
        ensures next { IfSome result
            (λ kernel. slice_get self.old.list self.old.handed ≡ Some kernel) }
        ensures some { IfSome result
            (λ _. self.new ≡ record { list = self.old.list; handed = self.old.handed + 1 }) }
        ensures none { IfNone result (self.new ≡ self.old) }
        ensures all { IfNone result (self.old.handed ≡ length self.old.list) }
    {
        self.pending.pop_front()
    }
}
