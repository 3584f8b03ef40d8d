//! Kernels of states, as lists of packed items.
ghost use Rattle.std.specs.Prelude.{◌≡◌, ◌+◌, ◌<◌, [], length, slice_get, Some, List, ℕ, IfOk, OnOk, IfSome, IsNone};
ghost use Rattle.std.specs.Hash as fed;
ghost use Rattle.std.proofs.Common.{ap};
ghost use Rattle.lalrpop_base.specs.Words.{AddsOnce, AllDiffer};
ghost use Rattle.lalrpop_collections.specs.lists.BitVectors.{folded};
ghost use Rattle.lalrpop_collections.specs.lists.Exact.{text_exact};

use indexmap::IndexSet;
use lalrpop_base::memory::OutOfMemory;
use lalrpop_base::sequence::Sequence;
use lalrpop_collections::bit_vector::words::fold_words;
use std::alloc::Global;
use std::hash::{Hash, Hasher};
use std::marker::Model;

/// The kernel of a state, as packed items in order. An item is packed as its number times 2 to the
/// power of 32, plus the number of its set.
#[derive(Drop, PartialEq, Eq)]
struct PackedKernel {
    items: Sequence<u64>,
}

impl Model for PackedKernel {
    ghost use Rattle.std.specs.Prelude.{List, ℕ};

    ghost Value = { List ℕ };

    ghost view = { λ k. k.items };

    ghost inverse = { λ items. record { items = items } };
}

impl Hash for PackedKernel {
    ghost hash_input = { λ k. fed.u64 (folded k) };

    ghost respects_eq = { λ x y same.
        ap (λ (k : List ℕ). fed.u64 (folded k)) (text_exact x y same) };

    fn hash<H: Hasher>(&self, state: &mut H) {
        fold_words(self.items.as_slice()).hash(state);
    }
}

/// Distinct kernels with their numbers, of which those with the lowest numbers were handed out. A
/// kernel is found by its hash.
#[derive(Drop)]
pub struct PackedKernels {
    kernels: IndexSet<PackedKernel>,
    handed: usize,
}

impl Model for PackedKernels {
    ghost use Rattle.std.specs.Prelude.{List, ℕ, length, ◌≤◌};
    ghost use Rattle.lalrpop_collections.specs.states.Kernels.{Kernels};
    ghost use Rattle.lalrpop_collections.specs.lists.Places.{AllDiffer};

    ghost Value = { Kernels (List ℕ) };

    ghost view = { λ k. record { list = k.kernels.keys; handed = k.handed } };

    ghost invariant = { λ k. AllDiffer k.kernels.keys × (k.handed ≤ length k.kernels.keys) };
}

impl PackedKernels {
    /// A set without kernels.
    pub fn new(alloc: Global) -> Self
        ensures { result ≡ record { list = []; handed = 0 } }
    {
        PackedKernels {
            kernels: IndexSet::new(alloc),
            handed: 0,
        }
    }

    /// Adds the kernel, unless an equal one is there, and returns its index. A new kernel gets the
    /// next number. `OutOfMemory` if an allocation fails.
    pub fn add_state(&mut self, items: Sequence<u64>) -> Result<usize, OutOfMemory>
        ensures added { OnOk result (AddsOnce self.old.list self.new.list items) }
        ensures numbered { IfOk result
            (λ index. slice_get self.new.list index ≡ Some items) }
        ensures differ { OnOk result (AllDiffer self.new.list) }
        ensures handed { self.new.handed ≡ self.old.handed }
    {
        let (number, _) = self.kernels.insert_full(PackedKernel { items })?;
        Ok(number)
    }

    /// Hands out the kernel with the lowest number that was not handed out yet, if there is one, by
    /// its number.
    pub fn next(&mut self) -> Option<usize>
        ensures next { IfSome result (λ number. number ≡ self.old.handed) }
        ensures within { IfSome result (λ number. number < length self.old.list) }
        ensures some { IfSome result (λ _. self.new ≡ record
            { list = self.old.list; handed = self.old.handed + 1 }) }
        ensures none { IsNone result → self.new ≡ self.old }
        ensures all { IsNone result → self.old.handed ≡ length self.old.list }
    {
        if self.handed == self.kernels.len() {
            return None;
        }
        let number = self.handed;
        self.handed += 1;
        Some(number)
    }

    /// The items of the kernel with the number.
    pub fn items(&self, number: usize) -> &[u64]
        requires { number < length self.now.list }
        ensures { slice_get self.now.list number ≡ Some result.now }
    {
        let kernel = &self.kernels.as_slice()[number];
        kernel.items.as_slice()
    }
}
