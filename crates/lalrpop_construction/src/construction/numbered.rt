//! Kernels of states, whose items are given by number.
ghost use Rattle.std.specs.Prelude.{◌≡◌, ◌+◌, ◌<◌, [], length, map, slice_get, Some, IfOk, OnOk, OnErr, IfSome, IsNone};
ghost use Rattle.lalrpop_base.specs.Words.{AddsOnce, AllDiffer};
ghost use Rattle.lalrpop_construction.specs.states.NumberedStates.{item_number};

use indexmap::IndexSet;
use lalrpop_base::lookahead::Lookahead;
use lalrpop_base::lr1_core::state::StateIndex;
use lalrpop_base::memory::OutOfMemory;
use lalrpop_base::numbers::numbered::Numbered;
use lalrpop_base::sequence::Sequence;
use std::alloc::Global;
use std::marker::Model;

/// Replaces the contents of `numbers` by the numbers of the items. `OutOfMemory` if an allocation
/// fails.
pub fn list_numbers<L: Lookahead>(
    list: &[Numbered<L>],
    numbers: &mut Vec<usize>,
) -> Result<(), OutOfMemory>
    ensures { OnOk result (numbers.new.items ≡ map item_number list.now) }
{
    numbers.clear();
    for item in list {
        numbers.push(item.number)?;
    }
    Ok(())
}

/// The kernel of a state, with its items by number: the items of which the closure is taken.
#[derive(Debug, Drop, PartialEq, Eq, PartialOrd, Ord, Hash)]
pub struct NumberedKernel<L: Lookahead> {
    items: Sequence<Numbered<L>>,
}

impl<L: Lookahead> Model for NumberedKernel<L> {
    ghost use Rattle.std.specs.Prelude.{List};
    ghost use Rattle.lalrpop_numbers.specs.declared.numbers.numbered.Numbered.{Numbered};

    ghost Value = { List (Numbered L) };

    ghost view = { λ k. k.items };

    ghost inverse = { λ items. record { items = items } };
}

impl<L: Lookahead> NumberedKernel<L> {
    /// The kernel of the items.
    pub fn new(items: Sequence<Numbered<L>>) -> Self
        ensures { result ≡ items }
    {
        NumberedKernel { items }
    }

    /// The items, in order.
    pub fn as_slice(&self) -> &[Numbered<L>]
        ensures { result.now ≡ self.now }
    {
        self.items.as_slice()
    }
}

/// Distinct kernels with their numbers, of which those with the lowest numbers were handed out. A
/// kernel is found by its hash.
#[derive(Drop)]
pub struct NumberedKernels<L: Lookahead> {
    kernels: IndexSet<NumberedKernel<L>>,
    handed: usize,
}

impl<L: Lookahead> Model for NumberedKernels<L> {
    ghost use Rattle.std.specs.Prelude.{List, length, ◌≤◌};
    ghost use Rattle.lalrpop_collections.specs.states.Kernels.{Kernels};
    ghost use Rattle.lalrpop_collections.specs.lists.Places.{AllDiffer};
    ghost use Rattle.lalrpop_numbers.specs.declared.numbers.numbered.Numbered.{Numbered};

    ghost Value = { Kernels (List (Numbered L)) };

    ghost view = { λ k. record { list = k.kernels.keys; handed = k.handed } };

    ghost invariant = { λ k. AllDiffer k.kernels.keys × (k.handed ≤ length k.kernels.keys) };
}

impl<L: Lookahead> NumberedKernels<L> {
    /// A set without kernels.
    pub fn new(alloc: Global) -> Self
        ensures { result ≡ record { list = []; handed = 0 } }
    {
        NumberedKernels {
            kernels: IndexSet::new(alloc),
            handed: 0,
        }
    }

    /// Adds the kernel, unless an equal one is there, and returns its index. A new kernel gets the
    /// next number. `OutOfMemory` if an allocation fails.
    pub fn add_state(&mut self, kernel: NumberedKernel<L>) -> Result<StateIndex, OutOfMemory>
        ensures added { OnOk result (AddsOnce self.old.list self.new.list kernel) }
        ensures numbered { IfOk result
            (λ index. slice_get self.new.list index.0 ≡ Some kernel) }
        ensures differ { OnOk result (AllDiffer self.new.list) }
        ensures handed { self.new.handed ≡ self.old.handed }
        ensures err { OnErr result (self.new ≡ self.old) }
    {
        let (number, _) = self.kernels.insert_full(kernel)?;
        Ok(StateIndex(number))
    }

    /// Hands out the kernel with the lowest number that was not handed out yet, if there is one, by
    /// its number.
    pub fn next(&mut self) -> Option<usize>
        ensures next { IfSome result (λ number. number ≡ self.old.handed) }
        ensures within { IfSome result (λ number. number < length self.old.list) }
        ensures some { IfSome result (λ _. self.new ≡ record
            { list = self.old.list; handed = self.old.handed + 1 }) }
        ensures none { IsNone result → self.new ≡ self.old }
        ensures all { IsNone result → self.old.handed ≡ length self.old.list }
    {
        if self.handed == self.kernels.len() {
            return None;
        }
        let number = self.handed;
        self.handed += 1;
        Some(number)
    }

    /// The items of the kernel with the number.
    pub fn items(&self, number: usize) -> &[Numbered<L>]
        requires { number < length self.now.list }
        ensures { slice_get self.now.list number ≡ Some result.now }
    {
        self.kernels.as_slice()[number].as_slice()
    }
}
