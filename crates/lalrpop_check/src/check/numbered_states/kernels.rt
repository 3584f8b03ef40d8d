//! The kernels that are expected of states.
ghost use Rattle.std.specs.Prelude.{◌<◌, IfSome, IsTrue};
ghost use Rattle.lalrpop_check.specs.check.ExpectedKernels.{AreMovedKernel, IsMovedNumber, NumbersRise};
ghost use Rattle.lalrpop_construction.specs.states.NumberedStates.{EdgesAscend};

use lalrpop_base::lookahead::nil::Nil;
use lalrpop_base::memory::OutOfMemory;
use lalrpop_base::numbers::Numbers;
use lalrpop_base::numbers::numbered::Numbered;
use lalrpop_construction::construction::numbered_state::NumberedState;
use lalrpop_follow_sets::follow_sets::edges::place_of;
use std::alloc::Global;

/// For each state the kernel that is expected of it, by number. The first state that is found to
/// lead to it gives the kernel: its items that move over the edge. The lists may have any numbers.
#[derive(Drop)]
pub(super) struct Kernels {
    /// Empty if no state leads there yet.
    lists: Vec<Vec<Numbered<Nil>>>,
    /// The number, counted from 1, of the first state that led there, and 0 if there is none.
    from: Vec<usize>,
    /// The first state, and then each state to which one of these leads, in the order in which they
    /// are found.
    found: Vec<usize>,
}

// Whether a number is that of an item whose dot moved.
fn is_moved(numbers: &Numbers<'_>, item: usize) -> bool
    ensures { IsTrue result → IsMovedNumber numbers.now item }
{
    if item >= numbers.items.len() {
        return false;
    }
    numbers.items[item].index > 0
}

// Whether the numbers of items rise.
fn rise(kernel: &[Numbered<Nil>]) -> bool
    ensures { IsTrue result → NumbersRise kernel.now }
{
    for place in 1..kernel.len() {
        if kernel[place - 1].number >= kernel[place].number {
            return false;
        }
    }
    true
}

// Whether there are items, their numbers rise, and the dots of all of them moved.
fn are_moved(numbers: &Numbers<'_>, kernel: &[Numbered<Nil>]) -> bool
    ensures { IsTrue result → AreMovedKernel numbers.now kernel.now }
{
    if !rise(kernel) {
        return false;
    }
    for item in kernel {
        if !is_moved(numbers, item.number) {
            return false;
        }
    }
    !kernel.is_empty()
}

impl Kernels {
    /// No kernel is expected of any of `count` states.
    pub(super) fn new(alloc: Global, count: usize) -> Result<Kernels, OutOfMemory> {
        let mut lists = Vec::with_capacity(alloc, count)?;
        for _state in 0..count {
            lists.push(Vec::new(alloc))?;
        }
        let from = vec![in alloc; 0; count]?;
        let mut found = Vec::with_capacity(alloc, count)?;
        found.push(0)?;
        Ok(Kernels { lists, from, found })
    }

    /// The state at a place of the order, if one of `count` states was found there.
    pub(super) fn found(&self, place: usize, count: usize) -> Option<usize>
        ensures { IfSome result (λ state. state < count) }
    {
        let state = *self.found.get(place)?;
        if state < count { Some(state) } else { None }
    }

    /// The kernel that is expected of a state. `None` if the numbers listed for the state are no
    /// kernel of moved items.
    pub(super) fn kernel(&self, numbers: &Numbers<'_>, state: usize) -> Option<&[Numbered<Nil>]>
        ensures { IfSome result (λ kernel. AreMovedKernel numbers.now kernel.now) }
    {
        if state >= self.lists.len() {
            return None;
        }
        let kernel = self.lists[state].as_slice();
        if are_moved(numbers, kernel) {
            Some(kernel)
        } else {
            None
        }
    }

    // Adds a moved item to the kernel that is expected of a target, if no state before led there.
    fn add(&mut self, count: usize, target: usize, item: usize) -> Result<(), OutOfMemory> {
        if target >= self.from.len() || target >= self.lists.len() {
            return Ok(());
        }
        if self.from[target] == 0 {
            self.from[target] = count;
            self.found.push(target)?;
        }
        if self.from[target] == count {
            self.lists[target].push(Numbered {
                number: item,
                lookahead: Nil,
            })?;
        }
        Ok(())
    }

    // Adds the item that a state moves from an item, if the item's dot is not at the end.
    fn add_move(
        &mut self,
        numbers: &Numbers<'_>,
        count: usize,
        edges: &[(usize, usize)],
        item: usize,
    ) -> Result<(), OutOfMemory>
        requires { EdgesAscend edges.now }
    {
        if item >= numbers.behind.len() {
            return Ok(());
        }
        let Some(symbol) = numbers.behind[item] else {
            return Ok(());
        };
        let Some(place) = place_of(edges, symbol) else {
            return Ok(());
        };
        let target = edges[place].1;
        self.add(count, target, item + 1)
    }

    /// Adds the items that a state moves over its edges. `count` is the number of states in the order
    /// up to this one.
    pub(super) fn add_moves(
        &mut self,
        numbers: &Numbers<'_>,
        count: usize,
        state: &NumberedState,
    ) -> Result<(), OutOfMemory> {
        for item in &state.items {
            self.add_move(numbers, count, &state.edges, *item)?;
        }
        Ok(())
    }
}
