//! The loops that make the states of a grammar, kernel after kernel.
ghost use Rattle.std.specs.Prelude.{◌≡◌, ◌↔◌, [], IsTrue, IfOk, OnOk};
ghost use Rattle.lalrpop_construction.specs.construction.EarlyStop.{AreEnough, AreMadeFor};
ghost use Rattle.lalrpop_base.specs.Words.{AreNumbers};
ghost use Rattle.lalrpop_construction.specs.construction.Results.{AreStatesFor};
ghost use Rattle.lalrpop_construction.specs.construction.Building.{AreMadeSoFar};
ghost use Rattle.lalrpop_construction.specs.states.NumberedStates.{AreNumberedAs};

use super::lookahead_build::LookaheadBuild;
use super::lr::Lr;
use super::numbered::NumberedKernels;
use super::numbered_state::{NumberedState, numbered_state};
use super::results::push_conflicts;
use super::state::add_state;
use super::workspace::Workspace;
use lalrpop_base::lr1_core::state::{Conflict, State};
use lalrpop_base::memory::OutOfMemory;
use lalrpop_base::numbers::Numbers;
use std::alloc::Global;

/// States, and their conflicts.
pub type States<'grammar, L> = (Vec<State<'grammar, L>>, Vec<Conflict<'grammar, L>>);

/// States, and the same states by numbers.
pub type NumberedStates<'grammar, L> = (Vec<State<'grammar, L>>, Vec<NumberedState>);

// Whether `found` conflicts are enough to stop after `stop_after` ones; 0 means no early stop.
fn are_enough(stop_after: usize, found: usize) -> bool
    ensures { IsTrue result ↔ AreEnough stop_after found }
{
    stop_after > 0 && stop_after <= found
}

/// The kernels when a construction begins: the kernel of the start symbol, which has no state yet.
/// `OutOfMemory` if an allocation fails.
pub(super) fn first_kernels<'grammar, L: LookaheadBuild>(
    alloc: Global,
    lr: &Lr<'grammar, L>,
    numbers: &Numbers<'grammar>,
) -> Result<NumberedKernels<L>, OutOfMemory>
    requires { AreNumbers lr.now.construction.rules numbers.now }
    ensures { IfOk result (λ kernels. AreMadeSoFar L.meaning L.begins L.passes lr.now.construction
        numbers.now.items.items kernels []) }
{
    let mut kernels = NumberedKernels::new(alloc);
    kernels.add_state(lr.start_kernel(alloc, numbers)?)?;
    Ok(kernels)
}

// Makes the states and lists their conflicts, until enough are listed. None is made yet.
fn build_until_enough<'grammar, L: LookaheadBuild>(
    alloc: Global,
    lr: &Lr<'grammar, L>,
    numbers: &Numbers<'grammar>,
    kernels: &mut NumberedKernels<L>,
    states: &mut Vec<State<'grammar, L>>,
    conflicts: &mut Vec<Conflict<'grammar, L>>,
) -> Result<(), OutOfMemory>
    requires numbers { AreNumbers lr.now.construction.rules numbers.now }
    requires kernels { AreMadeSoFar L.meaning L.begins L.passes lr.now.construction
        numbers.now.items.items kernels.old [] }
    requires states { states.old.items ≡ [] }
    requires conflicts { conflicts.old.items ≡ [] }
    ensures { OnOk result (AreMadeFor L.meaning L.begins L.passes L.lists_conflicts lr.now
        states.new.items conflicts.new.items) }
{
    let mut work = Workspace::new(alloc);
    while add_state(alloc, lr, numbers, kernels, states, &mut work)? {
        push_conflicts(alloc, lr, &states[states.len() - 1], conflicts)?;
        if are_enough(lr.stop_after(), conflicts.len()) {
            return Ok(());
        }
    }
    Ok(())
}

/// The states and their conflicts. The construction ends early if it has listed enough conflicts.
/// States are numbered in the order in which their kernels first appear. `OutOfMemory` if an
/// allocation fails.
pub fn build_states<'grammar, L: LookaheadBuild>(
    alloc: Global,
    lr: &Lr<'grammar, L>,
) -> Result<States<'grammar, L>, OutOfMemory>
    ensures { IfOk result (λ made. AreMadeFor L.meaning L.begins L.passes L.lists_conflicts lr.now
        made.0.items made.1.items) }
{
    let numbers = lr.numbers();
    let mut kernels = first_kernels(alloc, lr, numbers)?;
    let mut states = Vec::new(alloc);
    let mut conflicts = Vec::new(alloc);
    build_until_enough(
        alloc,
        lr,
        numbers,
        &mut kernels,
        &mut states,
        &mut conflicts,
    )?;
    Ok((states, conflicts))
}

// Makes all states, and the same states by numbers. None is made yet.
fn number_all<'grammar, L: LookaheadBuild>(
    alloc: Global,
    lr: &Lr<'grammar, L>,
    numbers: &Numbers<'grammar>,
    kernels: &mut NumberedKernels<L>,
    states: &mut Vec<State<'grammar, L>>,
    list: &mut Vec<NumberedState>,
) -> Result<(), OutOfMemory>
    requires numbers { AreNumbers lr.now.construction.rules numbers.now }
    requires kernels { AreMadeSoFar L.meaning L.begins L.passes lr.now.construction
        numbers.now.items.items kernels.old [] }
    requires states { states.old.items ≡ [] }
    requires list { list.old.items ≡ [] }
    ensures states { OnOk result (AreStatesFor L.meaning L.begins L.passes
        L.lists_conflicts lr.now.construction states.new.items) }
    ensures numbered { OnOk result
        (AreNumberedAs numbers.now states.new.items list.new.items) }
{
    let mut work = Workspace::new(alloc);
    while add_state(alloc, lr, numbers, kernels, states, &mut work)? {
        list.push(numbered_state(alloc, numbers, &work.numbers, &work.edges)?)?;
    }
    Ok(())
}

/// All states, numbered in the order in which their kernels first appear, and the same states by
/// numbers. Conflicts are not looked for. `OutOfMemory` if an allocation fails.
pub(crate) fn numbered_states<'grammar, L: LookaheadBuild>(
    alloc: Global,
    lr: &Lr<'grammar, L>,
    numbers: &Numbers<'grammar>,
) -> Result<NumberedStates<'grammar, L>, OutOfMemory>
    requires { AreNumbers lr.now.construction.rules numbers.now }
    ensures states { IfOk result (λ made. AreStatesFor L.meaning L.begins L.passes
        L.lists_conflicts lr.now.construction made.0.items) }
    ensures numbered { IfOk result
        (λ made. AreNumberedAs numbers.now made.0.items made.1.items) }
{
    let mut kernels = first_kernels(alloc, lr, numbers)?;
    let mut states = Vec::new(alloc);
    let mut list = Vec::new(alloc);
    number_all(alloc, lr, numbers, &mut kernels, &mut states, &mut list)?;
    Ok((states, list))
}
