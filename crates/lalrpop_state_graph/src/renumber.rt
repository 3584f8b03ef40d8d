//! New numbers for the states of a table: state 0 is first, then come the states with a goto, and
//! then the others.
ghost use Rattle.std.specs.Prelude.{◌≡◌, ◌+◌, ◌<◌, ◌^◌, ◌++◌, ◌∷◌, [], List, length, cond, count_by, IfOk, OnOk};
ghost use Rattle.lalrpop_base.specs.Words.{AreCoherent, ArePlaces, parted, fails, stands_first, number_in, retargeted, retargeted_all, IsRenumberedState};
ghost use Rattle.lalrpop_base.specs.Words.{AreRenumbered, AreMoved, GrowsBy};
ghost use Rattle.lalrpop_grammar.specs.declared.repr.TerminalString.{TerminalString as Terminal};

use lalrpop_base::lr1_core::state::{Lr1State, StateIndex};
use lalrpop_base::memory::OutOfMemory;
use std::alloc::Global;
use std::collections::BTreeMap;

// Whether a state is in the first part: it is state 0 or has a goto.
fn is_first(state: &Lr1State) -> bool
    ensures { result ≡ stands_first state.now }
{
    state.index.0 == 0 || !state.gotos.is_empty()
}

// How many states are in the first part.
fn count_first(states: &[Lr1State]) -> usize
    ensures { result ≡ count_by stands_first states.now }
{
    states.iter().filter(|state| is_first(state)).count()
}

// Adds the new number of a state to the list: the next number of its part. `front` and `back` are
// the next numbers of the two parts.
fn push_number(
    state: &Lr1State,
    front: &mut usize,
    back: &mut usize,
    numbers: &mut Vec<usize>,
) -> Result<(), OutOfMemory>
    requires front_room { front.old < 2 ^ 63 }
    requires back_room { back.old < 2 ^ 63 }
    ensures number { OnOk result (numbers.new.items ≡ numbers.old.items ++ cond
        (stands_first state.now) front.old back.old ∷ []) }
    ensures front { OnOk result
        (front.new ≡ cond (stands_first state.now) (front.old + 1) front.old) }
    ensures back { OnOk result (back.new ≡ cond (stands_first state.now) back.old (back.old + 1)) }
{
    if is_first(state) {
        numbers.push(*front)?;
        *front += 1;
        return Ok(());
    }
    numbers.push(*back)?;
    *back += 1;
    Ok(())
}

// The new numbers of the states, in their old order.
fn new_numbers(alloc: Global, states: &[Lr1State]) -> Result<Vec<usize>, OutOfMemory>
    ensures { IfOk result
        (λ numbers. ArePlaces stands_first states.now (length states.now) numbers.items) }
{
    let mut numbers = Vec::new(alloc);
    let mut front = 0;
    let mut back = count_first(states);
    for state in states {
        push_number(state, &mut front, &mut back, &mut numbers)?;
    }
    Ok(numbers)
}

/// The new number of a state. A number outside the list stays.
pub(crate) fn renumbered(numbers: &[usize], index: StateIndex) -> StateIndex
    ensures { result ≡ retargeted (number_in numbers.now) index }
{
    match numbers.get(index.0) {
        Some(number) => StateIndex(*number),
        None => index,
    }
}

// Gives each target its new number.
fn renumber_targets<K: Ord + Drop>(targets: &mut BTreeMap<K, StateIndex>, numbers: &[usize])
    ensures { targets.new.entries ≡ retargeted_all (number_in numbers.now) targets.old.entries }
{
    targets.retain(|_, target| {
        *target = renumbered(numbers, *target);
        true
    });
}

/// The state with its new number, and with the new numbers of its targets. `numbers` has the new
/// number of each old one. A number outside the list stays.
pub fn renumber_state<'grammar>(
    mut state: Lr1State<'grammar>,
    numbers: &[usize],
) -> Lr1State<'grammar>
    ensures { IsRenumberedState (number_in numbers.now) state.entry result }
{
    state.index = renumbered(numbers, state.index);
    renumber_targets(&mut state.shifts, numbers);
    renumber_targets(&mut state.gotos, numbers);
    state
}

// Adds a state, under its new number, after the others of its part.
fn push_state<'grammar>(
    state: Lr1State<'grammar>,
    numbers: &[usize],
    front: &mut Vec<Lr1State<'grammar>>,
    back: &mut Vec<Lr1State<'grammar>>,
) -> Result<(), OutOfMemory>
    ensures front { OnOk result (GrowsBy (number_in numbers.now) (stands_first state.entry)
        state.entry front.old.items front.new.items) }
    ensures back { OnOk result (GrowsBy (number_in numbers.now) (fails stands_first state.entry)
        state.entry back.old.items back.new.items) }
{
    if is_first(&state) {
        front.push(renumber_state(state, numbers))?;
        return Ok(());
    }
    back.push(renumber_state(state, numbers))?;
    Ok(())
}

// The states in their new order, under their new numbers.
fn move_states<'grammar>(
    alloc: Global,
    states: Vec<Lr1State<'grammar>>,
    numbers: &[usize],
) -> Result<Vec<Lr1State<'grammar>>, OutOfMemory>
    ensures { IfOk result (λ moved. AreMoved (number_in numbers.now)
        (parted stands_first states.entry.items) moved.items) }
{
    let mut front = Vec::new(alloc);
    let mut back = Vec::new(alloc);
    for state in states {
        push_state(state, numbers, &mut front, &mut back)?;
    }
    front.append(&mut back)?;
    Ok(front)
}

/// The states under new numbers, in the order of these: state 0, then the states with a goto, then
/// the others.
///
/// Within a part the states keep their order. The time is linear in the size of the states.
/// `OutOfMemory` if an allocation fails.
pub fn renumber<'grammar>(
    alloc: Global,
    states: Vec<Lr1State<'grammar>>,
) -> Result<Vec<Lr1State<'grammar>>, OutOfMemory>
    requires { AreCoherent states.items }
    ensures { IfOk result (λ renumbered. (terminals : List Terminal) →
        AreRenumbered terminals states.entry.items renumbered.items) }
{
    let numbers = new_numbers(alloc, &states)?;
    move_states(alloc, states, &numbers)
}
