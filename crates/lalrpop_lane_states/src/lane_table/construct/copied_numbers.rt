//! Copies of states, by number.
ghost use Rattle.std.specs.Prelude.{◌≡◌, ◌++◌, ◌<◌, ℕ, false, length, option_map, slice_get, Some, IfOk, OnOk};
ghost use Rattle.lalrpop_base.specs.Words.{leads, number_in, number_of};
ghost use Rattle.lalrpop_construction.specs.declared.construction.numbered_state.NumberedState.{NumberedState as ByNumbers};
ghost use Rattle.lalrpop_lane_states.specs.lane_states.CopiedNumbers.{AreCopiedByNumber, AreOverSymbols, IsCopyByNumber, copied_edge, copied_edges, place_of};

use lalrpop_base::lr1_core::state::{Lr1State, StateIndex};
use lalrpop_base::memory::OutOfMemory;
use lalrpop_base::repr::Symbol;
use lalrpop_construction::construction::numbered_state::NumberedState;
use std::alloc::Global;

// The state to which a symbol leads, if there is one.
fn target_over(state: &Lr1State<'_>, symbol: &Symbol) -> Option<StateIndex>
    ensures { option_map number_of result ≡ leads (place_of state.now) symbol.now }
{
    match symbol {
        Symbol::Nonterminal(name) => state.gotos.get(name).copied(),
        Symbol::Terminal(terminal) => state.shifts.get(terminal).copied(),
    }
}

// Adds the transition of a state over the symbol of a transition, if there is one.
fn add_edge(
    symbols: &[Symbol],
    edge: (usize, usize),
    state: &Lr1State<'_>,
    list: &mut Vec<(usize, usize)>,
) -> Result<(), OutOfMemory>
    requires { edge.0 < length symbols.now }
    ensures { OnOk result
        (list.new.items ≡ list.old.items ++ copied_edge symbols.now state.now edge) }
{
    if let Some(target) = target_over(state, &symbols[edge.0]) {
        list.push((edge.0, target.0))?;
    }
    Ok(())
}

// The transitions of a state over the symbols of transitions, in their order.
fn edges_over(
    alloc: Global,
    symbols: &[Symbol],
    edges: &[(usize, usize)],
    state: &Lr1State<'_>,
) -> Result<Vec<(usize, usize)>, OutOfMemory>
    requires { AreOverSymbols symbols.now edges.now }
    ensures { IfOk result (λ list. list.items ≡ copied_edges symbols.now state.now edges.now) }
{
    let mut list = Vec::with_capacity(alloc, edges.len())?;
    for edge in edges {
        add_edge(symbols, *edge, state, &mut list)?;
    }
    Ok(list)
}

// The state by number. `original` is its original, by number.
fn copied_state(
    alloc: Global,
    symbols: &[Symbol],
    original: &NumberedState,
    state: &Lr1State<'_>,
) -> Result<NumberedState, OutOfMemory>
    requires { AreOverSymbols symbols.now original.now.edges.items }
    ensures { IfOk result (IsCopyByNumber symbols.now original.now state.now) }
{
    let edges = edges_over(alloc, symbols, &original.edges, state)?;
    Ok(NumberedState {
        items: Vec::from_slice(alloc, &original.items)?,
        edges,
        reductions: Vec::from_slice(alloc, &original.reductions)?,
    })
}

/// The states by number. `numbered` has their originals by number, and `originals` has for each
/// state the number of its original.
pub(super) fn copied_numbers(
    alloc: Global,
    symbols: &[Symbol],
    numbered: &[NumberedState],
    originals: &[usize],
    states: &[Lr1State<'_>],
) -> Result<Vec<NumberedState>, OutOfMemory>
    requires counted { length originals.now ≡ length states.now }
    requires within { (n o : ℕ) → slice_get originals.now n ≡ Some o → o < length numbered.now }
    requires over { (s : ℕ) (old : ByNumbers) →
        slice_get numbered.now s ≡ Some old → AreOverSymbols symbols.now old.edges.items }
    ensures { IfOk result (λ list. AreCopiedByNumber symbols.now numbered.now originals.now
        states.now list.items) }
{
    let mut list = Vec::with_capacity(alloc, states.len())?;
    for index in 0..states.len() {
        let original = originals[index];
        let state = copied_state(alloc, symbols, &numbered[original], &states[index])?;
        list.push(state)?;
    }
    Ok(list)
}

/// Whether another state is a copy of the first. No transition leads to the first state, so this
/// never is so. A pass asks nevertheless, since no contract of a merge says it.
pub(super) fn first_is_copied(originals: &[usize]) -> bool
    ensures { result ≡ false → (n : ℕ) → number_in originals.now n ≡ 0 → n ≡ 0 }
{
    for number in 1..originals.len() {
        if originals[number] == 0 {
            return true;
        }
    }
    false
}
