//! States by number, each of which lists the closure of its kernel.
ghost use Rattle.std.specs.Prelude.{◌≡◌, ◌<◌, ℕ, length, map, replicate, Contains, IfOk, IfSome, None, OnOk, Some};
ghost use Rattle.lalrpop_base.specs.Words.{AllDiffer, AreItemsBy, Rules, AreNumbered, AreNumbers, NumbersAscend, items_by};
ghost use Rattle.lalrpop_check.specs.check.ExpectedKernels.{IsKernelOf, no_tokens};
ghost use Rattle.lalrpop_check.specs.check.ByNumber.{AreListedAtPlaces, AreListedByNumber, IsListedOver, ListsClosure};

use super::kernels::Kernels;
use super::transitions::{are_items, are_reductions, take_edges};
use lalrpop_base::collections::sparse_map::SparseMap;
use lalrpop_base::lookahead::nil::Nil;
use lalrpop_base::lr1_core::state::Lr1State;
use lalrpop_base::memory::OutOfMemory;
use lalrpop_base::numbers::Numbers;
use lalrpop_base::numbers::numbered::Numbered;
use lalrpop_construction::construction::closure::closure;
use lalrpop_construction::construction::lr::Lr;
use lalrpop_construction::construction::numbered::list_numbers;
use lalrpop_construction::construction::numbered_state::{NumberedState, finished_of};
use lalrpop_construction::construction::workspace::Workspace;
use std::alloc::Global;

// Adds the symbol after the dot of an item, if there is one.
fn add_symbol(
    numbers: &Numbers<'_>,
    item: usize,
    symbols: &mut SparseMap<Nil>,
) -> Result<(), OutOfMemory>
    requires { item < length numbers.now.items.items }
{
    if let Some(symbol) = numbers.behind[item] {
        symbols.join(symbol, Nil)?;
    }
    Ok(())
}

// The symbols after the dots of items, by rising number.
fn symbols_behind(
    alloc: Global,
    numbers: &Numbers<'_>,
    items: &[usize],
    symbols: &mut SparseMap<Nil>,
) -> Result<Vec<(usize, Nil)>, OutOfMemory>
    requires { (k : ℕ) → Contains items.now k → k < length numbers.now.items.items }
    ensures { IfOk result (λ symbols. NumbersAscend symbols.items) }
{
    for item in items {
        add_symbol(numbers, *item, symbols)?;
    }
    symbols.take_rising(alloc)
}

// The state by number. Its items must have these numbers, its transitions must be over the symbols
// after their dots, and its reductions must be by the finished ones. Else the result is `None`.
fn state_over<'grammar>(
    alloc: Global,
    numbers: &Numbers<'grammar>,
    items: Vec<usize>,
    symbols: &[(usize, Nil)],
    state: &Lr1State<'grammar>,
) -> Result<Option<NumberedState>, OutOfMemory>
    requires numbers { (g : Rules) × AreNumbers g numbers.now }
    requires known { (k : ℕ) → Contains items.items k → k < length numbers.now.items.items }
    requires differ { AllDiffer items.items }
    requires rising { NumbersAscend symbols.now }
    ensures { IfOk result (λ answer. IfSome answer
        (λ new. IsListedOver numbers.now items.items state.now new)) }
{
    if !are_items(numbers, &items, &state.items.vec) {
        return Ok(None);
    }
    let mut edges = Vec::with_capacity(alloc, symbols.len())?;
    if !take_edges(&numbers.symbols, symbols, &state.gotos, &mut edges)? {
        return Ok(None);
    }
    if !take_edges(&numbers.symbols, symbols, &state.shifts, &mut edges)? {
        return Ok(None);
    }
    let reductions = finished_of(alloc, numbers, &items)?;
    if !are_reductions(numbers, &reductions, &state.reductions) {
        return Ok(None);
    }
    Ok(Some(NumberedState {
        items,
        edges,
        reductions,
    }))
}

// The kernel that is expected of a state. For the first state these are the productions of the
// start symbol.
#[tactic(auto, using(crate::proofs::theory::check::ExpectedKernels::moved_kernel, crate::proofs::theory::check::NumberedSteps::if_some))]
fn kernel_of<'list>(
    _lr: &Lr<'_, Nil>,
    numbers: &Numbers<'_>,
    start: &'list [Numbered<Nil>],
    kernels: &'list Kernels,
    place: usize,
) -> Option<&'list [Numbered<Nil>]>
    requires numbers { AreNumbers _lr.now.construction.rules numbers.now }
    requires start { IsKernelOf _lr.now.construction numbers.now 0 start.now }
    ensures { IfSome result
        (λ kernel. IsKernelOf _lr.now.construction numbers.now place kernel.now) }
{
    if place == 0 {
        Some(start)
    } else {
        kernels.kernel(numbers, place)
    }
}

// The state by number, if it lists the closure of the kernel, else `None`.
fn listed_state<'grammar>(
    alloc: Global,
    lr: &Lr<'grammar, Nil>,
    numbers: &Numbers<'grammar>,
    kernel: &[Numbered<Nil>],
    work: &mut Workspace<Nil>,
    state: &Lr1State<'grammar>,
) -> Result<Option<NumberedState>, OutOfMemory>
    requires numbers { AreNumbers lr.now.construction.rules numbers.now }
    requires known { AreNumbered numbers.now.items.items kernel.now }
    requires kernel { AreItemsBy no_tokens lr.now.construction.rules
        (items_by numbers.now.items.items kernel.now) }
    ensures closed { IfOk result (λ answer. IfSome answer (λ _.
        ListsClosure lr.now.construction.rules (items_by numbers.now.items.items kernel.now)
        state.now)) }
    ensures listed { IfOk result (λ answer. IfSome answer
        (λ new. IsListedOver numbers.now new.items.items state.now new)) }
{
    let list = closure(alloc, lr, numbers, kernel, work)?;
    let mut items = Vec::with_capacity(alloc, list.len())?;
    list_numbers(&list, &mut items)?;
    let symbols = symbols_behind(alloc, numbers, &items, &mut work.shared)?;
    state_over(alloc, numbers, items, &symbols, state)
}

// A place for each of so many states, of which none is listed.
fn no_states(alloc: Global, count: usize) -> Result<Vec<Option<NumberedState>>, OutOfMemory>
    ensures { IfOk result (λ list. list.items ≡ replicate count None) }
{
    let mut list = Vec::with_capacity(alloc, count)?;
    for _place in 0..count {
        list.push(None)?;
    }
    Ok(list)
}

// The states, if each of them is listed.
fn all_listed(
    alloc: Global,
    list: Vec<Option<NumberedState>>,
) -> Result<Option<Vec<NumberedState>>, OutOfMemory>
    ensures { IfOk result (λ answer. IfSome answer
        (λ states. list.items ≡ map Some states.items)) }
{
    let mut states = Vec::with_capacity(alloc, list.len())?;
    for place in list {
        let Some(state) = place else {
            return Ok(None);
        };
        states.push(state)?;
    }
    Ok(Some(states))
}

// Lists each state at its place, in the order in which they are found. Returns whether each of them
// is reached, and is as its kernel says.
fn list_states<'grammar>(
    alloc: Global,
    lr: &Lr<'grammar, Nil>,
    numbers: &Numbers<'grammar>,
    states: &[Lr1State<'grammar>],
    start: &[Numbered<Nil>],
    kernels: &mut Kernels,
    list: &mut Vec<Option<NumberedState>>,
) -> Result<bool, OutOfMemory>
    requires numbers { AreNumbers lr.now.construction.rules numbers.now }
    requires start { IsKernelOf lr.now.construction numbers.now 0 start.now }
    requires list { AreListedAtPlaces lr.now.construction.rules lr.now.construction.start
        numbers.now states.now list.old.items }
    ensures { OnOk result (AreListedAtPlaces lr.now.construction.rules
        lr.now.construction.start numbers.now states.now list.new.items) }
{
    let mut work = Workspace::new(alloc);
    for count in 0..states.len() {
        let Some(place) = kernels.found(count, states.len()) else {
            return Ok(false);
        };
        let state = &states[place];
        let Some(kernel) = kernel_of(lr, numbers, start, kernels, place) else {
            return Ok(false);
        };
        let Some(new) = listed_state(alloc, lr, numbers, kernel, &mut work, state)? else {
            return Ok(false);
        };
        kernels.add_moves(numbers, count + 1, &new)?;
        list[place] = Some(new);
    }
    Ok(true)
}

/// The states by number. Each must be reached from the first, list the closure of its kernel, lead
/// by the symbols after its dots, and reduce its finished items. Else the result is `None`. A state
/// is listed after one that leads to it, whatever their numbers are.
pub(crate) fn listed_by_number<'grammar>(
    alloc: Global,
    lr: &Lr<'grammar, Nil>,
    numbers: &Numbers<'grammar>,
    states: &[Lr1State<'grammar>],
) -> Result<Option<Vec<NumberedState>>, OutOfMemory>
    requires { AreNumbers lr.now.construction.rules numbers.now }
    ensures { IfOk result (λ answer. IfSome answer (λ list. AreListedByNumber
        lr.now.construction.rules lr.now.construction.start numbers.now states.now list.items)) }
{
    let grammar = lr.grammar();
    let _names = grammar.nonterminals.len();
    let start = lr.start_kernel(alloc, numbers)?;
    let mut kernels = Kernels::new(alloc, states.len())?;
    let mut list = no_states(alloc, states.len())?;
    let is_whole = list_states(
        alloc,
        lr,
        numbers,
        states,
        start.as_slice(),
        &mut kernels,
        &mut list,
    )?;
    if !is_whole {
        return Ok(None);
    }
    all_listed(alloc, list)
}
