//! A step of a construction, which makes one state.
ghost use Rattle.std.specs.Prelude.{◌≡◌, ◌+◌, ◌++◌, ◌∷◌, [], List, length, map, IsTrue, IsFalse, IsNone, IfOk, IfSome, OnOk};
ghost use Rattle.lalrpop_base.specs.Words.{Dotted, Rules, AreAllNumbered, AreNumbered, AreNumbers, items_by, kernels_by, IsBuiltBy, Extends};
ghost use Rattle.lalrpop_construction.specs.construction.Building.{AreMadeSoFar};
ghost use Rattle.lalrpop_base.specs.Words.{LeadsToAdded, state_entries, reductions_of, seen_reduction, AreItemsBy, IsClosureBy};
ghost use Rattle.lalrpop_states.specs.declared.lr1_core.state.State.{State as Made};
ghost use Rattle.lalrpop_construction.specs.states.NumberedStates.{AreEdgesBy, IsMadeByNumber};

use super::closure::closure;
use super::lookahead_build::LookaheadBuild;
use super::lr::Lr;
use super::numbered::{NumberedKernels, list_numbers};
use super::reductions::reductions;
use super::transitions::{Moves, transitions};
use super::workspace::Workspace;
use lalrpop_base::lookahead::Lookahead;
use lalrpop_base::lr1_core::item::Item;
use lalrpop_base::lr1_core::state::{Items, State, StateIndex};
use lalrpop_base::lr1_core::transitions::Transitions;
use lalrpop_base::memory::OutOfMemory;
use lalrpop_base::numbers::Numbers;
use lalrpop_base::numbers::numbered::Numbered;
use std::alloc::Global;

// The items that are given by number.
fn items_of<'grammar, L: Lookahead>(
    alloc: Global,
    numbers: &Numbers<'grammar>,
    list: Vec<Numbered<L>>,
) -> Result<Vec<Item<'grammar, L>>, OutOfMemory>
    requires { AreNumbered numbers.now.items.items list.items }
    ensures { IfOk result
        (λ items. items.items ≡ items_by numbers.now.items.items list.items) }
{
    let mut items = Vec::with_capacity(alloc, list.len())?;
    for item in list {
        items.push(numbers.items[item.number].with_lookahead(item.lookahead))?;
    }
    Ok(items)
}

// The state with the number and the items, which are given by number. The transitions by number are
// left in `edges`.
fn state_of<'grammar, L: LookaheadBuild>(
    alloc: Global,
    numbers: &Numbers<'grammar>,
    list: Vec<Numbered<L>>,
    number: usize,
    kernels: &mut NumberedKernels<L>,
    moves: &mut Moves<L>,
    edges: &mut Vec<(usize, usize)>,
) -> Result<State<'grammar, L>, OutOfMemory>
    requires numbers { (g : Rules) × AreNumbers g numbers.now }
    requires known { AreNumbered numbers.now.items.items list.items }
    requires kernels { AreAllNumbered numbers.now.items.items kernels.old.list }
    ensures known { OnOk result (AreAllNumbered numbers.now.items.items kernels.new.list) }
    ensures items { IfOk result
        (λ state. state.items.vec.items ≡ items_by numbers.now.items.items list.items) }
    ensures built { IfOk result (λ state. (g : Rules) (kernel : List (Dotted L)) →
        IsClosureBy L.meaning L.begins L.passes g kernel state.items.vec.items →
        IsBuiltBy (IsClosureBy L.meaning L.begins L.passes g)
        (kernels_by numbers.now.items.items kernels.new).list kernel number state) }
    ensures extends { IfOk result (λ state. (g : Rules) →
        AreItemsBy L.meaning g state.items.vec.items →
        Extends L.meaning g (kernels_by numbers.now.items.items kernels.old)
        (kernels_by numbers.now.items.items kernels.new)) }
    ensures led { IfOk result
        (LeadsToAdded (kernels_by numbers.now.items.items kernels.old)
        (kernels_by numbers.now.items.items kernels.new)) }
    ensures by_number { IfOk result (λ state. AreEdgesBy numbers.now.symbols.items edges.new.items
        (state_entries state)) }
    ensures finished { IfOk result
        (λ state. map seen_reduction state.reductions.items ≡ reductions_of state.items.vec.items) }
{
    let Transitions { shifts, gotos } = transitions(alloc, numbers, &list, kernels, moves, edges)?;
    let items = items_of(alloc, numbers, list)?;
    let reductions = reductions(alloc, &items)?;
    Ok(State {
        index: StateIndex(number),
        items: Items { vec: items },
        shifts,
        reductions,
        gotos,
    })
}

/// Makes the state of the next kernel, if one is left. The items and transitions of the state by
/// number are left in `work`. `OutOfMemory` if an allocation fails.
pub(super) fn next_state<'grammar, L: LookaheadBuild>(
    alloc: Global,
    lr: &Lr<'grammar, L>,
    numbers: &Numbers<'grammar>,
    kernels: &mut NumberedKernels<L>,
    work: &mut Workspace<L>,
) -> Result<Option<State<'grammar, L>>, OutOfMemory>
    requires numbers { AreNumbers lr.now.construction.rules numbers.now }
    requires made { (states : List (Made L)) × AreMadeSoFar L.meaning L.begins L.passes
        lr.now.construction numbers.now.items.items kernels.old states }
    ensures made { IfOk result (λ next. IfSome next (λ state. (states : List (Made L)) →
        AreMadeSoFar L.meaning L.begins L.passes lr.now.construction numbers.now.items.items
        kernels.old states →
        AreMadeSoFar L.meaning L.begins L.passes lr.now.construction numbers.now.items.items
        kernels.new (states ++ state ∷ []))) }
    ensures by_number { IfOk result (λ next. IfSome next
        (IsMadeByNumber numbers.now work.new.numbers.items work.new.edges.items)) }
    ensures counted { IfOk result
        (λ next. IfSome next (λ state. kernels.new.handed ≡ kernels.old.handed + 1)) }
    ensures none { IfOk result (λ next. IsNone next → kernels.new ≡ kernels.old) }
    ensures all { IfOk result
        (λ next. IsNone next → kernels.new.handed ≡ length kernels.new.list) }
{
    let Some(number) = kernels.next() else {
        return Ok(None);
    };
    let list = closure(alloc, lr, numbers, kernels.items(number), work)?;
    list_numbers(&list, &mut work.numbers)?;
    let state = state_of(
        alloc,
        numbers,
        list,
        number,
        kernels,
        &mut work.moves,
        &mut work.edges,
    )?;
    Ok(Some(state))
}

/// Adds the state of the next kernel, if one is left, and returns whether one was. The items and
/// transitions of the state by number are left in `work`. `OutOfMemory` if an allocation fails.
pub(super) fn add_state<'grammar, L: LookaheadBuild>(
    alloc: Global,
    lr: &Lr<'grammar, L>,
    numbers: &Numbers<'grammar>,
    kernels: &mut NumberedKernels<L>,
    states: &mut Vec<State<'grammar, L>>,
    work: &mut Workspace<L>,
) -> Result<bool, OutOfMemory>
    requires numbers { AreNumbers lr.now.construction.rules numbers.now }
    requires made { AreMadeSoFar L.meaning L.begins L.passes lr.now.construction
        numbers.now.items.items kernels.old states.old.items }
    ensures made { OnOk result (AreMadeSoFar L.meaning L.begins L.passes lr.now.construction
        numbers.now.items.items kernels.new states.new.items) }
    ensures more { IfOk result (λ more. IsTrue more →
        (state : Made L) × (states.new.items ≡ states.old.items ++ state ∷ []) ×
        IsMadeByNumber numbers.now work.new.numbers.items work.new.edges.items state) }
    ensures counted { IfOk result
        (λ more. IsTrue more → kernels.new.handed ≡ kernels.old.handed + 1) }
    ensures none { IfOk result
        (λ more. IsFalse more → states.new.items ≡ states.old.items) }
    ensures all { IfOk result
        (λ more. IsFalse more → kernels.new.handed ≡ length kernels.new.list) }
{
    let Some(state) = next_state(alloc, lr, numbers, kernels, work)? else {
        return Ok(false);
    };
    states.push(state)?;
    Ok(true)
}
