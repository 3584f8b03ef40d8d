//! The transitions of a state.
ghost use Rattle.std.specs.Prelude.{◌<◌, IfOk, OnOk, length, Some};
ghost use Rattle.lalrpop_base.specs.Words.{Rules, AreAllNumbered, AreGroupsOf, AreNumbered, AreNumbers, NumbersAscend, groups_by, item_by, items_by, kernels_by};
ghost use Rattle.lalrpop_base.specs.Words.{AreEdges, AreMoves, AreTransitions, IsMoveAdded, edge_entries, AddsKernels};
ghost use Rattle.lalrpop_construction.specs.states.NumberedStates.{AreEdgesBy};

use super::numbered::{NumberedKernel, NumberedKernels};
use lalrpop_base::collections::sparse_map::SparseMap;
use lalrpop_base::lookahead::Lookahead;
use lalrpop_base::lr1_core::transitions::{TransitionLists, Transitions, add_edge, edge_maps};
use lalrpop_base::memory::OutOfMemory;
use lalrpop_base::numbers::Numbers;
use lalrpop_base::numbers::numbered::Numbered;
use lalrpop_base::sequence::Sequence;
use std::alloc::Global;

/// For each symbol that is after a dot, by its number: the items with the dot moved over it.
pub type Moves<L> = SparseMap<Sequence<Numbered<L>>>;

// Adds the item with its dot moved to `moves`, if there is a symbol after the dot.
fn add_move<'grammar, L: Lookahead>(
    alloc: Global,
    numbers: &Numbers<'grammar>,
    item: &Numbered<L>,
    moves: &mut Moves<L>,
) -> Result<(), OutOfMemory>
    requires numbers { (g : Rules) × AreNumbers g numbers.now }
    requires known { item.now.number < length numbers.now.items.items }
    ensures known { OnOk result
        (AreGroupsOf numbers.now moves.old → AreGroupsOf numbers.now moves.new) }
    ensures added { OnOk result (AreGroupsOf numbers.now moves.old →
        IsMoveAdded (item_by numbers.now.items.items item.now)
        (groups_by numbers.now moves.old) (groups_by numbers.now moves.new)) }
{
    if let Some(symbol) = numbers.behind[item.number] {
        let moved = Numbered {
            number: item.number + 1,
            lookahead: item.lookahead.copy(alloc)?,
        };
        moves.push_at(alloc, symbol, moved)?;
    }
    Ok(())
}

// Fills `moves` with the items whose dot can move, with the dot moved, by the symbol over which it
// moved.
fn moves_of<'grammar, L: Lookahead>(
    alloc: Global,
    numbers: &Numbers<'grammar>,
    items: &[Numbered<L>],
    moves: &mut Moves<L>,
) -> Result<(), OutOfMemory>
    requires numbers { (g : Rules) × AreNumbers g numbers.now }
    requires known { AreNumbered numbers.now.items.items items.now }
    ensures known { OnOk result (AreGroupsOf numbers.now moves.new) }
    ensures moves { OnOk result (AreMoves (items_by numbers.now.items.items items.now)
        (groups_by numbers.now moves.new)) }
{
    moves.clear();
    for item in items {
        add_move(alloc, numbers, item, moves)?;
    }
    Ok(())
}

// A transition to the state of each kernel, in maps and, in `list`, by number. New kernels get
// numbers in the order of `moves`, which is sorted by symbol.
fn edges_of<'grammar, L: Lookahead>(
    alloc: Global,
    numbers: &Numbers<'grammar>,
    moves: Vec<(usize, Sequence<Numbered<L>>)>,
    kernels: &mut NumberedKernels<L>,
    list: &mut Vec<(usize, usize)>,
) -> Result<Transitions, OutOfMemory>
    requires numbers { (g : Rules) × AreNumbers g numbers.now }
    requires known { AreGroupsOf numbers.now moves.items }
    requires rising { NumbersAscend moves.items }
    requires kernels { AreAllNumbered numbers.now.items.items kernels.old.list }
    ensures known { OnOk result (AreAllNumbered numbers.now.items.items kernels.new.list) }
    ensures edges { IfOk result (λ edges. AreEdges (groups_by numbers.now moves.items)
        (kernels_by numbers.now.items.items kernels.new).list edges) }
    ensures reached { OnOk result (AddsKernels (groups_by numbers.now moves.items)
        (kernels_by numbers.now.items.items kernels.old)
        (kernels_by numbers.now.items.items kernels.new)) }
    ensures by_number { IfOk result (λ edges. AreEdgesBy numbers.now.symbols.items list.new.items
        (edge_entries edges)) }
{
    list.clear();
    let mut lists = TransitionLists {
        shifts: Vec::new(alloc),
        gotos: Vec::new(alloc),
    };
    for (symbol, items) in moves {
        let target = kernels.add_state(NumberedKernel::new(items))?;
        add_edge(numbers.symbols[symbol].clone(alloc)?, target, &mut lists)?;
        list.push((symbol, target.0))?;
    }
    edge_maps(alloc, lists)
}

/// The transitions of a state with the items: one for each symbol that is after a dot. The kernels
/// to which they lead are added to `kernels`. The same transitions by number are left in `list`.
/// `OutOfMemory` if an allocation fails.
pub fn transitions<'grammar, L: Lookahead>(
    alloc: Global,
    numbers: &Numbers<'grammar>,
    items: &[Numbered<L>],
    kernels: &mut NumberedKernels<L>,
    moves: &mut Moves<L>,
    list: &mut Vec<(usize, usize)>,
) -> Result<Transitions, OutOfMemory>
    requires numbers { (g : Rules) × AreNumbers g numbers.now }
    requires known { AreNumbered numbers.now.items.items items.now }
    requires kernels { AreAllNumbered numbers.now.items.items kernels.old.list }
    ensures known { OnOk result (AreAllNumbered numbers.now.items.items kernels.new.list) }
    ensures transitions { IfOk result (AreTransitions (items_by numbers.now.items.items items.now)
        (kernels_by numbers.now.items.items kernels.old)
        (kernels_by numbers.now.items.items kernels.new)) }
    ensures by_number { IfOk result (λ edges. AreEdgesBy numbers.now.symbols.items list.new.items
        (edge_entries edges)) }
{
    moves_of(alloc, numbers, items, moves)?;
    let moves = moves.take_rising(alloc)?;
    let edges = edges_of(alloc, numbers, moves, kernels, list)?;
    Ok(edges)
}
