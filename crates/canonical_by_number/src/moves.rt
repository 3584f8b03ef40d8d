//! The kernels to which the symbols of a state lead, with sets of tokens by number.
ghost use Rattle.std.specs.Prelude.{◌++◌, ◌∷◌, [], ◌<◌, ◌≤◌, List, OnOk, length};
ghost use Rattle.lalrpop_base.specs.Words.{AddsKernels, AreEdges, AreGroupsOf, AreNumbered, AreNumbers, AreTransitions, Bits, NumbersAscend, Rules, groups_by, items_by, kernels_by};
ghost use Rattle.lalrpop_numbers.specs.declared.numbers.numbered.Numbered.{Numbered};
ghost use Rattle.canonical_by_number.specs.TokenSets.{AreSetsIn};
ghost use Rattle.canonical_by_number.specs.Closures.{entries_in, entry_in};
ghost use Rattle.canonical_by_number.specs.Edges.{AreOverSymbols, edges_in};
ghost use Rattle.canonical_by_number.specs.Kernels.{AreKernelsIn, AreMovesIn, ArePackedGroups, groups_in, kernels_in};

use crate::kernels::PackedKernels;
use crate::token_sets::{TokenSets, pair_of};
use lalrpop_base::collections::sparse_map::SparseMap;
use lalrpop_base::memory::OutOfMemory;
use lalrpop_base::numbers::Numbers;
use lalrpop_base::sequence::Sequence;
use std::alloc::Global;

/// For each symbol that is after a dot, by its number: the items with the dot moved over it. They
/// are packed.
pub type PackedMoves = SparseMap<Sequence<u64>>;

// Adds the item with its dot moved to `moves`, if there is a symbol after the dot.
fn add_move<'grammar>(
    alloc: Global,
    numbers: &Numbers<'grammar>,
    sets: &TokenSets,
    item: usize,
    tokens: usize,
    moves: &mut PackedMoves,
) -> Result<(), OutOfMemory>
    requires numbers { (g : Rules) × AreNumbers g numbers.now }
    requires few { length numbers.now.items.items ≤ 4294967296 }
    requires known { item < length numbers.now.items.items }
    requires tokens { tokens < length sets.now }
    ensures { OnOk result ((items : List (Numbered Bits)) →
        AreMovesIn numbers.now sets.now items moves.old →
        AreMovesIn numbers.now sets.now (items ++ entry_in sets.now (item, tokens) ∷ [])
        moves.new) }
{
    let _count = sets.len();
    if let Some(symbol) = numbers.behind[item] {
        moves.push_at(alloc, symbol, pair_of(item + 1, tokens))?;
    }
    Ok(())
}

// Fills `moves` with the items whose dot can move, with the dot moved, by the symbol over which it
// moved.
fn moves_of<'grammar>(
    alloc: Global,
    numbers: &Numbers<'grammar>,
    sets: &TokenSets,
    list: &[(usize, usize)],
    moves: &mut PackedMoves,
) -> Result<(), OutOfMemory>
    requires numbers { (g : Rules) × AreNumbers g numbers.now }
    requires few { length numbers.now.items.items ≤ 4294967296 }
    requires known { AreNumbered numbers.now.items.items (entries_in sets.now list.now) }
    requires sets { AreSetsIn sets.now list.now }
    ensures { OnOk result
        (AreMovesIn numbers.now sets.now (entries_in sets.now list.now) moves.new) }
{
    moves.clear();
    for entry in list {
        add_move(alloc, numbers, sets, entry.0, entry.1, moves)?;
    }
    Ok(())
}

// Replaces the contents of `edges` by an edge to each kernel: the number of its symbol, and its own.
// New kernels get numbers in the order of `groups`, which is sorted by symbol.
fn edges_of<'grammar>(
    numbers: &Numbers<'grammar>,
    sets: &TokenSets,
    groups: Vec<(usize, Sequence<u64>)>,
    kernels: &mut PackedKernels,
    edges: &mut Vec<(usize, usize)>,
) -> Result<(), OutOfMemory>
    requires numbers { (g : Rules) × AreNumbers g numbers.now }
    requires known { AreGroupsOf numbers.now (groups_in sets.now groups.items) }
    requires packed { ArePackedGroups sets.now groups.items }
    requires rising { NumbersAscend groups.items }
    requires kernels { AreKernelsIn numbers.now sets.now kernels.old.list }
    ensures kernels { OnOk result (AreKernelsIn numbers.now sets.now kernels.new.list) }
    ensures edges { OnOk result (AreEdges
        (groups_by numbers.now (groups_in sets.now groups.items))
        (kernels_by numbers.now.items.items (kernels_in sets.now kernels.new)).list
        (edges_in numbers.now.symbols.items edges.new.items)) }
    ensures reached { OnOk result (AddsKernels
        (groups_by numbers.now (groups_in sets.now groups.items))
        (kernels_by numbers.now.items.items (kernels_in sets.now kernels.old))
        (kernels_by numbers.now.items.items (kernels_in sets.now kernels.new))) }
    ensures known { OnOk result
        (AreOverSymbols numbers.now.symbols.items edges.new.items) }
{
    let _count = sets.len();
    let _symbols = numbers.symbols.len();
    edges.clear();
    for (symbol, items) in groups {
        let target = kernels.add_state(items)?;
        edges.push((symbol, target))?;
    }
    Ok(())
}

/// Replaces the contents of `edges` by the transitions of a state with the items: one for each
/// symbol that is after a dot, with the number of the kernel to which it leads. New kernels are
/// added to `kernels`. `OutOfMemory` if an allocation fails.
pub fn transitions<'grammar>(
    alloc: Global,
    numbers: &Numbers<'grammar>,
    sets: &TokenSets,
    list: &[(usize, usize)],
    kernels: &mut PackedKernels,
    moves: &mut PackedMoves,
    edges: &mut Vec<(usize, usize)>,
) -> Result<(), OutOfMemory>
    requires numbers { (g : Rules) × AreNumbers g numbers.now }
    requires few { length numbers.now.items.items ≤ 4294967296 }
    requires known { AreNumbered numbers.now.items.items (entries_in sets.now list.now) }
    requires sets { AreSetsIn sets.now list.now }
    requires kernels { AreKernelsIn numbers.now sets.now kernels.old.list }
    ensures kernels { OnOk result (AreKernelsIn numbers.now sets.now kernels.new.list) }
    ensures transitions { OnOk result (AreTransitions
        (items_by numbers.now.items.items (entries_in sets.now list.now))
        (kernels_by numbers.now.items.items (kernels_in sets.now kernels.old))
        (kernels_by numbers.now.items.items (kernels_in sets.now kernels.new))
        (edges_in numbers.now.symbols.items edges.new.items)) }
    ensures known { OnOk result
        (AreOverSymbols numbers.now.symbols.items edges.new.items) }
{
    moves_of(alloc, numbers, sets, list, moves)?;
    let groups = moves.take_rising(alloc)?;
    edges_of(numbers, sets, groups, kernels, edges)?;
    Ok(())
}
