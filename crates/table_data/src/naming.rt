//! How a JSON text names tokens and token sets.
ghost use Rattle.std.specs.Prelude.{◌≡◌, [], IfOk, OnOk};
ghost use Rattle.std.specs.List.{flat_map};
ghost use Rattle.table_data.specs.Naming.{all_tokens, conflict_sets, item_sets, named_sets, reduction_sets, state_sets};
ghost use Rattle.table_data.specs.Sets.{AddsSets};

use super::sets::TokenSets;
use lalrpop_base::lookahead::token_set::TokenSet;
use lalrpop_base::lr1_core::item::Lr1Item;
use lalrpop_base::lr1_core::state::{Lr1Conflict, Lr1State};
use lalrpop_base::memory::OutOfMemory;
use lalrpop_base::repr::Production;
use lalrpop_base::repr::terminals::TerminalSet;
use std::alloc::Global;

/// The terminals of a grammar, by which tokens are named, and token sets, which are named by their
/// numbers.
#[derive(Drop)]
pub(crate) struct Naming<'terminals> {
    pub(crate) terminals: &'terminals TerminalSet,
    /// Each terminal, and the end of the input.
    pub(crate) all: TokenSet,
    pub(crate) sets: TokenSets,
    ghost is_all: { all ≡ all_tokens terminals.now },
}

/// The naming by terminals of the token sets that states and conflicts name. `OutOfMemory` if an
/// allocation fails.
pub(crate) fn naming_of<'terminals>(
    alloc: Global,
    terminals: &'terminals TerminalSet,
    states: &[Lr1State<'_>],
    conflicts: &[Lr1Conflict<'_>],
) -> Result<Naming<'terminals>, OutOfMemory>
    ensures terminals { IfOk result (λ naming. naming.terminals.now ≡ terminals.now) }
    ensures sets { IfOk result (λ naming. AddsSets
        (named_sets terminals.now states.now conflicts.now) [] naming.sets) }
{
    let all = all_tokens(alloc, terminals)?;
    let mut sets = TokenSets::new(alloc);
    add_states(alloc, &mut sets, &all, states)?;
    add_conflicts(alloc, &mut sets, conflicts)?;
    Ok(Naming {
        terminals,
        all,
        sets,
    })
}

// The set of each terminal and the end of the input.
fn all_tokens(alloc: Global, terminals: &TerminalSet) -> Result<TokenSet, OutOfMemory>
    ensures { IfOk result (λ all. all ≡ all_tokens terminals.now) }
{
    let all = TokenSet::all(alloc, terminals)?;
    Ok(all)
}

// Adds the sets that states name.
fn add_states(
    alloc: Global,
    sets: &mut TokenSets,
    all: &TokenSet,
    states: &[Lr1State<'_>],
) -> Result<(), OutOfMemory>
    ensures { OnOk result
        (AddsSets (flat_map (state_sets all.now) states.now) sets.old sets.new) }
{
    for state in states {
        add_state(alloc, sets, all, state)?;
    }
    Ok(())
}

// Adds the sets that a state names.
fn add_state(
    alloc: Global,
    sets: &mut TokenSets,
    all: &TokenSet,
    state: &Lr1State<'_>,
) -> Result<(), OutOfMemory>
    ensures { OnOk result (AddsSets (state_sets all.now state.now) sets.old sets.new) }
{
    add_items(alloc, sets, all, &state.items.vec)?;
    add_reductions(alloc, sets, &state.reductions)?;
    Ok(())
}

// Adds the sets that items name.
fn add_items(
    alloc: Global,
    sets: &mut TokenSets,
    all: &TokenSet,
    items: &[Lr1Item<'_>],
) -> Result<(), OutOfMemory>
    ensures { OnOk result (AddsSets (flat_map (item_sets all.now) items.now) sets.old sets.new) }
{
    for item in items {
        add_item(alloc, sets, all, item)?;
    }
    Ok(())
}

// Adds the set of an item, unless it has all tokens.
fn add_item(
    alloc: Global,
    sets: &mut TokenSets,
    all: &TokenSet,
    item: &Lr1Item<'_>,
) -> Result<(), OutOfMemory>
    ensures { OnOk result (AddsSets (item_sets all.now item.now) sets.old sets.new) }
{
    if item.lookahead == *all {
        return Ok(());
    }
    sets.add(alloc, &item.lookahead)
}

// Adds the sets of reductions.
fn add_reductions(
    alloc: Global,
    sets: &mut TokenSets,
    reductions: &[(TokenSet, &Production)],
) -> Result<(), OutOfMemory>
    ensures { OnOk result (AddsSets (flat_map reduction_sets reductions.now) sets.old sets.new) }
{
    for reduction in reductions {
        sets.add(alloc, &reduction.0)?;
    }
    Ok(())
}

// Adds the sets of conflicts.
fn add_conflicts(
    alloc: Global,
    sets: &mut TokenSets,
    conflicts: &[Lr1Conflict<'_>],
) -> Result<(), OutOfMemory>
    ensures { OnOk result (AddsSets (flat_map conflict_sets conflicts.now) sets.old sets.new) }
{
    for conflict in conflicts {
        sets.add(alloc, &conflict.lookahead)?;
    }
    Ok(())
}
