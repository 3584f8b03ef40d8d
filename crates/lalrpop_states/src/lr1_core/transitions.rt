//! The transitions of a state, as lists and as maps.
ghost use Rattle.std.specs.Prelude.{IfOk, OnOk};
ghost use Rattle.lalrpop_states.specs.construction.Transitions.{AreEdgesListed, IsEntryAdded, list_entries};

use super::state::StateIndex;
use lalrpop_collections::memory::OutOfMemory;
use lalrpop_grammar::repr::{NonterminalString, Symbol, TerminalString};
use std::alloc::Global;
use std::collections::BTreeMap;

/// The transitions of a state, as maps.
#[derive(Drop)]
pub struct Transitions {
    pub shifts: BTreeMap<TerminalString, StateIndex>,
    pub gotos: BTreeMap<NonterminalString, StateIndex>,
}

/// Transitions as lists, in the order in which they were added.
#[derive(Drop)]
pub struct TransitionLists {
    pub shifts: Vec<(TerminalString, StateIndex)>,
    pub gotos: Vec<(NonterminalString, StateIndex)>,
}

/// Adds a transition after the others of its kind, which is shift or goto. `OutOfMemory` if an
/// allocation fails.
pub fn add_edge(
    symbol: Symbol,
    target: StateIndex,
    lists: &mut TransitionLists,
) -> Result<(), OutOfMemory>
    ensures { OnOk result
        (IsEntryAdded symbol target (list_entries lists.old) (list_entries lists.new)) }
{
    match symbol {
        Symbol::Nonterminal(name) => {
            lists.gotos.push((name, target))?;
        }
        Symbol::Terminal(terminal) => {
            lists.shifts.push((terminal, target))?;
        }
    }
    Ok(())
}

/// The transitions as maps. If two are over the same symbol, the later one counts. `OutOfMemory` if
/// an allocation fails.
pub fn edge_maps(alloc: Global, lists: TransitionLists) -> Result<Transitions, OutOfMemory>
    ensures { IfOk result (AreEdgesListed lists) }
{
    Ok(Transitions {
        shifts: BTreeMap::from_iter(alloc, lists.shifts)?,
        gotos: BTreeMap::from_iter(alloc, lists.gotos)?,
    })
}
