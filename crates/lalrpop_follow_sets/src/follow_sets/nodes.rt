//! The nodes of the follow graph: nonterminals in states.
ghost use Rattle.std.specs.Prelude.{◌≡◌, ◌<◌, ◌++◌, ℕ, length, slice_get, Some, Contains, IfOk, OnOk};
ghost use Rattle.lalrpop_follow_sets.specs.follow_sets.FollowNodes.{AreNodes, AreTransitionNodes, IsNonterminalOrCount, nonterminals_of};
ghost use Rattle.lalrpop_base.specs.Words.{SymbolsAscend};
ghost use Rattle.lalrpop_construction.specs.declared.construction.numbered_state.NumberedState.{NumberedState as ByNumbers};

use super::edges::place_of;
use lalrpop_base::memory::OutOfMemory;
use lalrpop_base::repr::Symbol;
use lalrpop_construction::construction::numbered_state::NumberedState;
use std::alloc::Global;

/// The nodes, by number. Each state has a node for each of its transitions over nonterminals. The
/// start symbol has a node in state 0 too, if state 0 has no transition over it.
#[derive(Drop)]
pub(super) struct Nodes {
    /// For each state the number of its first node.
    pub(super) firsts: Vec<usize>,
    /// For each node its state and the number of its nonterminal.
    pub(super) pairs: Vec<(usize, usize)>,
}

// Appends the nodes of a state to `pairs`: one for each transition over a nonterminal. The
// transitions over nonterminals come first in `edges`.
fn add_nodes(
    symbols: &[Symbol],
    state: usize,
    edges: &[(usize, usize)],
    pairs: &mut Vec<(usize, usize)>,
) -> Result<(), OutOfMemory>
    requires { (x target : ℕ) → Contains edges.now (x, target) → x < length symbols.now }
    ensures { OnOk result
        (pairs.new.items ≡ pairs.old.items ++ nonterminals_of symbols.now state edges.now) }
{
    for edge in edges {
        match symbols[edge.0] {
            Symbol::Nonterminal(_) => pairs.push((state, edge.0))?,
            Symbol::Terminal(_) => return Ok(()),
        }
    }
    Ok(())
}

// The nodes of the transitions over nonterminals.
fn transition_nodes(
    alloc: Global,
    symbols: &[Symbol],
    states: &[NumberedState],
) -> Result<Nodes, OutOfMemory>
    requires symbols { SymbolsAscend symbols.now }
    requires named { (s x target : ℕ) (state : ByNumbers) →
        slice_get states.now s ≡ Some state →
        Contains state.edges.items (x, target) →
        x < length symbols.now }
    ensures { IfOk result (AreTransitionNodes symbols.now states.now) }
{
    let mut firsts = Vec::new(alloc);
    let mut pairs = Vec::new(alloc);
    for state in 0..states.len() {
        firsts.push(pairs.len())?;
        add_nodes(symbols, state, &states[state].edges, &mut pairs)?;
    }
    Ok(Nodes { firsts, pairs })
}

/// The nodes of the transitions over nonterminals, and the node of the start symbol in state 0.
pub(super) fn nodes_of(
    alloc: Global,
    symbols: &[Symbol],
    states: &[NumberedState],
    start: usize,
) -> Result<Nodes, OutOfMemory>
    requires symbols { SymbolsAscend symbols.now }
    requires named { (s x target : ℕ) (state : ByNumbers) →
        slice_get states.now s ≡ Some state →
        Contains state.edges.items (x, target) →
        x < length symbols.now }
    requires some { 0 < length states.now }
    requires start { IsNonterminalOrCount symbols.now start }
    ensures { IfOk result (AreNodes symbols.now start states.now) }
{
    let mut nodes = transition_nodes(alloc, symbols, states)?;
    if place_of(&states[0].edges, start).is_none() {
        nodes.pairs.push((0, start))?;
    }
    Ok(nodes)
}
