//! The graph of the states, for Graphviz.
ghost use Rattle.std.specs.Prelude.{◌≡◌, ◌++◌, IfOk, OnOk, string_bytes};
ghost use Rattle.std.specs.List.{flat_map};
ghost use Rattle.table_pictures.specs.Edges.{graph_edges};
ghost use Rattle.table_pictures.specs.Graphs.{edge_count, graph, layout_of, leads_by, leads_there, shown_node, shows_state};

use super::edges::{ShownStates, push_edges};
use super::nodes::push_node;
use super::rounds::flag_at;
use lalrpop_base::lr1_core::state::{Lr1Conflict, Lr1State, StateIndex};
use lalrpop_base::memory::OutOfMemory;
use lalrpop_base::repr::NonterminalString;
use lalrpop_base::repr::terminals::TerminalSet;
use std::alloc::Global;
use std::collections::BTreeMap;

/// The text of the graph of the states that are shown. `OutOfMemory` if an allocation fails.
pub fn graph_text<'grammar>(
    alloc: Global,
    start: &NonterminalString,
    terminals: &TerminalSet,
    states: &[Lr1State<'grammar>],
    conflicts: &[Lr1Conflict<'grammar>],
    shown: &ShownStates,
) -> Result<String, OutOfMemory>
    ensures { IfOk result (λ text. string_bytes text ≡ graph start.now terminals.now states.now
        conflicts.now shown.now) }
{
    let mut text = String::new(alloc);
    text.push_str(OPENING)?;
    text.push_str(layout(states, shown))?;
    push_nodes(alloc, &mut text, start, states, conflicts, terminals, shown)?;
    push_all_edges(&mut text, states, conflicts, shown)?;
    text.push_str("}\n")?;
    Ok(text)
}

// The beginning of a graph.
const OPENING: &str =
    "digraph states {\n  node [shape=box fontname=monospace];\n  edge [fontname=monospace];\n";

// The greatest number of edges of a graph that is not large. A large one is laid out with less
// care.
const MOST_EDGES: usize = 200;

// How a graph is laid out. A graph of all states goes from top to bottom, with straight edges if
// there are many. A graph of some states goes from left to right, so that the many neighbours of a
// state are one below the other.
fn layout(states: &[Lr1State<'_>], shown: &ShownStates) -> &'static str
    ensures { result.now ≡ layout_of states.now shown.now }
{
    match shown {
        ShownStates::All if edge_count(states) > MOST_EDGES => {
            "  graph [splines=line nslimit=1 nslimit1=1 mclimit=0.2];\n"
        }
        ShownStates::All => "",
        ShownStates::Around(_) | ShownStates::Only(_) => "  rankdir=LR;\n",
    }
}

/// How many shifts and gotos states have, at most the greatest `usize`.
pub fn edge_count(states: &[Lr1State<'_>]) -> usize
    ensures { result ≡ edge_count states.now }
{
    let mut count: usize = 0;
    for state in states {
        count = count
            .saturating_add(state.shifts.len())
            .saturating_add(state.gotos.len());
    }
    count
}

// Appends the nodes of the states that are shown.
fn push_nodes<'grammar>(
    alloc: Global,
    text: &mut String,
    start: &NonterminalString,
    states: &[Lr1State<'grammar>],
    conflicts: &[Lr1Conflict<'grammar>],
    terminals: &TerminalSet,
    shown: &ShownStates,
) -> Result<(), OutOfMemory>
    ensures { OnOk result (string_bytes text.new ≡ string_bytes text.old ++ flat_map
        (shown_node start.now terminals.now states.now conflicts.now shown.now) states.now) }
{
    for state in states {
        push_shown_node(
            alloc, text, start, states, conflicts, terminals, shown, state,
        )?;
    }
    Ok(())
}

// Appends the node of a state, if the state is shown.
fn push_shown_node<'grammar>(
    alloc: Global,
    text: &mut String,
    start: &NonterminalString,
    states: &[Lr1State<'grammar>],
    conflicts: &[Lr1Conflict<'grammar>],
    terminals: &TerminalSet,
    shown: &ShownStates,
    state: &Lr1State<'grammar>,
) -> Result<(), OutOfMemory>
    ensures { OnOk result (string_bytes text.new ≡ string_bytes text.old ++ shown_node start.now
        terminals.now states.now conflicts.now shown.now state.now) }
{
    if is_shown(states, shown, state) {
        push_node(alloc, text, start, state, conflicts, terminals)?;
    }
    Ok(())
}

// Whether a state is shown.
fn is_shown(states: &[Lr1State<'_>], shown: &ShownStates, state: &Lr1State<'_>) -> bool
    ensures { result ≡ shows_state states.now shown.now state.now }
{
    match shown {
        ShownStates::All => true,
        ShownStates::Around(number) => is_near(states, *number, state),
        ShownStates::Only(flags) => flag_at(flags, state.index.0, false),
    }
}

// Whether a state has the number, has an edge to the state with the number, or is the target of an
// edge of that state.
fn is_near(states: &[Lr1State<'_>], number: usize, state: &Lr1State<'_>) -> bool
    ensures { result ≡ shows_state states.now (ShownStates.Around number) state.now }
{
    state.index.0 == number
        || leads_to(state, number)
        || (number < states.len() && leads_to(&states[number], state.index.0))
}

// Whether an edge of a state leads to the state with a number.
fn leads_to(state: &Lr1State<'_>, number: usize) -> bool
    ensures { result ≡ leads_there number state.now }
{
    has_target(&state.shifts, number) || has_target(&state.gotos, number)
}

// Whether one of the edges leads to the state with a number.
fn has_target<K: Ord>(edges: &BTreeMap<K, StateIndex>, number: usize) -> bool
    ensures { result ≡ leads_by number edges.now.entries }
{
    edges.values().any(|target| target.0 == number)
}

// Appends the edges that are shown of each state.
fn push_all_edges<'grammar>(
    text: &mut String,
    states: &[Lr1State<'grammar>],
    conflicts: &[Lr1Conflict<'grammar>],
    shown: &ShownStates,
) -> Result<(), OutOfMemory>
    ensures { OnOk result (string_bytes text.new ≡ string_bytes text.old ++ flat_map
        (graph_edges conflicts.now shown.now) states.now) }
{
    for state in states {
        push_edges(text, state, conflicts, shown)?;
    }
    Ok(())
}
