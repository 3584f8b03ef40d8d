//! The graphs of traces.
use lalrpop_base::memory::OutOfMemory;
use lalrpop_base::repr::terminals::TerminalSet;
use lalrpop_lr1::trace::{TraceGraphEdge, TraceGraphNode};
use table_questions::show::words::{push_item, push_list};

/// Appends edges, each on a line of its own.
pub(crate) fn push_trace_edges(
    text: &mut String,
    edges: &[TraceGraphEdge<'_>],
    terminals: &TerminalSet,
) -> Result<(), OutOfMemory> {
    for edge in edges {
        push_trace_edge(text, edge, terminals)?;
    }
    Ok(())
}

// Appends an edge: its nodes, and its labels, which are the symbols before, at and after the
// cursor.
fn push_trace_edge(
    text: &mut String,
    edge: &TraceGraphEdge<'_>,
    terminals: &TerminalSet,
) -> Result<(), OutOfMemory> {
    text.push_str("edge ")?;
    push_node(text, &edge.from, terminals)?;
    text.push_str(" to ")?;
    push_node(text, &edge.to, terminals)?;
    text.push_str(" prefix")?;
    push_list(text, edge.symbol_sets.prefix)?;
    match edge.symbol_sets.cursor {
        Some(symbol) => write!(text, " cursor {symbol} suffix")?,
        None => text.push_str(" cursor - suffix")?,
    }
    push_list(text, edge.symbol_sets.suffix)?;
    text.push_str("\n")?;
    Ok(())
}

// Appends a node: a nonterminal or an item.
fn push_node(
    text: &mut String,
    node: &TraceGraphNode<'_>,
    terminals: &TerminalSet,
) -> Result<(), OutOfMemory> {
    match node {
        TraceGraphNode::Nonterminal(name) => {
            write!(text, "{name}")?;
            Ok(())
        }
        TraceGraphNode::Item(item) => push_item(text, item, terminals),
    }
}
