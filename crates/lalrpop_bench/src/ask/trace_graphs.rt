//! Graphs of traces that arguments make.
use super::traces::{push_contained, push_examples};
use crate::show::trace_graph::push_trace_edges;
use grammar_text::symbols::{is_a_name, name_of};
use lalrpop_base::lr1_core::symbol_sets::SymbolSets;
use lalrpop_base::repr::grammar::Grammar;
use lalrpop_lr1::trace::{TraceGraph, TraceGraphNode};
use std::alloc::Global;
use table_questions::ask::items::item_of;
use table_questions::question::{Question, QuestionError};

/// Appends the results of the calls that the arguments of a question name, one after the other, on
/// one graph, and then the edges of the graph.
pub(crate) fn push_graph_of_words(
    alloc: Global,
    text: &mut String,
    question: &Question<'_>,
    grammar: &Grammar,
) -> Result<(), QuestionError> {
    let mut graph = TraceGraph::new(alloc);
    follow_words(alloc, text, &mut graph, grammar, question)?;
    Ok(push_trace_edges(text, graph.edges(), &grammar.terminals)?)
}

// Does what each argument asks for.
fn follow_words<'grammar>(
    alloc: Global,
    text: &mut String,
    graph: &mut TraceGraph<'grammar>,
    grammar: &'grammar Grammar,
    question: &Question<'_>,
) -> Result<(), QuestionError> {
    let mut number: usize = 1;
    for word in &question.arguments {
        follow_word(alloc, text, graph, grammar, word, number)?;
        number = number.saturating_add(1);
    }
    Ok(())
}

// Does what an argument asks for: whether an item is a node, the examples of an item, a new node,
// or a new edge.
fn follow_word<'grammar>(
    alloc: Global,
    text: &mut String,
    graph: &mut TraceGraph<'grammar>,
    grammar: &'grammar Grammar,
    word: &str,
    number: usize,
) -> Result<(), QuestionError> {
    if let Some(asked) = word.strip_prefix('?') {
        let item = item_of(grammar, asked, number)?;
        push_contained(text, grammar, graph, &item)?;
        return Ok(());
    }
    if let Some(asked) = word.strip_prefix('=') {
        push_examples(alloc, text, graph, item_of(grammar, asked, number)?)?;
        return Ok(());
    }
    if let Some((from, rest)) = word.split_once('/') {
        return add_edge(alloc, graph, grammar, (from, rest), number);
    }
    let node = node_of(alloc, grammar, word, number)?;
    let index = graph.add_node(node.clone(alloc)?)?;
    write!(text, "node {}\n", index.0)?;
    Ok(())
}

// Adds an edge between two nodes, without labels or with those of an item.
fn add_edge<'grammar>(
    alloc: Global,
    graph: &mut TraceGraph<'grammar>,
    grammar: &'grammar Grammar,
    (from, rest): (&str, &str),
    number: usize,
) -> Result<(), QuestionError> {
    let (to, labels) = match rest.split_once('/') {
        Some((to, item)) => (to, item_of(grammar, item, number)?.symbol_sets()),
        None => (rest, SymbolSets::new()),
    };
    let from = node_of(alloc, grammar, from, number)?;
    let to = node_of(alloc, grammar, to, number)?;
    graph.add_edge(from, to, labels)?;
    Ok(())
}

// The node that an argument names: a nonterminal or an item. After `&` the node is made from a
// reference to the item.
fn node_of<'grammar>(
    alloc: Global,
    grammar: &'grammar Grammar,
    word: &str,
    number: usize,
) -> Result<TraceGraphNode<'grammar>, QuestionError> {
    if is_a_name(word) {
        return Ok(TraceGraphNode::from(name_of(alloc, word)?));
    }
    if let Some(borrowed) = word.strip_prefix('&') {
        return Ok(TraceGraphNode::from(&item_of(grammar, borrowed, number)?));
    }
    Ok(TraceGraphNode::from(item_of(grammar, word, number)?))
}
