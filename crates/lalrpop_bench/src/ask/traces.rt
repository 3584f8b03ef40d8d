//! Questions on traces: how a state came to have an item, and examples of input.
ghost use Rattle.lalrpop_base.specs.Words.{IsWellFormed};
ghost use Rattle.lalrpop_lr1.specs.Words.{AreKnownEdges};

use super::trace_graphs::push_graph_of_words;
use crate::show::example::push_example;
use crate::show::trace_graph::push_trace_edges;
use lalrpop_base::first::FirstSets;
use lalrpop_base::lr1_core::item::Lr0Item;
use lalrpop_base::lr1_core::state::{Lr1State, StateIndex};
use lalrpop_base::memory::OutOfMemory;
use lalrpop_base::repr::grammar::Grammar;
use lalrpop_base::repr::terminals::TerminalSet;
use lalrpop_lr1::trace::{PathEnumerator, TraceGraph, Tracer};
use lalrpop_tables::build::Options;
use lalrpop_tables::lr1::build_states;
use std::alloc::Global;
use table_questions::ask::arguments::{method_at, tokens_between};
use table_questions::ask::checks::states_of;
use table_questions::ask::items::item_of;
use table_questions::ask::states::start_of;
use table_questions::question::{Question, QuestionError};
use table_questions::show::words::{push_item, push_tokens};

// The greatest number of examples that are shown.
const MOST: usize = 12;

/// Appends the result of a question on traces. Returns `false` if the call has another name.
pub(crate) fn answer(
    alloc: Global,
    text: &mut String,
    question: &Question<'_>,
    grammar: &Grammar,
) -> Result<bool, QuestionError>
    requires { IsWellFormed grammar.now }
{
    match question.call {
        "backtrace" | "contains" | "lr0_examples" | "lr1_examples" | "walk" => {
            answer_of_grammar(alloc, text, question, grammar)?;
        }
        "trace_graph" => push_graph_of_words(alloc, text, question, grammar)?,
        _ => return Ok(false),
    }
    Ok(true)
}

// Appends the result of a question on the states of a grammar, with or without conflicts.
fn answer_of_grammar(
    alloc: Global,
    text: &mut String,
    question: &Question<'_>,
    grammar: &Grammar,
) -> Result<(), QuestionError>
    requires { IsWellFormed grammar.now }
{
    let start = start_of(alloc, question, 1)?;
    let options = Options {
        method: method_at(question, 2)?,
        ..Options::default()
    };
    let states = states_of(build_states(alloc, grammar, start, &options))?;
    answer_of_states(alloc, text, question, grammar, &states)
}

// Appends the result of a question on the trace of an item of a state.
fn answer_of_states<'grammar>(
    alloc: Global,
    text: &mut String,
    question: &Question<'_>,
    grammar: &'grammar Grammar,
    states: &[Lr1State<'grammar>],
) -> Result<(), QuestionError>
    requires { IsWellFormed grammar.now }
{
    let state = StateIndex(question.number(4)?);
    if state.0 >= states.len() {
        return Err(QuestionError::Argument(4));
    }
    let item = item_of(grammar, question.argument(5)?, 5)?;
    let first_sets = FirstSets::new(alloc, grammar)?;
    let tracer = Tracer::new(alloc, &first_sets, states)?;
    let graph = match question.argument(3)? {
        "shift" => tracer.backtrace_shift(alloc, state, item.to_lr0())?,
        "reduce" => tracer.backtrace_reduce(alloc, state, item.to_lr0())?,
        _ => return Err(QuestionError::Argument(3)),
    };
    answer_of_graph(alloc, text, question, grammar, &graph, item)
}

// Appends the result of a question on the graph of the trace of an item.
fn answer_of_graph<'grammar>(
    alloc: Global,
    text: &mut String,
    question: &Question<'_>,
    grammar: &'grammar Grammar,
    graph: &TraceGraph<'grammar>,
    item: Lr0Item<'grammar>,
) -> Result<(), QuestionError>
    requires { IsWellFormed grammar.now }
{
    match question.call {
        "backtrace" => Ok(push_trace_edges(text, graph.edges(), &grammar.terminals)?),
        "contains" => push_all_contained(text, question, grammar, graph),
        "lr0_examples" => Ok(push_examples(alloc, text, graph, item)?),
        "lr1_examples" => push_meeting(alloc, text, question, grammar, graph, item),
        _ => Ok(push_walk(alloc, text, grammar, graph, item)?),
    }
}

// Appends, for each item of the arguments, whether it is a node.
fn push_all_contained<'grammar>(
    text: &mut String,
    question: &Question<'_>,
    grammar: &'grammar Grammar,
    graph: &TraceGraph<'grammar>,
) -> Result<(), QuestionError> {
    for word in question.from(6) {
        let item = item_of(grammar, word, 6)?;
        push_contained(text, grammar, graph, &item)?;
    }
    Ok(())
}

/// Appends whether an item is a node of a graph.
pub(crate) fn push_contained<'grammar>(
    text: &mut String,
    grammar: &Grammar,
    graph: &TraceGraph<'grammar>,
    item: &Lr0Item<'grammar>,
) -> Result<(), OutOfMemory> {
    write!(text, "{} ", graph.contains(item))?;
    push_item(text, item, &grammar.terminals)?;
    text.push_str("\n")?;
    Ok(())
}

/// Appends whether the walk over the examples of an item has found a trace, and the first examples.
pub(crate) fn push_examples<'grammar>(
    alloc: Global,
    text: &mut String,
    graph: &TraceGraph<'grammar>,
    item: Lr0Item<'grammar>,
) -> Result<(), OutOfMemory> {
    let examples = graph.lr0_examples(alloc, item)?;
    write!(text, "found_trace {}\n", examples.found_trace())?;
    for example in examples.take(MOST) {
        push_example(alloc, text, "example", &example?)?;
    }
    Ok(())
}

// Appends the first examples of an item that can go on with one of the tokens of the arguments.
fn push_meeting<'grammar>(
    alloc: Global,
    text: &mut String,
    question: &Question<'_>,
    grammar: &'grammar Grammar,
    graph: &TraceGraph<'grammar>,
    item: Lr0Item<'grammar>,
) -> Result<(), QuestionError>
    requires { IsWellFormed grammar.now }
{
    let end = question.arguments.len().saturating_add(1);
    let tokens = tokens_between(alloc, question, 6, end, &grammar.terminals)?;
    if !graph.is_known(&grammar.terminals) {
        text.push_str("unknown terminals\n")?;
        return Ok(());
    }
    let first_sets = FirstSets::new(alloc, grammar)?;
    let mut left = MOST;
    for example in graph.lr1_examples(alloc, &first_sets, &item.with_lookahead(tokens))? {
        if left == 0 {
            return Ok(());
        }
        push_example(alloc, text, "example", &example?)?;
        left -= 1;
    }
    Ok(())
}

// Appends the results of a walk back from an item, for its first paths.
fn push_walk<'grammar>(
    alloc: Global,
    text: &mut String,
    grammar: &'grammar Grammar,
    graph: &TraceGraph<'grammar>,
    item: Lr0Item<'grammar>,
) -> Result<(), OutOfMemory>
    requires { IsWellFormed grammar.now }
{
    let first_sets = FirstSets::new(alloc, grammar)?;
    if !graph.is_known(&grammar.terminals) {
        text.push_str("unknown terminals\n")?;
        return Ok(());
    }
    let walk = graph.lr0_examples(alloc, item)?;
    push_paths(alloc, text, &first_sets, &grammar.terminals, walk)
}

// Appends the results of a walk for each of its first paths.
fn push_paths<'grammar>(
    alloc: Global,
    text: &mut String,
    first_sets: &FirstSets<'grammar>,
    terminals: &TerminalSet,
    mut walk: PathEnumerator<'_, 'grammar>,
) -> Result<(), OutOfMemory>
    requires { AreKnownEdges first_sets.now.terminals walk.graph.now.edges }
{
    'paths: for _ in 0..MOST {
        let found = walk.found_trace();
        write!(text, "found_trace {found}\n")?;
        if found {
            text.push_str("first0")?;
            push_tokens(text, &walk.first0(alloc, first_sets)?, terminals)?;
            text.push_str("\n")?;
            push_path(alloc, text, &walk)?;
        }
        write!(text, "advance {}\n", walk.advance()?)?;
        if !found {
            return Ok(());
        }
    }
    Ok(())
}

// Appends the example of a path, and a copy of it.
fn push_path(
    alloc: Global,
    text: &mut String,
    walk: &PathEnumerator<'_, '_>,
) -> Result<(), OutOfMemory> {
    let example = walk.example(alloc)?;
    push_example(alloc, text, "example", &example)?;
    push_example(alloc, text, "copy", &example.clone(alloc)?)
}
