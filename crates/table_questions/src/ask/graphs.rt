//! Questions on the graph of the LR(0) states.
ghost use Rattle.std.specs.Prelude.{IfOk};
ghost use Rattle.lalrpop_base.specs.Words.{IsWellFormed, rules_of};
ghost use Rattle.lalrpop_tables.specs.Words.{AreLr0States};

use super::states::start_of;
use case_files::question::{Question, QuestionError};
use case_files::show::graph::push_state_list;
use grammar_text::symbols::{symbol_of, symbols_of};
use lalrpop_base::lr1_core::lr0::Lr0State;
use lalrpop_base::lr1_core::state::{BuildError, StateIndex, TableConstructionError};
use lalrpop_base::memory::OutOfMemory;
use lalrpop_base::repr::NonterminalString;
use lalrpop_base::repr::grammar::Grammar;
use lalrpop_tables::build::build_lr0_states;
use lalrpop_tables::state_graph::StateGraph;
use std::alloc::Global;

/// Appends the result of a question on the graph of the LR(0) states. Returns `false` if the call has
/// another name.
pub fn answer(
    alloc: Global,
    text: &mut String,
    question: &Question<'_>,
    grammar: &Grammar,
) -> Result<bool, QuestionError>
    requires { IsWellFormed grammar.now }
{
    match question.call {
        "state_graph" | "predecessors" | "trace_back" => {
            let start = start_of(alloc, question, 1)?;
            let states = lr0_states(alloc, grammar, start)?;
            let graph = StateGraph::new(alloc, &states)?;
            push_answer(alloc, text, question, &graph, states.len())?;
            Ok(true)
        }
        _ => Ok(false),
    }
}

/// The LR(0) states of a grammar, also if they have conflicts.
pub fn lr0_states<'grammar>(
    alloc: Global,
    grammar: &'grammar Grammar,
    start: NonterminalString,
) -> Result<Vec<Lr0State<'grammar>>, OutOfMemory>
    requires { IsWellFormed grammar.now }
    ensures { IfOk result (λ states. AreLr0States (rules_of grammar.now) start states.items) }
{
    match build_lr0_states(alloc, grammar, start) {
        Ok(states) => Ok(states),
        Err(BuildError::Conflicts(error)) => {
            let TableConstructionError { states, .. } = error;
            Ok(states)
        }
        Err(BuildError::Memory) => Err(OutOfMemory),
    }
}

// Appends the result of a question on a graph.
fn push_answer(
    alloc: Global,
    text: &mut String,
    question: &Question<'_>,
    graph: &StateGraph,
    count: usize,
) -> Result<(), QuestionError> {
    if question.call == "state_graph" {
        return Ok(push_graph(alloc, text, graph, count)?);
    }
    let state = StateIndex(question.number(2)?);
    text.push_str("states")?;
    if question.call == "trace_back" {
        push_traced_back(alloc, text, question, graph, state)?;
    } else {
        push_predecessors(alloc, text, question, graph, state)?;
    }
    text.push_str("\n")?;
    Ok(())
}

// Appends the states from which the symbols from the third argument on lead to a state.
fn push_traced_back(
    alloc: Global,
    text: &mut String,
    question: &Question<'_>,
    graph: &StateGraph,
    state: StateIndex,
) -> Result<(), QuestionError> {
    let Some(symbols) = symbols_of(alloc, question.from(3))? else {
        return Err(QuestionError::Argument(3));
    };
    let found = graph.trace_back(alloc, state, symbols.as_slice())?;
    Ok(push_state_list(text, &found)?)
}

// Appends the successors of each state.
fn push_graph(
    alloc: Global,
    text: &mut String,
    graph: &StateGraph,
    count: usize,
) -> Result<(), OutOfMemory> {
    for state in 0..count {
        write!(text, "successors {state}:")?;
        let successors = successors_of(alloc, graph, StateIndex(state))?;
        push_state_list(text, &successors)?;
        text.push_str("\n")?;
    }
    Ok(())
}

// The successors of a state, in the order of the call.
fn successors_of(
    alloc: Global,
    graph: &StateGraph,
    state: StateIndex,
) -> Result<Vec<StateIndex>, OutOfMemory> {
    let mut list = Vec::new(alloc);
    for successor in graph.successors(state) {
        list.push(successor)?;
    }
    Ok(list)
}

// Appends the states from which the symbol of the third argument leads to a state.
fn push_predecessors(
    alloc: Global,
    text: &mut String,
    question: &Question<'_>,
    graph: &StateGraph,
    state: StateIndex,
) -> Result<(), QuestionError> {
    let Some(symbol) = symbol_of(alloc, question.argument(3)?)? else {
        return Err(QuestionError::Argument(3));
    };
    let mut list = Vec::new(alloc);
    for source in graph.predecessors(state, &symbol) {
        list.push(source)?;
    }
    push_state_list(text, &list)?;
    Ok(())
}
