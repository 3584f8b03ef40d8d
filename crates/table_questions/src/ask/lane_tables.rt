//! Questions on lane tables.
ghost use Rattle.std.specs.Prelude.{IfOk};
ghost use Rattle.lalrpop_base.specs.Words.{IsWellFormed};
ghost use Rattle.table_questions.specs.Traces.{AreReadyToTrace, IsTracing};

use super::arguments::{piece_end, tokens_between};
use super::context_sets::actions_of;
use super::graphs::lr0_states;
use super::states::start_of;
use crate::show::context_set::column_of;
use crate::show::lane_table::{push_actions, push_lane_table, push_row};
use case_files::question::{Question, QuestionError};
use case_files::show::words::push_tokens;
use lalrpop_base::collections::Set;
use lalrpop_base::first::FirstSets;
use lalrpop_base::lookahead::nil::Nil;
use lalrpop_base::lookahead::token_set::TokenSet;
use lalrpop_base::lr1_core::lr0::Lr0State;
use lalrpop_base::lr1_core::state::{Action, StateIndex};
use lalrpop_base::memory::OutOfMemory;
use lalrpop_base::repr::NonterminalString;
use lalrpop_base::repr::grammar::Grammar;
use lalrpop_base::repr::terminals::TerminalSet;
use lalrpop_tables::lane_table::context_set::{ConflictIndex, OverlappingLookahead};
use lalrpop_tables::lane_table::lane::LaneTracer;
use lalrpop_tables::lane_table::table::LaneTable;
use lalrpop_tables::lane_table::{have_own_items, reduces_own};
use lalrpop_tables::state_graph::StateGraph;
use std::alloc::Global;

/// Appends the result of a question on lane tables. Returns `false` if the call has another name.
pub fn answer(
    alloc: Global,
    text: &mut String,
    question: &Question<'_>,
    grammar: &Grammar,
) -> Result<bool, QuestionError>
    requires { IsWellFormed grammar.now }
{
    match question.call {
        "lane_table" => {
            let traces = traces_of(alloc, question, grammar)?;
            push_traced(alloc, text, &traces)?;
        }
        "lane_table_of" => made_table(alloc, text, question, grammar)?,
        "row_of" => made_row(alloc, text, question, grammar)?,
        _ => return Ok(false),
    }
    Ok(true)
}

// Appends the lane table after all actions of a state were traced, and the cells that each action
// gives alone.
fn push_traced(alloc: Global, text: &mut String, traces: &Traces<'_>) -> Result<(), QuestionError>
    requires { AreReadyToTrace traces.now }
{
    push_actions(text, &traces.actions)?;
    push_cells(alloc, text, traces)?;
    let table = traced(alloc, traces, 0, traces.actions.len())?;
    let count = traces.states.len();
    Ok(push_lane_table(alloc, text, &table, count, &traces.grammar.terminals)?)
}

/// A grammar, its LR(0) states, and the actions of one of them that are traced.
#[derive(Drop)]
pub struct Traces<'grammar> {
    pub grammar: &'grammar Grammar,
    pub start: NonterminalString,
    pub states: Vec<Lr0State<'grammar>>,
    pub state: usize,
    pub actions: Set<Action<'grammar>>,
}

/// The actions of the state whose number is the second argument.
#[tactic(auto, using(crate::proofs::OwnItems::ready_traces))]
pub fn traces_of<'grammar>(
    alloc: Global,
    question: &Question<'_>,
    grammar: &'grammar Grammar,
) -> Result<Traces<'grammar>, QuestionError>
    requires { IsWellFormed grammar.now }
    ensures { IfOk result AreReadyToTrace }
{
    let start = start_of(alloc, question, 1)?;
    let state = question.number(2)?;
    let copy = start.clone(alloc)?;
    let states = lr0_states(alloc, grammar, copy)?;
    if state >= states.len() {
        return Err(QuestionError::Argument(2));
    }
    if !have_own_items(grammar, &states) {
        return Err(QuestionError::Argument(1));
    }
    let actions = actions_of(alloc, &states[state])?;
    Ok(Traces {
        grammar,
        start,
        states,
        state,
        actions,
    })
}

// Appends the tokens of each action in the row of each state. Each action is traced into a table of
// its own.
fn push_cells(alloc: Global, text: &mut String, traces: &Traces<'_>) -> Result<(), QuestionError>
    requires { AreReadyToTrace traces.now }
{
    let mut tables = Vec::new(alloc);
    trace_each(alloc, traces, &mut tables)?;
    for state in 0..traces.states.len() {
        push_cells_of(alloc, text, &tables, state, &traces.grammar.terminals)?;
    }
    Ok(())
}

// Adds a table for each action, which is traced alone.
fn trace_each<'grammar>(
    alloc: Global,
    traces: &Traces<'grammar>,
    tables: &mut Vec<LaneTable<'grammar>>,
) -> Result<(), QuestionError>
    requires { AreReadyToTrace traces.now }
{
    for place in 0..traces.actions.len() {
        let table = traced(alloc, traces, place, place.saturating_add(1))?;
        tables.push(table)?;
    }
    Ok(())
}

// Appends the tokens in the row of a state of tables, each of which has one action traced.
fn push_cells_of(
    alloc: Global,
    text: &mut String,
    tables: &[LaneTable<'_>],
    state: usize,
    terminals: &TerminalSet,
) -> Result<(), QuestionError> {
    for (place, table) in tables.iter().enumerate() {
        match table.context_set(alloc, StateIndex(state)) {
            Ok(row) if place < table.column_count() => {
                let tokens = column_of(alloc, &row, place, terminals)?;
                push_cell(text, state, place, &tokens, terminals)?;
            }
            Ok(_) => {}
            Err(OverlappingLookahead::Memory) => return Err(QuestionError::Memory),
            Err(OverlappingLookahead::Overlapping) => write!(text, "cell {state} overlaps\n")?,
        }
    }
    Ok(())
}

// Appends the tokens of one action in the row of a state, unless there are none.
fn push_cell(
    text: &mut String,
    state: usize,
    place: usize,
    tokens: &TokenSet,
    terminals: &TerminalSet,
) -> Result<(), QuestionError> {
    if tokens.len() > 0 {
        write!(text, "cell {state} {place}")?;
        push_tokens(text, tokens, terminals)?;
        text.push_str("\n")?;
    }
    Ok(())
}

/// The lane table after the actions with the numbers `from..to` were traced.
#[tactic(auto, using(crate::proofs::OwnItems::coherent_there, crate::proofs::OwnItems::own_there, crate::proofs::OwnItems::tracing_start))]
pub fn traced<'grammar>(
    alloc: Global,
    traces: &Traces<'grammar>,
    from: usize,
    to: usize,
) -> Result<LaneTable<'grammar>, QuestionError>
    requires { AreReadyToTrace traces.now }
{
    let grammar = traces.grammar;
    let first_sets = FirstSets::new(alloc, grammar)?;
    let graph = StateGraph::new(alloc, &traces.states)?;
    let count = traces.actions.len();
    let start = traces.start.clone(alloc)?;
    let mut tracer = LaneTracer::new(
        alloc,
        grammar,
        start,
        &traces.states,
        &first_sets,
        &graph,
        count,
    );
    trace_all(alloc, &mut tracer, traces, from, to)?;
    Ok(tracer.into_table())
}

// Traces the actions with the numbers `from..to`.
fn trace_all<'grammar>(
    alloc: Global,
    tracer: &mut LaneTracer<'_, 'grammar, Nil>,
    traces: &Traces<'grammar>,
    from: usize,
    to: usize,
) -> Result<(), OutOfMemory>
    requires ready { AreReadyToTrace traces.now }
    requires tracing { IsTracing traces.now tracer.old }
{
    let mut place: usize = 0;
    for action in traces.actions.iter() {
        trace(alloc, tracer, traces, from, to, place, action)?;
        place = place.saturating_add(1);
    }
    Ok(())
}

// Traces an action, if its number is in `from..to` and it does not reduce by a production of
// another grammar.
#[tactic(auto, using(crate::proofs::OwnItems::tracing_more, crate::proofs::OwnItems::action_own, crate::proofs::OwnItems::state_listed, crate::proofs::OwnItems::column_there))]
fn trace<'grammar>(
    alloc: Global,
    tracer: &mut LaneTracer<'_, 'grammar, Nil>,
    traces: &Traces<'grammar>,
    from: usize,
    to: usize,
    place: usize,
    action: &Action<'grammar>,
) -> Result<(), OutOfMemory>
    requires ready { AreReadyToTrace traces.now }
    requires tracing { IsTracing traces.now tracer.old }
    ensures { IsTracing traces.now tracer.new }
{
    if place < from || place >= to || place >= traces.actions.len() {
        return Ok(());
    }
    if !reduces_own(traces.grammar, action) {
        return Ok(());
    }
    let copy = action.clone(alloc)?;
    let state = StateIndex(traces.state);
    tracer.start_trace(alloc, state, ConflictIndex::new(place), copy)
}

// Appends the results of the calls of a table that has the cells and successors that arguments name.
fn made_table(
    alloc: Global,
    text: &mut String,
    question: &Question<'_>,
    grammar: &Grammar,
) -> Result<(), QuestionError> {
    let table = table_of(alloc, question, grammar)?;
    let count = question.number(2)?;
    Ok(push_lane_table(alloc, text, &table, count, &grammar.terminals)?)
}

// Appends the row of a state in such a table, or that its columns overlap.
fn made_row(
    alloc: Global,
    text: &mut String,
    question: &Question<'_>,
    grammar: &Grammar,
) -> Result<(), QuestionError> {
    let table = table_of(alloc, question, grammar)?;
    let state = StateIndex(question.number(2)?);
    Ok(push_row(alloc, text, &table, state, &grammar.terminals)?)
}

// A table with the cells and successors that the arguments from the third on name.
fn table_of<'grammar>(
    alloc: Global,
    question: &Question<'_>,
    grammar: &'grammar Grammar,
) -> Result<LaneTable<'grammar>, QuestionError> {
    let columns = question.number(1)?;
    let mut table = LaneTable::new(alloc, grammar, columns);
    add_all(alloc, &mut table, question, &grammar.terminals)?;
    Ok(table)
}

// Adds the cells and successors that the arguments from the third on name. A comma is between two of
// them.
fn add_all(
    alloc: Global,
    table: &mut LaneTable<'_>,
    question: &Question<'_>,
    terminals: &TerminalSet,
) -> Result<(), QuestionError> {
    let after = question.arguments.len().saturating_add(1);
    let mut begin: usize = 3;
    for number in 3..after {
        if number == begin {
            let end = piece_end(question, begin, after);
            add(alloc, table, question, begin, end, terminals)?;
            begin = end.saturating_add(1);
        }
    }
    Ok(())
}

// Adds the cell or the successor that the arguments `from..to` name.
fn add(
    alloc: Global,
    table: &mut LaneTable<'_>,
    question: &Question<'_>,
    from: usize,
    to: usize,
    terminals: &TerminalSet,
) -> Result<(), QuestionError> {
    let state = StateIndex(question.number(from)?);
    let second = from.saturating_add(1);
    let third = second.saturating_add(1);
    if question.argument(second)? == ">" {
        table.add_successor(state, StateIndex(question.number(third)?))?;
        return Ok(());
    }
    let column = question.number(second)?;
    if column >= table.column_count() {
        return Err(QuestionError::Argument(second));
    }
    let tokens = tokens_between(alloc, question, third, to, terminals)?;
    table.add_lookahead(state, ConflictIndex::new(column), &tokens)?;
    Ok(())
}
