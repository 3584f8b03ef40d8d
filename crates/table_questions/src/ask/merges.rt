//! Questions on the merging of states.
ghost use Rattle.std.specs.Prelude.{IfOk};
ghost use Rattle.lalrpop_base.specs.Words.{IsWellFormed};
ghost use Rattle.lalrpop_tables.specs.Words.{IsMerging};
ghost use Rattle.table_questions.specs.Traces.{AreReadyToTrace};

use super::checks::states_of;
use super::context_sets::push_reductions;
use super::lane_tables::{Traces, traced, traces_of};
use case_files::question::{Question, QuestionError};
use lalrpop_base::lr1_core::coherent::are_coherent;
use lalrpop_base::lr1_core::state::{Lr1State, StateIndex};
use lalrpop_base::memory::OutOfMemory;
use lalrpop_base::repr::grammar::Grammar;
use lalrpop_base::repr::terminals::TerminalSet;
use lalrpop_tables::lane_table::build_lane_table_states;
use lalrpop_tables::lane_table::construct::merge::{Merge, MergeError};
use lalrpop_tables::lane_table::table::LaneTable;
use lalrpop_tables::lane_table::table::rows::RowsError;
use std::alloc::Global;

/// Appends the result of merging the LR(0) states, of which none is a copy yet, by the lane table of
/// one of them. Returns `false` if the call has another name.
pub fn answer(
    alloc: Global,
    text: &mut String,
    question: &Question<'_>,
    grammar: &Grammar,
) -> Result<bool, QuestionError>
    requires { IsWellFormed grammar.now }
{
    if question.call != "merge" {
        return Ok(false);
    }
    let traces = traces_of(alloc, question, grammar)?;
    push_merge(alloc, text, question, &traces)?;
    Ok(true)
}

// Appends the result of merging by the lane table of traces, or that its rows overlap.
fn push_merge(
    alloc: Global,
    text: &mut String,
    question: &Question<'_>,
    traces: &Traces<'_>,
) -> Result<(), QuestionError>
    requires { AreReadyToTrace traces.now }
{
    let table = traced(alloc, traces, 0, traces.actions.len())?;
    if let Err(RowsError::State(state)) = table.rows(alloc) {
        write!(text, "rows overlap in state {state}\n")?;
        return Ok(());
    }
    push_merge_by(alloc, text, question, traces, &table)
}

// Appends the result of merging by a lane table.
fn push_merge_by<'grammar>(
    alloc: Global,
    text: &mut String,
    question: &Question<'_>,
    traces: &Traces<'grammar>,
    table: &LaneTable<'grammar>,
) -> Result<(), QuestionError>
    requires { AreReadyToTrace traces.now }
{
    let grammar = traces.grammar;
    let start = traces.start.clone(alloc)?;
    let states = states_of(build_lane_table_states(alloc, grammar, start, 0))?;
    let mut merge = merge_of(alloc, question, table, states)?;
    merge_all(alloc, text, &mut merge, table, traces)?;
    let states = merge.into_states();
    Ok(push_merged(text, &states, traces, &grammar.terminals)?)
}

// Starts at each beachhead. If no start is refused, it mends the states to which the edges lead.
fn merge_all<'grammar>(
    alloc: Global,
    text: &mut String,
    merge: &mut Merge<'_, 'grammar>,
    table: &LaneTable<'grammar>,
    traces: &Traces<'grammar>,
) -> Result<(), QuestionError>
    requires { IsMerging merge.old }
{
    if !start_all(alloc, text, merge, table)? {
        return Ok(());
    }
    if !merge.is_patchable(&traces.actions) {
        return Err(QuestionError::Argument(2));
    }
    Ok(merge.patch_target_starts(alloc, &traces.actions)?)
}

// Appends the number of states, and the reductions of the state that was traced and of all copies.
fn push_merged(
    text: &mut String,
    states: &[Lr1State<'_>],
    traces: &Traces<'_>,
    terminals: &TerminalSet,
) -> Result<(), OutOfMemory> {
    write!(text, "{} states\n", states.len())?;
    for (place, state) in states.iter().enumerate() {
        if place == traces.state || place >= traces.states.len() {
            push_reductions(text, state, terminals)?;
        }
    }
    Ok(())
}

// The merging of states by a table, before any states are merged.
fn merge_of<'table, 'grammar>(
    alloc: Global,
    question: &Question<'_>,
    table: &'table LaneTable<'grammar>,
    states: Vec<Lr1State<'grammar>>,
) -> Result<Merge<'table, 'grammar>, QuestionError>
    ensures { IfOk result IsMerging }
{
    let start = StateIndex(question.number(2)?);
    let copies = question.number(3)?;
    if !are_coherent(&states) {
        return Err(QuestionError::Argument(2));
    }
    if !table.is_closed(states.len()) {
        return Err(QuestionError::Argument(2));
    }
    if !table.has_row(start) {
        return Err(QuestionError::Argument(2));
    }
    let Ok(rows) = table.rows(alloc) else {
        return Err(QuestionError::Memory);
    };
    let merge = Merge::new(alloc, table, rows, states, start, copies)?;
    Ok(merge)
}

// Starts at each beachhead that has a row, until a start is refused. Returns whether none was
// refused.
fn start_all(
    alloc: Global,
    text: &mut String,
    merge: &mut Merge<'_, '_>,
    table: &LaneTable<'_>,
) -> Result<bool, QuestionError>
    requires { IsMerging merge.old }
    ensures { IsMerging merge.new }
{
    for state in table.beachhead_states(alloc)?.iter() {
        if merge.has_row(*state) {
            match merge.start(alloc, *state) {
                Ok(()) => write!(text, "start {state}: done\n")?,
                Err(MergeError::Apart(left, right)) => {
                    write!(text, "start {state}: apart {left} {right}\n")?;
                    return Ok(false);
                }
                Err(MergeError::CopyLimit) => {
                    write!(text, "start {state}: copy limit\n")?;
                    return Ok(false);
                }
                Err(MergeError::Memory) => return Err(QuestionError::Memory),
            }
        }
    }
    Ok(true)
}
