//! Questions on context sets.
ghost use Rattle.std.specs.Prelude.{◌≡◌, length, IfOk};
ghost use Rattle.lalrpop_base.specs.Words.{IsWellFormed};

use super::arguments::{piece_end, tokens_between};
use super::checks::states_by;
use super::states::start_of;
use crate::show::context_set::push_columns;
use crate::show::lane_table::push_actions;
use case_files::question::{Question, QuestionError};
use case_files::show::words::{push_production, push_tokens};
use lalrpop_base::collections::Set;
use lalrpop_base::lr1_core::state::{Action, Lr1State, State};
use lalrpop_base::memory::OutOfMemory;
use lalrpop_base::repr::grammar::Grammar;
use lalrpop_base::repr::terminals::TerminalSet;
use lalrpop_tables::lane_table::context_set::{
    ConflictIndex, ContextSet, OverlappingLookahead, are_among,
};
use std::alloc::Global;

/// Appends the result of a question on context sets. Returns `false` if the call has another name.
pub fn answer(
    alloc: Global,
    text: &mut String,
    question: &Question<'_>,
    grammar: &Grammar,
) -> Result<bool, QuestionError>
    requires { IsWellFormed grammar.now }
{
    match question.call {
        "context_set" => context_sets(alloc, text, question, &grammar.terminals)?,
        "apply" => apply(alloc, text, question, grammar)?,
        _ => return Ok(false),
    }
    Ok(true)
}

/// The shifts and reductions of a state that has reductions. There are none for other states.
pub fn actions_of<'grammar, L>(
    alloc: Global,
    state: &State<'grammar, L>,
) -> Result<Set<Action<'grammar>>, OutOfMemory> {
    let mut actions = Set::new(alloc);
    for reduction in &state.reductions {
        actions.insert(Action::Reduce(reduction.1))?;
    }
    if actions.is_empty() {
        return Ok(actions);
    }
    for (terminal, target) in state.shifts.iter() {
        actions.insert(Action::Shift(terminal.clone(alloc)?, *target))?;
    }
    Ok(actions)
}

// Appends the results of insertions into one set, or into two sets and their union.
fn context_sets(
    alloc: Global,
    text: &mut String,
    question: &Question<'_>,
    terminals: &TerminalSet,
) -> Result<(), QuestionError> {
    let count = question.number(1)?;
    let after = question.arguments.len().saturating_add(1);
    let bar = bar_of(question);
    let first = filled(alloc, text, question, count, 2, bar, terminals)?;
    if bar == after {
        return Ok(());
    }
    let from = bar.saturating_add(1);
    let second = filled(alloc, text, question, count, from, after, terminals)?;
    push_union(alloc, text, &first, &second, count, terminals)
}

// Appends the union of two sets, or that it overlaps.
fn push_union(
    alloc: Global,
    text: &mut String,
    first: &ContextSet,
    second: &ContextSet,
    count: usize,
    terminals: &TerminalSet,
) -> Result<(), QuestionError>
    requires first { count ≡ length first.now }
    requires second { count ≡ length second.now }
{
    match ContextSet::union(alloc, first, second) {
        Ok(union) => {
            text.push_str("union")?;
            push_columns(alloc, text, &union, count, terminals)?;
            text.push_str("\n")?;
        }
        Err(OverlappingLookahead::Overlapping) => text.push_str("union overlap\n")?,
        Err(OverlappingLookahead::Memory) => return Err(QuestionError::Memory),
    }
    Ok(())
}

// The number of the first argument that is a slash, or one more than the number of all arguments.
fn bar_of(question: &Question<'_>) -> usize {
    let count = question.arguments.len();
    match question.arguments.iter().position(|word| *word == "/") {
        Some(place) => place.saturating_add(1),
        None => count.saturating_add(1),
    }
}

// The set of `count` columns with the tokens that the arguments `from..to` insert.
fn filled(
    alloc: Global,
    text: &mut String,
    question: &Question<'_>,
    count: usize,
    from: usize,
    to: usize,
    terminals: &TerminalSet,
) -> Result<ContextSet, QuestionError>
    ensures { IfOk result (λ set. count ≡ length set) }
{
    let mut set = ContextSet::new(alloc, count)?;
    fill(alloc, text, &mut set, count, question, from, to, terminals)?;
    Ok(set)
}

// Inserts the tokens that the arguments `from..to` name, and appends the columns. A comma is between
// two insertions.
fn fill(
    alloc: Global,
    text: &mut String,
    set: &mut ContextSet,
    count: usize,
    question: &Question<'_>,
    from: usize,
    to: usize,
    terminals: &TerminalSet,
) -> Result<(), QuestionError>
    requires { count ≡ length set.old }
    ensures { count ≡ length set.new }
{
    let mut begin = from;
    for number in from..to {
        if number == begin {
            let end = piece_end(question, begin, to);
            insert(alloc, text, set, count, question, begin, end, terminals)?;
            begin = end.saturating_add(1);
        }
    }
    text.push_str("columns")?;
    push_columns(alloc, text, set, count, terminals)?;
    text.push_str("\n")?;
    Ok(())
}

// Inserts tokens into a column. The first argument is the number of the column, and the others are
// the tokens.
fn insert(
    alloc: Global,
    text: &mut String,
    set: &mut ContextSet,
    count: usize,
    question: &Question<'_>,
    from: usize,
    to: usize,
    terminals: &TerminalSet,
) -> Result<(), QuestionError>
    requires { count ≡ length set.old }
    ensures { count ≡ length set.new }
{
    let column = question.number(from)?;
    if column >= count {
        return Err(QuestionError::Argument(from));
    }
    let tokens = tokens_between(alloc, question, from.saturating_add(1), to, terminals)?;
    match set.insert(ConflictIndex::new(column), &tokens) {
        Ok(grew) => write!(text, "insert {grew}\n")?,
        Err(OverlappingLookahead::Overlapping) => text.push_str("insert overlap\n")?,
        Err(OverlappingLookahead::Memory) => return Err(QuestionError::Memory),
    }
    Ok(())
}

// Makes a context set of the actions of a canonical state, and applies it to the reductions of the
// state.
fn apply(
    alloc: Global,
    text: &mut String,
    question: &Question<'_>,
    grammar: &Grammar,
) -> Result<(), QuestionError>
    requires { IsWellFormed grammar.now }
{
    let start = start_of(alloc, question, 1)?;
    let mut states = states_by(alloc, grammar, start, "canonical")?;
    match states.get_mut(question.number(2)?) {
        Some(state) => apply_to(alloc, text, question, state, &grammar.terminals),
        None => Err(QuestionError::Argument(2)),
    }
}

// Makes a context set of the actions of a state, and applies it to the reductions of the state.
fn apply_to(
    alloc: Global,
    text: &mut String,
    question: &Question<'_>,
    state: &mut Lr1State<'_>,
    terminals: &TerminalSet,
) -> Result<(), QuestionError> {
    let actions = actions_of(alloc, state)?;
    push_actions(text, &actions)?;
    let count = actions.len();
    let after = question.arguments.len().saturating_add(1);
    let set = filled(alloc, text, question, count, 3, after, terminals)?;
    if !are_among(&actions, &state.reductions) {
        return Err(QuestionError::Argument(2));
    }
    set.apply(alloc, state, &actions)?;
    Ok(push_reductions(text, state, terminals)?)
}

/// Appends the reductions of a state, each on a line of its own.
pub fn push_reductions(
    text: &mut String,
    state: &Lr1State<'_>,
    terminals: &TerminalSet,
) -> Result<(), OutOfMemory> {
    for (tokens, production) in &state.reductions {
        write!(text, "state {} reduce ", state.index)?;
        push_production(text, production)?;
        text.push_str(" on")?;
        push_tokens(text, tokens, terminals)?;
        text.push_str("\n")?;
    }
    Ok(())
}
