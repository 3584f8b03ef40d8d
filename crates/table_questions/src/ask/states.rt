//! Questions on states.
ghost use Rattle.lalrpop_base.specs.Words.{IsWellFormed};

use super::arguments::{method_at, options_from};
use super::changes::change_states;
use super::checks::states_by;
use case_files::question::{Question, QuestionError};
use case_files::show::states::{push_counts, push_result};
use case_files::show::words::ShownLookahead;
use grammar_text::symbols::{is_a_name, name_of};
use lalrpop_base::lr1_core::collapsible::are_collapsible;
use lalrpop_base::lr1_core::state::LrResult;
use lalrpop_base::repr::NonterminalString;
use lalrpop_base::repr::grammar::Grammar;
use lalrpop_base::repr::terminals::TerminalSet;
use lalrpop_tables::build::{
    TablesOrCount, build_lr0_states, build_lr1_states, lr1_states_or_count,
};
use lalrpop_tables::build_lalr::{build_lalr_states, collapse_to_lalr_states};
use lalrpop_tables::lane_table::build_lane_table_states;
use lalrpop_tables::lr1::{build_states, build_states_or_count};
use std::alloc::Global;

/// Appends the result of a question on states. Returns `false` if the call has another name.
pub fn answer(
    alloc: Global,
    text: &mut String,
    question: &Question<'_>,
    grammar: &Grammar,
) -> Result<bool, QuestionError>
    requires { IsWellFormed grammar.now }
{
    match question.call {
        "build_lr0_states" => lr0_states(alloc, text, question, grammar)?,
        "build_states" | "build_lr1_states" | "build_lalr_states" => {
            lr1_states(alloc, text, question, grammar)?
        }
        "build_states_or_count" | "lr1_states_or_count" => {
            states_or_count(alloc, text, question, grammar)?
        }
        "build_lane_table_states" => lane_states(alloc, text, question, grammar)?,
        "collapse_to_lalr_states" => collapsed_states(alloc, text, question, grammar)?,
        _ => return Ok(false),
    }
    Ok(true)
}

/// The start symbol that the argument with a number names.
pub fn start_of(
    alloc: Global,
    question: &Question<'_>,
    number: usize,
) -> Result<NonterminalString, QuestionError> {
    let word = question.argument(number)?;
    if !is_a_name(word) {
        return Err(QuestionError::Argument(number));
    }
    Ok(name_of(alloc, word)?)
}

// Appends the LR(0) states of a grammar.
fn lr0_states(
    alloc: Global,
    text: &mut String,
    question: &Question<'_>,
    grammar: &Grammar,
) -> Result<(), QuestionError>
    requires { IsWellFormed grammar.now }
{
    let start = start_of(alloc, question, 1)?;
    let answer = build_lr0_states(alloc, grammar, start);
    push_answer(text, question, &answer, &grammar.terminals)
}

// Appends the LR(1) states of a grammar by a method.
fn lr1_states(
    alloc: Global,
    text: &mut String,
    question: &Question<'_>,
    grammar: &Grammar,
) -> Result<(), QuestionError>
    requires { IsWellFormed grammar.now }
{
    let start = start_of(alloc, question, 1)?;
    let options = options_from(question, 3, method_at(question, 2)?)?;
    let answer = match question.call {
        "build_lr1_states" => build_lr1_states(alloc, grammar, start, &options),
        "build_lalr_states" => build_lalr_states(alloc, grammar, start, &options),
        _ => build_states(alloc, grammar, start, &options),
    };
    push_answer(text, question, &answer, &grammar.terminals)
}

// Appends the LR(1) states of a grammar by a method, or the number of conflicts.
fn states_or_count(
    alloc: Global,
    text: &mut String,
    question: &Question<'_>,
    grammar: &Grammar,
) -> Result<(), QuestionError>
    requires { IsWellFormed grammar.now }
{
    let start = start_of(alloc, question, 1)?;
    let options = options_from(question, 3, method_at(question, 2)?)?;
    let answer = match question.call {
        "lr1_states_or_count" => lr1_states_or_count(alloc, grammar, start, &options)?,
        _ => build_states_or_count(alloc, grammar, start, &options)?,
    };
    match answer {
        TablesOrCount::Tables(states) => {
            push_answer(text, question, &Ok(states), &grammar.terminals)
        }
        TablesOrCount::Conflicts(count) => Ok(write!(text, "conflicts: {count}\n")?),
    }
}

// Appends the lane tables of a grammar.
fn lane_states(
    alloc: Global,
    text: &mut String,
    question: &Question<'_>,
    grammar: &Grammar,
) -> Result<(), QuestionError>
    requires { IsWellFormed grammar.now }
{
    let start = start_of(alloc, question, 1)?;
    let max_copies = question.number(2)?;
    let answer = build_lane_table_states(alloc, grammar, start, max_copies);
    push_answer(text, question, &answer, &grammar.terminals)
}

// Appends the canonical states of a grammar, collapsed. Arguments can change the states first.
fn collapsed_states(
    alloc: Global,
    text: &mut String,
    question: &Question<'_>,
    grammar: &Grammar,
) -> Result<(), QuestionError>
    requires { IsWellFormed grammar.now }
{
    let start = start_of(alloc, question, 1)?;
    let mut states = states_by(alloc, grammar, start, "canonical")?;
    let from = if question.is(2, "count") { 3 } else { 2 };
    change_states(alloc, question, from, &mut states, &grammar.terminals)?;
    if !are_collapsible(&states) {
        return Ok(text.push_str("collapsible false\n")?);
    }
    text.push_str("collapsible true\n")?;
    let answer = collapse_to_lalr_states(alloc, states, &grammar.terminals);
    push_answer(text, question, &answer, &grammar.terminals)
}

// Appends the result of a construction, or only its counts if the question has the argument
// `count`.
fn push_answer<L: ShownLookahead>(
    text: &mut String,
    question: &Question<'_>,
    answer: &LrResult<'_, L>,
    terminals: &TerminalSet,
) -> Result<(), QuestionError> {
    if question.has("count") {
        push_counts(text, answer)?;
    } else {
        push_result(text, answer, terminals)?;
    }
    Ok(())
}
