//! The calls that a question can name. Each appends its result to a text.
pub mod arguments;
pub mod augment;
pub mod changes;
pub mod checks;
pub mod context_sets;
pub mod entries;
pub mod first_sets;
pub mod graphs;
pub mod items;
pub mod kernels;
pub mod lane_tables;
pub mod merges;
pub mod states;
pub mod token_sets;
pub mod views;

ghost use Rattle.lalrpop_base.specs.Words.{IsWellFormed};

use case_files::question::{Question, QuestionError};
use lalrpop_base::repr::grammar::Grammar;
use lalrpop_base::repr::norm_error::NormError;
use std::alloc::Global;

/// Appends the result of a question on sets, states and lanes. Returns `false` and appends nothing
/// if the call has another name. An argument of a wrong form and an allocation failure are errors.
pub fn answer(
    alloc: Global,
    text: &mut String,
    question: &Question<'_>,
    grammar: &Grammar,
) -> Result<bool, QuestionError>
    requires { IsWellFormed grammar.now }
{
    if answer_of_states(alloc, text, question, grammar)? {
        return Ok(true);
    }
    answer_of_lanes(alloc, text, question, grammar)
}

/// Appends the message for an error of inlining or augmenting a grammar.
pub fn push_refusal(text: &mut String, error: &NormError) -> Result<(), QuestionError> {
    match error {
        NormError::Cycle { span: _, name } => write!(text, "cyclic inline of {name}\n")?,
        NormError::TooManyActions => text.push_str("too many actions\n")?,
        NormError::Memory => return Err(QuestionError::Memory),
    }
    Ok(())
}

// Appends the result of a question on sets, states, entries, views and new start symbols. Returns
// `false` if the call has another name.
fn answer_of_states(
    alloc: Global,
    text: &mut String,
    question: &Question<'_>,
    grammar: &Grammar,
) -> Result<bool, QuestionError>
    requires { IsWellFormed grammar.now }
{
    if first_sets::answer(alloc, text, question, grammar)? {
        return Ok(true);
    }
    if states::answer(alloc, text, question, grammar)? {
        return Ok(true);
    }
    if entries::answer(alloc, text, question, grammar)? {
        return Ok(true);
    }
    if views::answer(alloc, text, question, grammar)? {
        return Ok(true);
    }
    augment::answer(alloc, text, question, grammar)
}

// Appends the result of a question on lane tables, context sets, checks, graphs, merging, kernels
// and token sets. Returns `false` if the call has another name.
fn answer_of_lanes(
    alloc: Global,
    text: &mut String,
    question: &Question<'_>,
    grammar: &Grammar,
) -> Result<bool, QuestionError>
    requires { IsWellFormed grammar.now }
{
    if lane_tables::answer(alloc, text, question, grammar)? {
        return Ok(true);
    }
    if context_sets::answer(alloc, text, question, grammar)? {
        return Ok(true);
    }
    if checks::answer(alloc, text, question, grammar)? {
        return Ok(true);
    }
    if graphs::answer(alloc, text, question, grammar)? {
        return Ok(true);
    }
    if merges::answer(alloc, text, question, grammar)? {
        return Ok(true);
    }
    if kernels::answer(alloc, text, question, grammar)? {
        return Ok(true);
    }
    token_sets::answer(alloc, text, question, grammar)
}
