//! Questions on new start symbols.
ghost use Rattle.lalrpop_base.specs.Words.{IsWellFormed};

use super::push_refusal;
use super::states::start_of;
use case_files::question::{Question, QuestionError};
use case_files::show::states::push_counts;
use case_files::show::words::push_production;
use lalrpop_base::memory::OutOfMemory;
use lalrpop_base::repr::grammar::{Grammar, is_well_formed};
use lalrpop_base::repr::{NonterminalString, augment, is_on_no_right_side};
use lalrpop_tables::build::{Method, Options};
use lalrpop_tables::lr1::build_states;
use std::alloc::Global;

/// Appends the result of a question on a new start symbol. Returns `false` if the call has another
/// name.
pub fn answer(
    alloc: Global,
    text: &mut String,
    question: &Question<'_>,
    grammar: &Grammar,
) -> Result<bool, QuestionError> {
    match question.call {
        "augment" => augmented(alloc, text, question, grammar)?,
        "is_on_no_right_side" => on_no_right_side(alloc, text, question, grammar)?,
        _ => return Ok(false),
    }
    Ok(true)
}

// Appends whether a nonterminal is on no right side.
fn on_no_right_side(
    alloc: Global,
    text: &mut String,
    question: &Question<'_>,
    grammar: &Grammar,
) -> Result<(), QuestionError> {
    let name = start_of(alloc, question, 1)?;
    write!(text, "{}\n", is_on_no_right_side(grammar, &name))?;
    Ok(())
}

// Appends a new start symbol, and the counts of the states that both methods make for it.
fn augmented(
    alloc: Global,
    text: &mut String,
    question: &Question<'_>,
    grammar: &Grammar,
) -> Result<(), QuestionError> {
    let start = start_of(alloc, question, 1)?;
    let copy = grammar.clone(alloc)?;
    if !is_well_formed(&copy) {
        text.push_str("not well-formed\n")?;
        return Ok(());
    }
    match augment(alloc, copy, start) {
        Ok((grown, name)) => push_augmented(alloc, text, &grown, &name),
        Err(error) => push_refusal(text, &error),
    }
}

// Appends the new start symbol, its productions, and the counts of its states by each method.
fn push_augmented(
    alloc: Global,
    text: &mut String,
    grammar: &Grammar,
    start: &NonterminalString,
) -> Result<(), QuestionError>
    requires { IsWellFormed grammar.now }
{
    write!(text, "start {start}\n")?;
    for production in grammar.productions_for(start) {
        text.push_str("  ")?;
        push_production(text, production)?;
        text.push_str("\n")?;
    }
    text.push_str("lane ")?;
    push_states(alloc, text, grammar, start, Method::Lane)?;
    text.push_str("canonical ")?;
    push_states(alloc, text, grammar, start, Method::Canonical)?;
    Ok(())
}

// Appends the counts of the states that a method makes.
fn push_states(
    alloc: Global,
    text: &mut String,
    grammar: &Grammar,
    start: &NonterminalString,
    method: Method,
) -> Result<(), OutOfMemory>
    requires { IsWellFormed grammar.now }
{
    let options = Options {
        method,
        ..Options::default()
    };
    let answer = build_states(alloc, grammar, start.clone(alloc)?, &options);
    push_counts(text, &answer)
}
