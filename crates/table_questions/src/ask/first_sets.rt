//! Questions on FIRST sets.
ghost use Rattle.lalrpop_base.specs.Words.{IsWellFormed};

use super::arguments::{known_symbols, tokens_between};
use super::states::start_of;
use case_files::question::{Question, QuestionError};
use case_files::show::words::push_tokens;
use lalrpop_base::first::FirstSets;
use lalrpop_base::lookahead::token_set::TokenSet;
use lalrpop_base::repr::grammar::Grammar;
use lalrpop_base::repr::terminals::TerminalSet;
use std::alloc::Global;

/// Appends the result of a question on FIRST sets. Returns `false` if the call has another name.
pub fn answer(
    alloc: Global,
    text: &mut String,
    question: &Question<'_>,
    grammar: &Grammar,
) -> Result<bool, QuestionError>
    requires { IsWellFormed grammar.now }
{
    match question.call {
        "first0" => first0(alloc, text, question, grammar)?,
        "first1" => first1(alloc, text, question, grammar)?,
        "is_nullable" => nullable(alloc, text, question, grammar)?,
        _ => return Ok(false),
    }
    Ok(true)
}

// Appends the FIRST set of symbols.
fn first0(
    alloc: Global,
    text: &mut String,
    question: &Question<'_>,
    grammar: &Grammar,
) -> Result<(), QuestionError>
    requires { IsWellFormed grammar.now }
{
    let symbols = known_symbols(alloc, question.from(1), &grammar.terminals, 1)?;
    let sets = FirstSets::new(alloc, grammar)?;
    let set = sets.first0(alloc, symbols.as_slice())?;
    push_set(text, &set, &grammar.terminals)
}

// Appends the FIRST set of symbols and then a set of tokens. The arguments have the tokens after a
// comma.
fn first1(
    alloc: Global,
    text: &mut String,
    question: &Question<'_>,
    grammar: &Grammar,
) -> Result<(), QuestionError>
    requires { IsWellFormed grammar.now }
{
    let count = question.until(",");
    let Some((words, others)) = question.from(1).split_at_checked(count) else {
        return Err(QuestionError::Argument(1));
    };
    if others.is_empty() {
        return Err(QuestionError::Argument(count.saturating_add(1)));
    }
    let symbols = known_symbols(alloc, words, &grammar.terminals, 1)?;
    let first = count.saturating_add(2);
    let end = question.arguments.len().saturating_add(1);
    let follow = tokens_between(alloc, question, first, end, &grammar.terminals)?;
    let sets = FirstSets::new(alloc, grammar)?;
    let set = sets.first1(alloc, symbols.as_slice(), &follow)?;
    push_set(text, &set, &grammar.terminals)
}

// Appends whether a nonterminal derives the empty list.
fn nullable(
    alloc: Global,
    text: &mut String,
    question: &Question<'_>,
    grammar: &Grammar,
) -> Result<(), QuestionError>
    requires { IsWellFormed grammar.now }
{
    let name = start_of(alloc, question, 1)?;
    let sets = FirstSets::new(alloc, grammar)?;
    write!(text, "nullable {}\n", sets.is_nullable(&name))?;
    Ok(())
}

// Appends a set of tokens.
fn push_set(
    text: &mut String,
    set: &TokenSet,
    terminals: &TerminalSet,
) -> Result<(), QuestionError> {
    text.push_str("tokens")?;
    push_tokens(text, set, terminals)?;
    text.push_str("\n")?;
    Ok(())
}
