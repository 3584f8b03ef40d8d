//! The calls that a question can name. Each appends its result to a text.
mod any_start;
mod error_texts;
mod grammars;
mod reports;
mod runs;
mod trace_graphs;
mod traces;

ghost use Rattle.lalrpop_base.specs.Words.{IsWellFormed};

use grammar_text::grammar::read;
use grammar_text::read_error::ReadError;
use lalrpop_base::repr::grammar::{Algorithm, Grammar};
use lalrpop_lr1::inline::inline;
use std::alloc::Global;
use table_questions::ask::push_refusal;
use table_questions::question::{Question, QuestionError};

/// The result of a question on the grammar of a text. The errors are those of the question: an
/// unknown call, a wrong argument, or an allocation failure.
pub(crate) fn answer(
    alloc: Global,
    question: &Question<'_>,
    grammar: &str,
) -> Result<String, QuestionError> {
    let mut text = String::new(alloc);
    push_answer(alloc, &mut text, question, grammar)?;
    Ok(text)
}

// Appends the result of a question on the grammar of a text.
fn push_answer(
    alloc: Global,
    text: &mut String,
    question: &Question<'_>,
    grammar: &str,
) -> Result<(), QuestionError> {
    match read(alloc, grammar) {
        Ok(grammar) => answer_of_grammar(alloc, text, question, grammar),
        Err(ReadError::Line(number)) => Ok(write!(text, "line {number}: not a grammar line\n")?),
        Err(ReadError::TooManyActions) => Ok(text.push_str("too many actions\n")?),
        Err(ReadError::Memory) => Err(QuestionError::Memory),
    }
}

// Appends the result of a question on a grammar as it was read, or else on the grammar with its
// marked nonterminals inlined.
fn answer_of_grammar(
    alloc: Global,
    text: &mut String,
    question: &Question<'_>,
    grammar: Grammar,
) -> Result<(), QuestionError>
    requires { IsWellFormed grammar }
{
    if grammars::answer(alloc, text, question, &grammar)? {
        return Ok(());
    }
    match inline(alloc, grammar) {
        Ok(inlined) => answer_of_inlined(alloc, text, question, inlined),
        Err(error) => push_refusal(text, &error),
    }
}

// Appends the result of a question on a grammar without marked nonterminals. The argument
// `collapsed` marks the grammar for the collapse to LALR(1) states.
fn answer_of_inlined(
    alloc: Global,
    text: &mut String,
    question: &Question<'_>,
    grammar: Grammar,
) -> Result<(), QuestionError>
    requires { IsWellFormed grammar }
{
    if question.has("collapsed") {
        return answer_of_each(alloc, text, question, &collapsing(grammar));
    }
    answer_of_each(alloc, text, question, &grammar)
}

// The grammar, marked for the collapse to LALR(1) states.
fn collapsing(grammar: Grammar) -> Grammar
    requires { IsWellFormed grammar }
    ensures { IsWellFormed result }
{
    let Grammar {
        nonterminals,
        terminals,
        action_fn_defns,
        algorithm: _,
    } = grammar;
    Grammar {
        nonterminals,
        terminals,
        action_fn_defns,
        algorithm: Algorithm { lalr: true },
    }
}

// Appends the result of the first group of calls that has the call of the question.
fn answer_of_each(
    alloc: Global,
    text: &mut String,
    question: &Question<'_>,
    grammar: &Grammar,
) -> Result<(), QuestionError>
    requires { IsWellFormed grammar.now }
{
    if grammars::answer_inlined(text, question, grammar)? {
        return Ok(());
    }
    if table_questions::ask::answer(alloc, text, question, grammar)? {
        return Ok(());
    }
    if answer_of_runs(alloc, text, question, grammar)? {
        return Ok(());
    }
    Err(QuestionError::Call)
}

// Appends the result of a question on reports, parses for any start symbol, runs, error texts and
// traces. Returns `false` if the call has another name.
fn answer_of_runs(
    alloc: Global,
    text: &mut String,
    question: &Question<'_>,
    grammar: &Grammar,
) -> Result<bool, QuestionError>
    requires { IsWellFormed grammar.now }
{
    if reports::answer(alloc, text, question, grammar)? {
        return Ok(true);
    }
    if any_start::answer(alloc, text, question, grammar)? {
        return Ok(true);
    }
    if runs::answer(alloc, text, question, grammar)? {
        return Ok(true);
    }
    if error_texts::answer(alloc, text, question)? {
        return Ok(true);
    }
    traces::answer(alloc, text, question, grammar)
}
