//! Questions on parsing for any start symbol.
use super::runs::{Input, input_of, push_shown};
use lalrpop_base::repr::NonterminalString;
use lalrpop_base::repr::grammar::{Grammar, is_well_formed};
use lalrpop_lr1::headline::any_start::{AugmentedGrammar, parse_from_any};
use lalrpop_tables::build::Options;
use std::alloc::Global;
use table_questions::ask::arguments::method_at;
use table_questions::ask::push_refusal;
use table_questions::ask::states::start_of;
use table_questions::question::{Question, QuestionError};

/// Appends the result of a parse by a grammar, whose start symbol may be on a right side. Returns
/// `false` if the call has another name.
pub(crate) fn answer(
    alloc: Global,
    text: &mut String,
    question: &Question<'_>,
    grammar: &Grammar,
) -> Result<bool, QuestionError> {
    if question.call != "parse_from_any" {
        return Ok(false);
    }
    let start = start_of(alloc, question, 1)?;
    let options = Options {
        method: method_at(question, 2)?,
        ..Options::default()
    };
    let input = input_of(alloc, question)?;
    push_parsed(alloc, text, grammar, start, &options, input)?;
    Ok(true)
}

// Appends the result of a parse of an input by a copy of a grammar.
fn push_parsed(
    alloc: Global,
    text: &mut String,
    grammar: &Grammar,
    start: NonterminalString,
    options: &Options,
    input: Input,
) -> Result<(), QuestionError> {
    let copy = grammar.clone(alloc)?;
    if !is_well_formed(&copy) {
        text.push_str("not well-formed\n")?;
        return Ok(());
    }
    match AugmentedGrammar::new(alloc, copy, start) {
        Ok(augmented) => {
            let (tokens, limit) = (input.tokens, input.limit);
            let parsed = parse_from_any(alloc, &augmented, options, tokens, limit);
            push_shown(text, parsed)
        }
        Err(error) => push_refusal(text, &error),
    }
}
