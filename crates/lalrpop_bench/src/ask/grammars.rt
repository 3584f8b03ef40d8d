//! Questions of the grammar that a text stands for, and of its inlining.
use grammar_text::builder::{GrammarBuilder, SymbolText};
use grammar_text::builder_error::BuilderError;
use grammar_text::symbols::literals;
use lalrpop_base::repr::grammar::Grammar;
use lalrpop_base::repr::norm_error::NormError;
use lalrpop_lr1::inline::inline_order;
use std::alloc::Global;
use table_questions::ask::push_refusal;
use table_questions::question::{Question, QuestionError};
use table_questions::show::grammar::{
    push_grammar, push_inline_actions, push_names, push_productions,
};

/// Appends the result of a question on a grammar as it was read. Returns `false` if the call has
/// another name.
pub(crate) fn answer(
    alloc: Global,
    text: &mut String,
    question: &Question<'_>,
    grammar: &Grammar,
) -> Result<bool, QuestionError> {
    match question.call {
        "read" => push_grammar(text, grammar)?,
        "inline_order" => push_order(alloc, text, grammar)?,
        "cycle" => push_cycle(alloc, text, grammar)?,
        "grammar_builder" => push_built(alloc, text, question)?,
        "literals" => push_literals(alloc, text, question)?,
        _ => return Ok(false),
    }
    Ok(true)
}

/// Appends the productions of an inlined grammar, and the actions that inlining made. Returns
/// `false` if the call has another name.
pub(crate) fn answer_inlined(
    text: &mut String,
    question: &Question<'_>,
    grammar: &Grammar,
) -> Result<bool, QuestionError> {
    if question.call != "inline" {
        return Ok(false);
    }
    push_productions(text, grammar)?;
    push_inline_actions(text, grammar)?;
    Ok(true)
}

// Appends the order in which marked nonterminals are inlined.
fn push_order(alloc: Global, text: &mut String, grammar: &Grammar) -> Result<(), QuestionError> {
    match inline_order(alloc, grammar) {
        Ok(names) => {
            text.push_str("order")?;
            push_names(text, &names)?;
            Ok(text.push_str("\n")?)
        }
        Err(error) => push_refusal(text, &error),
    }
}

// Appends the name and the span with which a ring of marked nonterminals is reported.
fn push_cycle(alloc: Global, text: &mut String, grammar: &Grammar) -> Result<(), QuestionError> {
    match inline_order(alloc, grammar) {
        Ok(_) => Ok(text.push_str("no cycle\n")?),
        Err(NormError::Cycle { span, name }) => {
            Ok(write!(text, "{name} at {}..{}\n", span.0, span.1)?)
        }
        Err(error) => push_refusal(text, &error),
    }
}

// Appends the grammar that a builder makes of the productions and marks between commas, or the error
// of the builder.
fn push_built(
    alloc: Global,
    text: &mut String,
    question: &Question<'_>,
) -> Result<(), QuestionError> {
    match grammar_of(alloc, question.from(1)) {
        Ok(grammar) => Ok(push_grammar(text, &grammar)?),
        Err(BuilderError::Memory) => Err(QuestionError::Memory),
        Err(error) => Ok(write!(text, "{error}\n")?),
    }
}

// The grammar of the productions and marks between commas.
fn grammar_of(alloc: Global, words: &[&str]) -> Result<Grammar, BuilderError> {
    let mut builder = GrammarBuilder::new(alloc);
    add_lines(alloc, &mut builder, words)?;
    builder.finish()
}

// Adds the lines between commas to a builder.
fn add_lines(
    alloc: Global,
    builder: &mut GrammarBuilder,
    words: &[&str],
) -> Result<(), BuilderError> {
    let mut line = Vec::new(alloc);
    for word in words {
        if *word == "," {
            add_line(alloc, builder, &line)?;
            line.clear();
        } else {
            line.push(*word)?;
        }
    }
    add_line(alloc, builder, &line)
}

// Adds a line to a builder: a mark, or a production with its name and `=` or `:` in front. After `:`
// there are pairs of a kind and a text. A line with fewer than two words is passed over.
fn add_line(
    alloc: Global,
    builder: &mut GrammarBuilder,
    line: &[&str],
) -> Result<(), BuilderError> {
    if line.len() < 2 {
        return Ok(());
    }
    if line.len() == 2 && line[0] == "inline" {
        return builder.inline(line[1]);
    }
    if line[1] == ":" {
        let symbols = pairs_of(alloc, &line[2..])?;
        return builder.add_production(line[0], &symbols);
    }
    builder.production(line[0], &line[2..])
}

// The symbols of pairs: `n` and the name of a nonterminal, or another word and a literal.
fn pairs_of<'a>(alloc: Global, words: &[&'a str]) -> Result<Vec<SymbolText<'a>>, BuilderError> {
    let mut symbols = Vec::new(alloc);
    for pair in words.chunks_exact(2) {
        if pair[0] == "n" {
            symbols.push(SymbolText::Nonterminal(pair[1]))?;
        } else {
            symbols.push(SymbolText::Literal(pair[1]))?;
        }
    }
    Ok(symbols)
}

// Appends the literals whose texts are the arguments.
fn push_literals(
    alloc: Global,
    text: &mut String,
    question: &Question<'_>,
) -> Result<(), QuestionError> {
    text.push_str("literals")?;
    for literal in &literals(alloc, question.from(1))? {
        write!(text, " {literal}")?;
    }
    Ok(text.push_str("\n")?)
}
