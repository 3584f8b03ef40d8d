//! The texts of errors.
use lalrpop_base::lookahead::token::Token;
use lalrpop_base::lookahead::token_set::TokenSet;
use lalrpop_base::lr1_core::state::{BuildError, StateIndex, TableConstructionError};
use lalrpop_base::memory::OutOfMemory;
use lalrpop_base::repr::norm_error::NormError;
use lalrpop_base::repr::terminals::TerminalSetError;
use lalrpop_base::repr::{NonterminalString, Span, TerminalString};
use lalrpop_base::text::Text;
use lalrpop_lr1::headline::ParseError;
use lalrpop_lr1::interpret::InterpretError;
use lalrpop_lr1::report::ReportError;
use lalrpop_tables::lane_table::construct::merge::MergeError;
use lalrpop_tables::lane_table::context_set::OverlappingLookahead;
use lalrpop_tables::lane_table::table::rows::RowsError;
use std::alloc::Global;
use std::io::{self, ErrorKind};
use table_questions::question::{Question, QuestionError};

/// Appends the texts of errors. Returns `false` if the call has another name.
pub(crate) fn answer(
    alloc: Global,
    text: &mut String,
    question: &Question<'_>,
) -> Result<bool, QuestionError> {
    if question.call != "error_texts" {
        return Ok(false);
    }
    push_of_grammars(alloc, text)?;
    push_of_tables(alloc, text)?;
    push_of_parses(alloc, text)?;
    push_of_reports(text)?;
    Ok(true)
}

// Appends the texts of errors of grammars.
fn push_of_grammars(alloc: Global, text: &mut String) -> Result<(), QuestionError> {
    let terminal = TerminalString::Literal(Text::new(alloc, "a")?);
    let name = NonterminalString {
        text: Text::new(alloc, "A")?,
    };
    let span = Span(0, 1);
    write!(text, "{OutOfMemory}\n")?;
    write!(text, "{}\n", TerminalSetError::Repeated(terminal))?;
    write!(text, "{}\n", TerminalSetError::Memory)?;
    write!(text, "{}\n", NormError::Cycle { span, name })?;
    write!(text, "{}\n", NormError::TooManyActions)?;
    write!(text, "{}\n", NormError::Memory)?;
    Ok(())
}

// An error with no states and no conflicts.
fn no_conflicts<'grammar>(alloc: Global) -> TableConstructionError<'grammar, TokenSet> {
    TableConstructionError {
        states: Vec::new(alloc),
        conflicts: Vec::new(alloc),
    }
}

// Appends the text of an error of a construction.
fn push_of_build(text: &mut String, error: &BuildError<'_, TokenSet>) -> Result<(), QuestionError> {
    write!(text, "{error}\n")?;
    Ok(())
}

// Appends the text of an error of a parse by the tables of a grammar.
fn push_of_parse(text: &mut String, error: &ParseError<'_>) -> Result<(), QuestionError> {
    write!(text, "{error}\n")?;
    Ok(())
}

// Appends the texts of errors of tables.
fn push_of_tables(alloc: Global, text: &mut String) -> Result<(), QuestionError> {
    push_of_build(text, &BuildError::Conflicts(no_conflicts(alloc)))?;
    push_of_build(text, &BuildError::Memory)?;
    write!(text, "{}\n", RowsError::State(StateIndex(3)))?;
    write!(text, "{}\n", RowsError::Memory)?;
    write!(text, "{}\n", OverlappingLookahead::Overlapping)?;
    write!(text, "{}\n", OverlappingLookahead::Memory)?;
    write!(
        text,
        "{}\n",
        MergeError::Apart(StateIndex(1), StateIndex(2))
    )?;
    write!(text, "{}\n", MergeError::CopyLimit)?;
    write!(text, "{}\n", MergeError::Memory)?;
    Ok(())
}

// Appends the texts of errors of parses.
fn push_of_parses(alloc: Global, text: &mut String) -> Result<(), QuestionError> {
    let limit: InterpretError<'_, '_, TokenSet> = InterpretError::Limit;
    let memory: InterpretError<'_, '_, TokenSet> = InterpretError::Memory;
    write!(text, "{limit}\n{memory}\n")?;
    push_of_parse(text, &ParseError::Conflicts(no_conflicts(alloc)))?;
    push_of_parse(text, &ParseError::Refused(Token::Eof))?;
    push_of_parse(text, &ParseError::Limit)?;
    push_of_parse(text, &ParseError::Memory)?;
    Ok(())
}

// Appends the texts of errors of reports.
fn push_of_reports(text: &mut String) -> Result<(), QuestionError> {
    let fault = io::Error::from(ErrorKind::BrokenPipe);
    write!(text, "{}\n", ReportError::Write(fault))?;
    write!(text, "{}\n", ReportError::WriteZero)?;
    write!(text, "{}\n", ReportError::Memory)?;
    write!(text, "{}\n", ReportError::NoTables)?;
    Ok(())
}
