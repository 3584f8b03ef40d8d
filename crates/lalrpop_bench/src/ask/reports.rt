//! Questions on reports.
ghost use Rattle.lalrpop_base.specs.Words.{IsWellFormed};

use lalrpop_base::lr1_core::state::{BuildError, Lr1Result};
use lalrpop_base::repr::NonterminalString;
use lalrpop_base::repr::grammar::Grammar;
use lalrpop_lr1::report::{Counted, ReportError, ReportGenerator, generate_report};
use lalrpop_tables::build::build_lr0_states;
use lalrpop_tables::lr1::build_states;
use std::alloc::Global;
use std::io::ErrorKind;
use table_questions::ask::arguments::{method_at, options_from};
use table_questions::ask::states::start_of;
use table_questions::question::{Question, QuestionError};

/// Appends the report of the states that the arguments ask for. Returns `false` if the call has
/// another name.
pub(crate) fn answer(
    alloc: Global,
    text: &mut String,
    question: &Question<'_>,
    grammar: &Grammar,
) -> Result<bool, QuestionError>
    requires { IsWellFormed grammar.now }
{
    if question.call != "generate_report" {
        return Ok(false);
    }
    let start = start_of(alloc, question, 1)?;
    if question.argument(2)? == "lr0" {
        push_lr0_report(alloc, text, grammar, start)?;
    } else {
        push_lr1_report(alloc, text, question, grammar, start)?;
    }
    Ok(true)
}

// Appends the report of the states of a method.
fn push_lr1_report(
    alloc: Global,
    text: &mut String,
    question: &Question<'_>,
    grammar: &Grammar,
    start: NonterminalString,
) -> Result<(), QuestionError>
    requires { IsWellFormed grammar.now }
{
    let method = method_at(question, 2)?;
    let is_reversed = question.is(3, "reversed");
    let from = if is_reversed { 4 } else { 3 };
    let options = options_from(question, from, method)?;
    let mut answer = build_states(alloc, grammar, start, &options);
    if is_reversed {
        reverse_conflicts(&mut answer);
    }
    push_report(alloc, text, grammar, &answer)
}

// Reverses the order of the conflicts, if there are any.
fn reverse_conflicts(answer: &mut Lr1Result<'_>) {
    if let Err(BuildError::Conflicts(error)) = answer {
        error.conflicts.reverse();
    }
}

// Appends the report of LR(0) states.
fn push_lr0_report(
    alloc: Global,
    text: &mut String,
    grammar: &Grammar,
    start: NonterminalString,
) -> Result<(), QuestionError>
    requires { IsWellFormed grammar.now }
{
    let answer = build_lr0_states(alloc, grammar, start);
    if let Err(BuildError::Memory) = &answer {
        return Err(QuestionError::Memory);
    }
    let mut out = Counted::new(Vec::new(alloc));
    let written = ReportGenerator::new(&mut out, &grammar.terminals).report_lr_table_construction(
        alloc, &answer,
    );
    push_written(alloc, text, written, &out.into_inner())
}

// Appends the report of LR(1) states.
fn push_report(
    alloc: Global,
    text: &mut String,
    grammar: &Grammar,
    answer: &Lr1Result<'_>,
) -> Result<(), QuestionError> {
    if let Err(BuildError::Memory) = answer {
        return Err(QuestionError::Memory);
    }
    let mut out = Counted::new(Vec::new(alloc));
    let written = generate_report(alloc, &mut out, &grammar.terminals, answer);
    push_written(alloc, text, written, &out.into_inner())
}

// Appends the bytes that were written of a report, or the text of the error.
fn push_written(
    alloc: Global,
    text: &mut String,
    written: Result<(), ReportError>,
    bytes: &[u8],
) -> Result<(), QuestionError> {
    match written {
        Ok(()) => {
            let report = String::from_utf8_lossy(alloc, bytes)?;
            Ok(text.push_str(report.as_str())?)
        }
        Err(error) if tells_of_memory(&error) => Err(QuestionError::Memory),
        Err(error) => Ok(write!(text, "{error}\n")?),
    }
}

// Whether an error reports an allocation failure. The list that takes the bytes can have one, too.
fn tells_of_memory(error: &ReportError) -> bool {
    match error {
        ReportError::Memory => true,
        ReportError::Write(error) => error.kind() == ErrorKind::OutOfMemory,
        ReportError::WriteZero | ReportError::NoTables => false,
    }
}
