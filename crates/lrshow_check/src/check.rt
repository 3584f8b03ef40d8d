//! A check of a grammar: everything that is wrong or doubtful with it.
ghost use Rattle.std.specs.Prelude.{◌≡◌, ◌∷◌, None, Some, [], IfOk, false, map, option_map, position};
ghost use Rattle.lalrpop_base.specs.Words.{IsWellFormed};
ghost use Rattle.grammar_text.specs.Lines.{is_fault, lines_of};
ghost use Rattle.grammar_text.specs.Grammar.{StandsFor};
ghost use Rattle.lrshow_check.specs.Output.{IsOutput};
ghost use Rattle.lrshow_check.specs.Check.{AreWarned, IsCheckAnswer, IsLastAnswer, ring_finding};
ghost use Rattle.grammar_diagnostics.specs.TextLines.{AreTextLines};
ghost use Rattle.lrshow_check.specs.Findings.{finding_view, findings_output, findings_status};
ghost use Rattle.lrshow_arguments.specs.Words.{check_view};

mod causes;
mod doubts;
mod errors;

use crate::findings::{Finding, findings_output, findings_status};
use causes::with_causes;
use doubts::doubt_findings;
use errors::error_findings;
use grammar_diagnostics::text_errors::text_errors;
use grammar_diagnostics::text_lines::TextLines;
use grammar_diagnostics::warning_places::name_place;
use grammar_diagnostics::warnings::warnings;
use grammar_text::grammar::read;
use grammar_text::read_error::ReadError;
use grammar_text::symbols::name_of;
use lalrpop_base::memory::OutOfMemory;
use lalrpop_base::repr::grammar::Grammar;
use lalrpop_base::repr::norm_error::NormError;
use lalrpop_base::repr::{NonterminalString, Span};
use lalrpop_inline::inline::inline;
use lalrpop_tables::build::Method;
use lrshow_arguments::words::Check;
use program_answers::answer::{Answer, Shown, cannot_read, text_of};
use std::alloc::Global;
use std::io::Read;

/// The result of a check of a file. `file` is `None` if the file could not be opened.
/// `OutOfMemory` if an allocation fails.
pub fn check_file<R: Read + Drop>(
    alloc: Global,
    check: Check<'_>,
    name: &str,
    method: Method,
    file: Option<R>,
) -> Result<Answer, OutOfMemory>
    ensures { IfOk result
        (IsCheckAnswer method (check_view check.entry) name.now (option_map R.remaining file)) }
{
    let Some(reader) = file else {
        return Ok(Answer::Fault(cannot_read(alloc, name)?));
    };
    match text_of(alloc, reader)? {
        None => Ok(Answer::Fault(cannot_read(alloc, name)?)),
        Some(text) => check_text(alloc, check, name, method, text.as_str()),
    }
}

// The result of a check of a text.
fn check_text(
    alloc: Global,
    check: Check<'_>,
    name: &str,
    method: Method,
    text: &str,
) -> Result<Answer, OutOfMemory>
    ensures { IfOk result (IsCheckAnswer method (check_view check.entry) name.now (Some (Some text.now))) }
{
    let errors = text_errors(alloc, text)?;
    if errors.is_empty() {
        return check_right(alloc, check, name, method, text);
    }
    let found = error_findings(alloc, &errors)?;
    let shown = written(alloc, check.is_json, name, &found)?;
    Ok(Answer::Output(shown))
}

// What is shown of findings.
fn written(
    alloc: Global,
    is_json: bool,
    name: &str,
    found: &[Finding],
) -> Result<Shown, OutOfMemory>
    ensures { IfOk result (IsOutput (findings_status (map finding_view found.now))
        (findings_output is_json name.now (map finding_view found.now)) []) }
{
    let text = findings_output(alloc, is_json, name, found)?;
    Shown::of(alloc, findings_status(found), text, String::new(alloc))
}

// The result of a check of a text without errors.
fn check_right(
    alloc: Global,
    check: Check<'_>,
    name: &str,
    method: Method,
    text: &str,
) -> Result<Answer, OutOfMemory>
    requires { position is_fault (lines_of text.now) ≡ None }
    ensures { IfOk result (IsCheckAnswer method (check_view check.entry) name.now (Some (Some text.now))) }
{
    match read(alloc, text) {
        Ok(grammar) => check_grammar(alloc, check, name, method, text, grammar),
        Err(ReadError::Line(_)) => unreachable!(),
        Err(ReadError::TooManyActions) => Ok(Answer::TooManyActions),
        Err(ReadError::Memory) => Err(OutOfMemory),
    }
}

// The result of a check of the grammar of a text.
fn check_grammar(
    alloc: Global,
    check: Check<'_>,
    name: &str,
    method: Method,
    text: &str,
    grammar: Grammar,
) -> Result<Answer, OutOfMemory>
    requires right { position is_fault (lines_of text.now) ≡ None }
    requires stands { StandsFor (lines_of text.now) grammar }
    requires well_formed { IsWellFormed grammar }
    requires canonical { grammar.algorithm.lalr ≡ false }
    ensures { IfOk result (IsCheckAnswer method (check_view check.entry) name.now (Some (Some text.now))) }
{
    let start = name_of(alloc, check.start)?;
    let lines = TextLines::new(alloc, text)?;
    let found = warned(alloc, &lines, &start, &grammar)?;
    let answer = ended(alloc, start, check, name, method, &lines, grammar, found)?;
    Ok(answer)
}

// The findings of the warnings of a grammar.
fn warned(
    alloc: Global,
    lines: &TextLines<'_>,
    start: &NonterminalString,
    grammar: &Grammar,
) -> Result<Vec<Finding>, OutOfMemory>
    requires lines { AreTextLines lines.now }
    requires well_formed { IsWellFormed grammar.now }
    ensures { IfOk result (λ found.
        AreWarned lines.now.text.now start.now grammar.now (map finding_view found.items)) }
{
    let all = warnings(alloc, grammar, start)?;
    let found = doubt_findings(alloc, lines, start, grammar, &all)?;
    Ok(found)
}

// The result after the warnings of a grammar.
fn ended(
    alloc: Global,
    start: NonterminalString,
    check: Check<'_>,
    name: &str,
    method: Method,
    lines: &TextLines<'_>,
    grammar: Grammar,
    found: Vec<Finding>,
) -> Result<Answer, OutOfMemory>
    requires lines { AreTextLines lines.now }
    requires well_formed { IsWellFormed grammar }
    requires canonical { grammar.algorithm.lalr ≡ false }
    ensures { IfOk result (IsLastAnswer method start (check_view check.entry) name.now
        lines.now.text.now (map finding_view found.items) grammar) }
{
    match inline(alloc, grammar) {
        Ok(inlined) => {
            let all = with_causes(alloc, lines, start, method, &inlined, found)?;
            let shown = written(alloc, check.is_json, name, &all)?;
            Ok(Answer::Output(shown))
        }
        Err(NormError::Cycle { span, name: one }) => {
            let all = with_ring(alloc, lines, span, &one, found)?;
            let shown = written(alloc, check.is_json, name, &all)?;
            Ok(Answer::Output(shown))
        }
        Err(NormError::TooManyActions) => Ok(Answer::TooManyActions),
        Err(NormError::Memory) => Err(OutOfMemory),
    }
}

// The finding of a nonterminal that would have to be inlined into itself, and then others.
fn with_ring(
    alloc: Global,
    lines: &TextLines<'_>,
    span: Span,
    one: &NonterminalString,
    found: Vec<Finding>,
) -> Result<Vec<Finding>, OutOfMemory>
    requires { AreTextLines lines.now }
    ensures { IfOk result (λ all. map finding_view all.items
        ≡ ring_finding lines.now.text.now one.now span ∷ map finding_view found.items) }
{
    let mut all = Vec::new(alloc);
    all.push(ring_finding(alloc, lines, span, one)?)?;
    let mut others = found;
    all.append(&mut others)?;
    Ok(all)
}

// The finding of a nonterminal that would have to be inlined into itself.
fn ring_finding(
    alloc: Global,
    lines: &TextLines<'_>,
    span: Span,
    one: &NonterminalString,
) -> Result<Finding, OutOfMemory>
    requires { AreTextLines lines.now }
    ensures { IfOk result
        (λ found. finding_view found ≡ ring_finding lines.now.text.now one.now span) }
{
    let place = name_place(alloc, lines, one, span)?;
    Ok(Finding {
        is_error: true,
        line: place.line,
        column: place.column,
        start: place.span.0,
        end: place.span.1,
        what: format!(in alloc; "`{one}` would have to be inlined into itself")?,
        hint: String::from_str(alloc, "leave a mark out")?,
    })
}
