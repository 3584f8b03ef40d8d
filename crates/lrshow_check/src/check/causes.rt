//! The causes of conflicts as findings.
ghost use Rattle.std.specs.Prelude.{◌≡◌, ◌++◌, IfOk, OnOk, false, map};
ghost use Rattle.lalrpop_base.specs.Words.{IsWellFormed};
ghost use Rattle.conflict_causes.specs.CauseLines.{line_view};
ghost use Rattle.grammar_diagnostics.specs.TextLines.{AreTextLines};
ghost use Rattle.lrshow_check.specs.Check.{AreCausesFound, cause_finding};
ghost use Rattle.lrshow_check.specs.Findings.{finding_view};

use crate::built::build;
use crate::findings::Finding;
use conflict_causes::text::one_line::{CauseLine, cause_lines};
use grammar_diagnostics::text_lines::TextLines;
use grammar_diagnostics::warning_places::name_place;
use lalrpop_base::memory::OutOfMemory;
use lalrpop_base::repr::NonterminalString;
use lalrpop_base::repr::grammar::Grammar;
use lalrpop_tables::build::Method;
use std::alloc::Global;

/// Findings, and then one for each cause of the conflicts of a grammar without marks. `OutOfMemory`
/// if an allocation fails.
pub(crate) fn with_causes(
    alloc: Global,
    lines: &TextLines<'_>,
    start: NonterminalString,
    method: Method,
    inlined: &Grammar,
    found: Vec<Finding>,
) -> Result<Vec<Finding>, OutOfMemory>
    requires lines { AreTextLines lines.now }
    requires well_formed { IsWellFormed inlined.now }
    requires canonical { inlined.now.algorithm.lalr ≡ false }
    ensures { IfOk result (λ all. AreCausesFound method start lines.now.text.now inlined.now
        (map finding_view found.items) (map finding_view all.items)) }
{
    let built = build(alloc, inlined, start, method)?;
    let causes = cause_lines(alloc, &inlined.terminals, &built.states, &built.conflicts)?;
    let mut all = found;
    push_causes(alloc, lines, &causes, &mut all)?;
    Ok(all)
}

// Adds the findings of causes.
fn push_causes(
    alloc: Global,
    lines: &TextLines<'_>,
    causes: &[CauseLine<'_>],
    all: &mut Vec<Finding>,
) -> Result<(), OutOfMemory>
    requires { AreTextLines lines.now }
    ensures { OnOk result (map finding_view all.new.items ≡ map finding_view all.old.items
        ++ map (cause_finding lines.now.text.now) (map line_view causes.now)) }
{
    for cause in causes {
        all.push(cause_finding(alloc, lines, cause)?)?;
    }
    Ok(())
}

// The finding of a cause.
fn cause_finding(
    alloc: Global,
    lines: &TextLines<'_>,
    cause: &CauseLine<'_>,
) -> Result<Finding, OutOfMemory>
    requires { AreTextLines lines.now }
    ensures { IfOk result (λ found.
        finding_view found ≡ cause_finding lines.now.text.now (line_view cause.now)) }
{
    let reduced = cause.reduced;
    let place = name_place(alloc, lines, &reduced.nonterminal, reduced.span)?;
    Ok(Finding {
        is_error: false,
        line: place.line,
        column: place.column,
        start: place.span.0,
        end: place.span.1,
        what: String::from_str(alloc, cause.text.as_str())?,
        hint: String::from_str(alloc, "see `lrshow FILE START conflicts`")?,
    })
}
