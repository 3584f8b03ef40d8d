//! The errors of a text as findings.
ghost use Rattle.std.specs.Prelude.{◌≡◌, IfOk, map};
ghost use Rattle.grammar_diagnostics.specs.TextErrors.{error_view};
ghost use Rattle.lrshow_check.specs.Check.{error_finding};
ghost use Rattle.lrshow_check.specs.Findings.{finding_view};

use crate::findings::Finding;
use grammar_diagnostics::text_errors::TextError;
use lalrpop_base::memory::OutOfMemory;
use std::alloc::Global;

/// The findings of errors. `OutOfMemory` if an allocation fails.
pub(crate) fn error_findings(
    alloc: Global,
    errors: &[TextError<'_>],
) -> Result<Vec<Finding>, OutOfMemory>
    ensures { IfOk result (λ found. map finding_view found.items
        ≡ map error_finding (map error_view errors.now)) }
{
    let mut found = Vec::new(alloc);
    for error in errors {
        found.push(error_finding(alloc, error)?)?;
    }
    Ok(found)
}

// The finding of an error.
fn error_finding(alloc: Global, error: &TextError<'_>) -> Result<Finding, OutOfMemory>
    ensures { IfOk result (λ found. finding_view found ≡ error_finding (error_view error.now)) }
{
    Ok(Finding {
        is_error: true,
        line: error.line,
        column: error.column,
        start: error.span.0,
        end: error.span.1,
        what: error.fault_text(alloc)?,
        hint: String::from_str(alloc, error.hint().text())?,
    })
}
