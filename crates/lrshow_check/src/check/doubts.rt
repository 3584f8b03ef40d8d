//! The warnings of a grammar as findings.
ghost use Rattle.std.specs.Prelude.{◌≡◌, ◌++◌, IfOk, OnOk, map, string_bytes};
ghost use Rattle.lalrpop_base.specs.Words.{IsWellFormed, rules_of};
ghost use Rattle.grammar_diagnostics.specs.TextLines.{AreTextLines};
ghost use Rattle.grammar_diagnostics.specs.Warnings.{warning_view};
ghost use Rattle.grammar_diagnostics.specs.CyclePaths.{names_now};
ghost use Rattle.lrshow_check.specs.Check.{AreDoubtFindings, IsDoubtFinding, IsDoubtText, cycle_text};
ghost use Rattle.lrshow_check.specs.Findings.{finding_view};

use crate::findings::Finding;
use grammar_diagnostics::cycle::unit_cycle;
use grammar_diagnostics::messages::{doubt_text, way_out};
use grammar_diagnostics::nearest::suggestion;
use grammar_diagnostics::text_lines::TextLines;
use grammar_diagnostics::warning_places::warning_place;
use grammar_diagnostics::warnings::Warning;
use lalrpop_base::first::FirstSets;
use lalrpop_base::memory::OutOfMemory;
use lalrpop_base::repr::NonterminalString;
use lalrpop_base::repr::grammar::Grammar;
use std::alloc::Global;
use std::collections::VecDeque;

/// The most steps of a way from a cyclic nonterminal back to itself that is shown.
const MOST_STEPS: usize = 20;

/// The findings of warnings. `OutOfMemory` if an allocation fails.
pub(crate) fn doubt_findings(
    alloc: Global,
    lines: &TextLines<'_>,
    start: &NonterminalString,
    grammar: &Grammar,
    warnings: &[Warning<'_>],
) -> Result<Vec<Finding>, OutOfMemory>
    requires lines { AreTextLines lines.now }
    requires well_formed { IsWellFormed grammar.now }
    ensures { IfOk result (λ found. AreDoubtFindings lines.now.text.now start.now grammar.now
        (map warning_view warnings.now) (map finding_view found.items)) }
{
    let sets = FirstSets::new(alloc, grammar)?;
    let mut found = Vec::new(alloc);
    for warning in warnings {
        found.push(doubt_finding(alloc, lines, start, grammar, &sets, warning)?)?;
    }
    Ok(found)
}

// The finding of a warning.
fn doubt_finding(
    alloc: Global,
    lines: &TextLines<'_>,
    start: &NonterminalString,
    grammar: &Grammar,
    sets: &FirstSets<'_>,
    warning: &Warning<'_>,
) -> Result<Finding, OutOfMemory>
    requires lines { AreTextLines lines.now }
    requires sets { sets.now ≡ rules_of grammar.now }
    ensures { IfOk result (λ found. IsDoubtFinding lines.now.text.now start.now grammar.now
        (warning_view warning.now) (finding_view found)) }
{
    let place = warning_place(alloc, lines, start, warning)?;
    let near = suggestion(alloc, grammar, start, warning)?;
    Ok(Finding {
        is_error: false,
        line: place.line,
        column: place.column,
        start: place.span.0,
        end: place.span.1,
        what: doubt_words(alloc, lines.text(), start, grammar, sets, warning)?,
        hint: way_out(alloc, near, warning)?,
    })
}

// What is doubtful, in words. For a cyclic nonterminal these have a way back to it, if there is one
// of few steps.
fn doubt_words(
    alloc: Global,
    text: &str,
    start: &NonterminalString,
    grammar: &Grammar,
    sets: &FirstSets<'_>,
    warning: &Warning<'_>,
) -> Result<String, OutOfMemory>
    requires { sets.now ≡ rules_of grammar.now }
    ensures { IfOk result (λ words. IsDoubtText text.now start.now grammar.now
        (warning_view warning.now) (string_bytes words)) }
{
    let mut words = doubt_text(alloc, text, start, warning)?;
    if let Warning::Cyclic(name, _) = warning {
        if let Some(cycle) = unit_cycle(alloc, grammar, sets, name, MOST_STEPS)? {
            push_cycle(&mut words, &cycle)?;
        }
    }
    Ok(words)
}

// Appends a way from a nonterminal back to itself.
fn push_cycle(words: &mut String, cycle: &VecDeque<&NonterminalString>) -> Result<(), OutOfMemory>
    ensures { OnOk result
        (string_bytes words.new ≡ string_bytes words.old ++ cycle_text (names_now cycle.now.items)) }
{
    words.push_str(":")?;
    for name in cycle {
        write!(words, " `{name}`")?;
    }
    Ok(())
}
