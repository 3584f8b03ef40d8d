// Errors and warnings with their hints, each in one text. `lrshow` prints the parts of such a text.
ghost use Rattle.lalrpop_base.specs.Words.{IsWellFormed};

use grammar_diagnostics::messages::message;
use grammar_diagnostics::places::line_at;
use grammar_diagnostics::text_errors::{TextError, text_errors};
use grammar_diagnostics::warnings::{Warning, warnings};
use grammar_text::symbols::name_of;
use lalrpop_base::memory::OutOfMemory;
use lalrpop_base::repr::NonterminalString;
use lalrpop_base::repr::grammar::Grammar;
use std::alloc::Global;
use std::test::Fail;
use test_fixtures::texts::grammar;

// The errors of a text.
fn errors_of(alloc: Global, text: &str) -> Result<String, OutOfMemory> {
    let mut all = String::new(alloc);
    for error in &text_errors(alloc, text)? {
        all.push_str(error_line(alloc, error)?.as_str())?;
    }
    Ok(all)
}

// The place and the message of an error.
fn error_line(alloc: Global, error: &TextError<'_>) -> Result<String, OutOfMemory> {
    let (line, column) = (error.line, error.column);
    Ok(format!(in alloc; "{line}:{column}: {error}\n")?)
}

// The warnings of the grammar of a text, with the start symbol `S`. This function alone owns a
// grammar. Each function that owns one has to prove that it drops each part of it.
fn answer(alloc: Global, text: &str) -> Result<String, Fail> {
    let grammar = grammar(alloc, text)?;
    let start = name_of(alloc, "S")?;
    warnings_of(alloc, text, &grammar, &start)
}

// The warnings of a grammar, of which a text is given.
fn warnings_of(
    alloc: Global,
    text: &str,
    grammar: &Grammar,
    start: &NonterminalString,
) -> Result<String, Fail>
    requires { IsWellFormed grammar.now }
{
    let mut all = String::new(alloc);
    for warning in &warnings(alloc, grammar, start)? {
        let line = said(alloc, text, start, warning)?;
        all.push_str(line.as_str())?;
    }
    Ok(all)
}

// The line and the message of a warning, without a name that may be meant.
fn said(
    alloc: Global,
    text: &str,
    start: &NonterminalString,
    warning: &Warning<'_>,
) -> Result<String, OutOfMemory> {
    let row = line_at(text, warning.span().0);
    let words = message(alloc, text, start, None, warning)?;
    Ok(format!(in alloc; "{row}: {words}\n")?)
}

// Each text with the warnings that are expected.
const WARNINGS: [(&str, &str); 3] = [
    (
        "S = A N\nA = \"a\"\nS = N \"b\"\nS = \"c\"",
        "1: `N` has no production; write one, or mend the name\n",
    ),
    (
        "S = A \"x\"\nA = \"a\"\nS = A \"x\"",
        "3: the right side is that of line 1; leave one of the two out\n",
    ),
    (
        "T = S\nT = \"t\"\nS = \"s\" T",
        "1: `S` is on a right side; add a start symbol that is on none\n",
    ),
];

const FAULTS: &str = "S : A\nT = *\nU = \"u\"";

const ERRORS: &str =
    "1:3: `:` is in the place of \"=\"; write \"=\" between the left side and the right side\n2:5: `*` is neither a name nor a literal; write the repetition as productions of a nonterminal\n";

// Fails unless two texts are equal.
fn is_equal(answer: &str, expected: &str) -> Result<(), Fail> {
    if answer != expected {
        return Err(Fail::new(format_args!("{answer} is not {expected}")));
    }
    Ok(())
}

// Fails unless the warnings of each text are the expected ones. The proof of a test that compares
// takes as long as that of a large function.
fn expect(alloc: Global, cases: &[(&str, &str)]) -> Result<(), Fail> {
    for (text, expected) in cases {
        is_equal(answer(alloc, text)?.as_str(), expected)?;
    }
    is_equal(errors_of(alloc, FAULTS)?.as_str(), ERRORS)
}

#[test]
fn messages(rt: HostRuntime) -> Result<(), Fail> {
    expect(rt.alloc(), &WARNINGS)
}
