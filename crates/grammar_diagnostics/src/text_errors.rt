//! The lines of a text that are no grammar lines.
ghost use Rattle.std.specs.Prelude.{◌↔◌, [], None, position, ◌≡◌, ◌≤◌, ◌<◌, ◌+◌, ◌^◌, ◌++◌, IfOk, OnOk, Some, filter, length, map, string_bytes};
ghost use Rattle.grammar_text.specs.Lines.{is_fault, lines_of};
ghost use Rattle.grammar_diagnostics.specs.Pieces.{piece_view};
ghost use Rattle.grammar_diagnostics.specs.Faults.{fault_view};
ghost use Rattle.grammar_diagnostics.specs.Hints.{hint_of};
ghost use Rattle.grammar_diagnostics.specs.Texts.{error_text, fault_text};
ghost use Rattle.grammar_diagnostics.specs.TextErrors.{ArePlacedIn, column_of, error_of, error_view, errors_of, faulty_lines, line_errors, line_number, starts_character};

use crate::faults::{Fault, fault_of};
use crate::hint::{Hint, hint_of};
use crate::pieces::{Piece, placed_pieces, placed_words};
use crate::reason::Reason;
use grammar_text::lines::before_cr;
use lalrpop_collections::memory::OutOfMemory;
use lalrpop_grammar::repr::Span;
use std::alloc::Global;
use std::fmt;

/// A line of a text that is no grammar line.
#[derive(Clone, Copy)]
pub struct TextError<'t> {
    /// The number of the line, from 1.
    pub line: usize,
    /// The column of the faulty word: one more than the number of characters before it in its line.
    pub column: usize,
    /// The offsets in bytes of the first byte of the faulty word and of the byte after its last.
    pub span: Span,
    /// The faulty word.
    pub word: &'t str,
    /// What is wrong with it.
    pub reason: Reason,
}

impl TextError<'_> {
    /// A way out of the error.
    pub fn hint(&self) -> Hint
        ensures { result ≡ hint_of self.now.reason self.now.word.now }
    {
        hint_of(self.reason, self.word)
    }

    /// The error in words, without its hint. `OutOfMemory` if an allocation fails.
    pub fn fault_text(&self, alloc: Global) -> Result<String, OutOfMemory>
        ensures { IfOk result (λ words. string_bytes words ≡ fault_text (error_view self.now)) }
    {
        let reason = self.reason.text();
        let word = self.word;
        Ok(format!(in alloc; "`{word}` {reason}")?)
    }
}

impl fmt::Display for TextError<'_> {
    ghost output = { λ e. Some (error_text (error_view e)) };

    fn fmt<W: fmt::Write>(&self, f: &mut fmt::Formatter<W>) -> fmt::Result {
        write!(
            f,
            "`{}` {}; {}",
            self.word,
            self.reason.text(),
            self.hint().text()
        )
    }
}

/// The lines of a text that are no grammar lines, in their order, each with its first faulty word.
/// There is none if `grammar_text::read` reports no line. `OutOfMemory` if an allocation fails.
pub fn text_errors<'t>(alloc: Global, text: &'t str) -> Result<Vec<TextError<'t>>, OutOfMemory>
    ensures errors { IfOk result (λ errors. map error_view errors.items ≡ errors_of text.now) }
    ensures lines { IfOk result (λ errors. map line_number errors.items
        ≡ faulty_lines (lines_of text.now)) }
    ensures none { IfOk result (λ errors.
        (errors.items ≡ []) ↔ (position is_fault (lines_of text.now) ≡ None)) }
    ensures placed { IfOk result
        (λ errors. ArePlacedIn text.now (map error_view errors.items)) }
{
    let errors = errors_in(alloc, text)?;
    Ok(errors)
}

// The errors of a text.
fn errors_in<'t>(alloc: Global, text: &'t str) -> Result<Vec<TextError<'t>>, OutOfMemory>
    ensures { IfOk result (λ errors. map error_view errors.items ≡ errors_of text.now) }
{
    let mut errors = Vec::new(alloc);
    let mut number = 0;
    let lines = placed_pieces(alloc, 0, text, '\n')?;
    for line in &lines {
        number += 1;
        add_error(alloc, number, line, &mut errors)?;
    }
    Ok(errors)
}

// Adds the error of a line, if it is no grammar line.
fn add_error<'t>(
    alloc: Global,
    number: usize,
    line: &Piece<'t>,
    errors: &mut Vec<TextError<'t>>,
) -> Result<(), OutOfMemory>
    requires { line.now.start + length line.now.text.now < 2 ^ 64 }
    ensures { OnOk result (map error_view errors.new.items ≡ map error_view errors.old.items
        ++ line_errors number (piece_view line.now)) }
{
    let words = placed_words(alloc, 0, before_cr(line.text))?;
    if let Some(fault) = fault_of(&words) {
        errors.push(error_of(number, line, fault))?;
    }
    Ok(())
}

// The error of a fault in a line, in which the word has its place.
fn error_of<'t>(number: usize, line: &Piece<'t>, fault: Fault<'t>) -> TextError<'t>
    requires starts { fault.word.start ≤ length line.now.text.now }
    requires ends { line.now.start + (fault.word.start
        + length fault.word.text.now) < 2 ^ 64 }
    ensures { error_view result ≡ error_of number (piece_view line.now)
        (fault_view fault.entry) }
{
    let start = line.start + fault.word.start;
    TextError {
        line: number,
        column: column_of(line.text, fault.word.start),
        span: Span(start, start + fault.word.text.len()),
        word: fault.word.text,
        reason: fault.reason,
    }
}

// The column of what begins at an offset of a line.
pub(crate) fn column_of(line: &str, start: usize) -> usize
    requires { start ≤ length line.now }
    ensures { result ≡ column_of line.now start }
{
    characters(&line.as_bytes()[..start]) + 1
}

// The number of characters of a part of a UTF-8 text.
fn characters(bytes: &[u8]) -> usize
    ensures count { result ≡ length (filter starts_character bytes.now) }
    ensures few { result ≤ length bytes.now }
{
    let mut count = 0;
    for byte in bytes {
        if starts_a_character(*byte) {
            count += 1;
        }
    }
    count
}

// Whether a byte is the first one of a character.
fn starts_a_character(byte: u8) -> bool
    ensures { result ≡ starts_character byte }
{
    byte < 128 || byte >= 192
}
