//! The place of the word that a warning is about, and that of a name.
ghost use Rattle.std.specs.Prelude.{◌≡◌, ◌≤◌, ◌<◌, ◌+◌, ◌^◌, IfOk, Some, length, map, option_map};
ghost use Rattle.grammar_diagnostics.specs.Pieces.{piece_view};
ghost use Rattle.grammar_diagnostics.specs.TextLines.{AreTextLines};
ghost use Rattle.grammar_diagnostics.specs.Warnings.{warning_view};
ghost use Rattle.grammar_diagnostics.specs.WarningPlaces.{first_word, is_equals_sign, is_word_of, name_place, named_words, other_words, place_on, warning_place, word_about, word_of, word_place};

use crate::pieces::{Piece, placed_words};
use crate::places::line_at;
use crate::text_errors::column_of;
use crate::text_lines::TextLines;
use crate::warnings::Warning;
use grammar_text::lines::before_cr;
use lalrpop_collections::memory::OutOfMemory;
use lalrpop_grammar::repr::{NonterminalString, Span};
use std::alloc::Global;

/// The place of a word in a text.
#[derive(Clone, Copy)]
pub struct Place {
    /// The number of the line, from 1.
    pub line: usize,
    /// One more than the number of characters before the word in its line.
    pub column: usize,
    /// The offsets in bytes of the first byte of the word and of the byte after its last.
    pub span: Span,
}

/// The place of the word that a warning is about. `lines` are those of the text of the grammar, and
/// `start` is the start symbol. If there is no such word, the column is 1, and the span is that of
/// the warning. `OutOfMemory` if an allocation fails.
pub fn warning_place(
    alloc: Global,
    lines: &TextLines<'_>,
    start: &NonterminalString,
    warning: &Warning<'_>,
) -> Result<Place, OutOfMemory>
    requires { AreTextLines lines.now }
    ensures { IfOk result
        (λ place. place ≡ warning_place lines.now.text.now start.now (warning_view warning.now)) }
{
    let span = warning.span();
    let number = line_at(lines.text(), span.0);
    match lines.line_with(span.0) {
        None => Ok(Place {
            line: number,
            column: 1,
            span,
        }),
        Some(line) => {
            let place = place_on(alloc, start, warning, number, line)?;
            Ok(place)
        }
    }
}

/// The place of a name in the line in which a span begins: that of the left side of a production, or
/// of the name of a mark. If the name is neither, the column is 1. `OutOfMemory` if an allocation
/// fails.
pub fn name_place(
    alloc: Global,
    lines: &TextLines<'_>,
    name: &NonterminalString,
    span: Span,
) -> Result<Place, OutOfMemory>
    requires { AreTextLines lines.now }
    ensures { IfOk result (λ place. place ≡ name_place lines.now.text.now name.now span) }
{
    warning_place(alloc, lines, name, &Warning::Unproductive(name, span))
}

// The place of a warning in its line.
fn place_on(
    alloc: Global,
    start: &NonterminalString,
    warning: &Warning<'_>,
    number: usize,
    line: Piece<'_>,
) -> Result<Place, OutOfMemory>
    requires { line.start + length line.text.now < 2 ^ 64 }
    ensures { IfOk result (λ place. place
        ≡ place_on start.now (warning_view warning.now) number (Some (piece_view line.entry))) }
{
    let words = placed_words(alloc, 0, before_cr(line.text))?;
    match word_about(start, warning, &words) {
        None => Ok(Place {
            line: number,
            column: 1,
            span: warning.span(),
        }),
        Some(word) => Ok(word_place(number, line, word)),
    }
}

// The place of a word in a line.
fn word_place(number: usize, line: Piece<'_>, word: Piece<'_>) -> Place
    requires starts { word.start ≤ length line.text.now }
    requires ends { line.start + (word.start + length word.text.now) < 2 ^ 64 }
    ensures { result ≡ word_place number (piece_view line.entry) (piece_view word.entry) }
{
    let start = line.start + word.start;
    Place {
        line: number,
        column: column_of(line.text, word.start),
        span: Span(start, start + word.text.len()),
    }
}

// The word of a line that a warning is about.
fn word_about<'t>(
    start: &NonterminalString,
    warning: &Warning<'_>,
    words: &[Piece<'t>],
) -> Option<Piece<'t>>
    ensures { option_map piece_view result
        ≡ word_about start.now (warning_view warning.now) (map piece_view words.now) }
{
    let named = named_words(words);
    let right = other_words(other_words(words));
    match warning {
        Warning::Undefined(name, _) => word_of(name, right),
        Warning::Unreachable(name, _) => word_of(name, named),
        Warning::Unproductive(name, _) => word_of(name, named),
        Warning::Cyclic(name, _) => word_of(name, named),
        Warning::NothingToInline(name, _) => word_of(name, named),
        Warning::NeverInlined(name, _) => word_of(name, named),
        Warning::Repeated(_, _) => first_word(right),
        Warning::NoStart => None,
        Warning::StartUsed(_) => word_of(start, right),
    }
}

// The words from the name that a line is about.
fn named_words<'a, 't>(words: &'a [Piece<'t>]) -> &'a [Piece<'t>]
    ensures { map piece_view result.now ≡ named_words (map piece_view words.now) }
{
    if is_equals_sign(first_word(other_words(words))) {
        return words;
    }
    other_words(words)
}

// Whether a word is the sign of a production.
fn is_equals_sign(word: Option<Piece<'_>>) -> bool
    ensures { result ≡ is_equals_sign (option_map piece_view word.entry) }
{
    match word {
        None => false,
        Some(sign) => sign.text == "=",
    }
}

// The words after the first one.
fn other_words<'a, 't>(words: &'a [Piece<'t>]) -> &'a [Piece<'t>]
    ensures { map piece_view result.now ≡ other_words (map piece_view words.now) }
{
    let Some((_first, others)) = words.split_first() else {
        return words;
    };
    others
}

// The first word, if there is one.
fn first_word<'t>(words: &[Piece<'t>]) -> Option<Piece<'t>>
    ensures { option_map piece_view result ≡ first_word (map piece_view words.now) }
{
    let (word, _others) = words.split_first()?;
    Some(*word)
}

// The first word that is a name.
fn word_of<'t>(name: &NonterminalString, words: &[Piece<'t>]) -> Option<Piece<'t>>
    ensures { option_map piece_view result ≡ word_of name.now (map piece_view words.now) }
{
    for word in words {
        if is_word_of(name, word) {
            return Some(*word);
        }
    }
    None
}

// Whether a word is a name.
fn is_word_of(name: &NonterminalString, word: &Piece<'_>) -> bool
    ensures { result ≡ is_word_of name.now (piece_view word.now) }
{
    word.text == name.text.as_str()
}
