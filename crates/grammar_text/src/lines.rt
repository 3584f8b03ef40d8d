//! The lines of a grammar text, and what each line says.
ghost use Rattle.std.specs.Prelude.{◌≡◌, ◌==◌, ◌<◌, ◌+◌, ◌^◌, ◌++◌, ◌∷◌, [], filter, not, IfOk, OnOk, map, length};
ghost use Rattle.std.specs.List.{slice_split};
ghost use Rattle.grammar_text.specs.Lines.{is_empty, words_of, without_cr, marked_line, line_of_words, placed_of, is_fault};

use crate::symbols::{is_a_name, name_of, pieces, symbols_of};
use lalrpop_base::memory::OutOfMemory;
use lalrpop_base::repr::{NonterminalString, Span, Symbols};
use std::alloc::Global;

/// What a line of a grammar text says.
#[derive(Drop)]
pub enum Line {
    /// A line without words.
    Blank,
    /// The left side and the right side of a production.
    Production(NonterminalString, Symbols),
    /// A mark: the nonterminal is to be inlined.
    Inline(NonterminalString),
    /// A line that is no grammar line.
    Fault,
}

/// A line and its span: the offsets in bytes of its first byte and of the byte after its last.
#[derive(Drop)]
pub struct PlacedLine {
    pub line: Line,
    pub span: Span,
}

// What a line with these words says.
fn line_of_words(alloc: Global, words: &[&str]) -> Result<Line, OutOfMemory>
    ensures { IfOk result (λ line. line ≡ line_of_words (map (λ w. w.now) words.now)) }
{
    let Some((first, others)) = words.split_first() else {
        return Ok(Line::Blank);
    };
    let Some((second, rest)) = others.split_first() else {
        return Ok(Line::Fault);
    };
    if *second != "=" || !is_a_name(first) {
        return marked_line(alloc, first, second, rest);
    }
    match symbols_of(alloc, rest)? {
        None => Ok(Line::Fault),
        Some(symbols) => Ok(Line::Production(name_of(alloc, first)?, symbols)),
    }
}

// What a line says that is no production: a mark, or else a fault.
fn marked_line(alloc: Global, first: &str, second: &str, rest: &[&str]) -> Result<Line, OutOfMemory>
    ensures { IfOk result
        (λ line. line ≡ marked_line first.now second.now (map (λ w. w.now) rest.now)) }
{
    if rest.is_empty() && first == "inline" && is_a_name(second) {
        return Ok(Line::Inline(name_of(alloc, second)?));
    }
    Ok(Line::Fault)
}

// The words of a line, which are between spaces and tabs.
fn words_in<'a>(alloc: Global, line: &'a str) -> Result<Vec<&'a str>, OutOfMemory>
    ensures { IfOk result (λ words. map (λ w. w.now) words.items ≡ words_of line.now) }
{
    let mut words = Vec::new(alloc);
    let parts = pieces(alloc, line, ' ')?;
    for part in &parts {
        push_words(alloc, &mut words, part)?;
    }
    Ok(words)
}

// Adds the words between the tabs of a piece.
fn push_words<'a>(alloc: Global, words: &mut Vec<&'a str>, part: &'a str) -> Result<(), OutOfMemory>
    ensures { OnOk result (map (λ w. w.now) words.new.items
        ≡ map (λ w. w.now) words.old.items
        ++ filter (λ w. not (is_empty w)) (slice_split (λ b. b == 9) part.now)) }
{
    let found = pieces(alloc, part, '\t')?;
    for word in &found {
        push_word(words, word)?;
    }
    Ok(())
}

// Adds a word to the list, unless the word is empty.
fn push_word<'a>(words: &mut Vec<&'a str>, word: &'a str) -> Result<(), OutOfMemory>
    ensures { OnOk result (map (λ w. w.now) words.new.items
        ≡ map (λ w. w.now) words.old.items ++ filter (λ w. not (is_empty w)) (word.now ∷ [])) }
{
    if !word.is_empty() {
        words.push(word)?;
    }
    Ok(())
}

/// The line without a CR at its end, which belongs to the line end.
pub fn before_cr(line: &str) -> &str
    ensures { result.now ≡ without_cr line.now }
{
    match line.strip_suffix('\r') {
        None => line,
        Some(front) => front,
    }
}

/// What a line says, and its span. The line begins at the offset `at`, in bytes.
pub fn placed_line(alloc: Global, line: &str, at: usize) -> Result<PlacedLine, OutOfMemory>
    requires { at + length line.now < 2 ^ 64 }
    ensures { IfOk result (λ placed. placed ≡ placed_of at line.now) }
{
    let shown = before_cr(line);
    let span = Span(at, at + shown.len());
    let words = words_in(alloc, shown)?;
    let line = line_of_words(alloc, &words)?;
    Ok(PlacedLine { line, span })
}

impl PlacedLine {
    /// Whether the line is no grammar line.
    pub fn is_no_grammar_line(&self) -> bool
        ensures { result ≡ is_fault self.now }
    {
        matches!(self.line, Line::Fault)
    }
}
