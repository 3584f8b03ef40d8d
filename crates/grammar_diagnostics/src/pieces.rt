//! Parts of a text with their places.
ghost use Rattle.std.specs.Prelude.{◌≡◌, ◌==◌, ◌<◌, ◌≤◌, ◌+◌, ◌^◌, ◌++◌, ◌∷◌, [], IfOk, OnOk, filter, length, map};
ghost use Rattle.std.specs.List.{slice_split};
ghost use Rattle.grammar_diagnostics.specs.Pieces.{is_word, piece_view, pieces_from, words_at};

use lalrpop_collections::memory::OutOfMemory;
use std::alloc::Global;

/// A part of a text, and the offset in bytes at which it begins.
#[derive(Clone, Copy)]
pub(crate) struct Piece<'t> {
    pub(crate) start: usize,
    pub(crate) text: &'t str,
}

/// The pieces of a text between the occurrences of an ASCII character. The text begins at an
/// offset.
pub(crate) fn placed_pieces<'t>(
    alloc: Global,
    at: usize,
    text: &'t str,
    by: char,
) -> Result<Vec<Piece<'t>>, OutOfMemory>
    requires ascii { by < 128 }
    requires within { at + length text.now < 2 ^ 64 }
    ensures { IfOk result (λ all. map piece_view all.items
        ≡ pieces_from at (slice_split (λ b. b == by) text.now)) }
{
    let mut all = Vec::new(alloc);
    let mut start = at;
    let mut rest = text;
    while let Some((piece, more)) = rest.split_once(by) {
        all.push(Piece { start, text: piece })?;
        start += piece.len() + 1;
        rest = more;
    }
    all.push(Piece { start, text: rest })?;
    Ok(all)
}

/// The words of a line, which are between spaces and tabs.
pub(crate) fn placed_words<'t>(
    alloc: Global,
    at: usize,
    line: &'t str,
) -> Result<Vec<Piece<'t>>, OutOfMemory>
    requires { at + length line.now < 2 ^ 64 }
    ensures { IfOk result (λ words. map piece_view words.items ≡ words_at at line.now) }
{
    let mut words = Vec::new(alloc);
    let parts = placed_pieces(alloc, at, line, ' ')?;
    for part in &parts {
        push_words(alloc, &mut words, part)?;
    }
    Ok(words)
}

// Adds the words between the tabs of a part.
fn push_words<'t>(
    alloc: Global,
    words: &mut Vec<Piece<'t>>,
    part: &Piece<'t>,
) -> Result<(), OutOfMemory>
    requires { part.now.start + length part.now.text.now < 2 ^ 64 }
    ensures { OnOk result (map piece_view words.new.items ≡ map piece_view words.old.items
        ++ filter is_word (pieces_from part.now.start
        (slice_split (λ b. b == 9) part.now.text.now))) }
{
    let found = placed_pieces(alloc, part.start, part.text, '\t')?;
    for word in &found {
        push_word(words, *word)?;
    }
    Ok(())
}

// Adds a word to the list, unless the word is empty.
fn push_word<'t>(words: &mut Vec<Piece<'t>>, word: Piece<'t>) -> Result<(), OutOfMemory>
    ensures { OnOk result (map piece_view words.new.items ≡ map piece_view words.old.items
        ++ filter is_word (piece_view word.entry ∷ [])) }
{
    if !word.text.is_empty() {
        words.push(word)?;
    }
    Ok(())
}
