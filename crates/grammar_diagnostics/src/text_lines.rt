//! The lines of a text, by which the places of words are found.
ghost use Rattle.std.specs.Prelude.{◌≡◌, IfOk, option_map};
ghost use Rattle.grammar_diagnostics.specs.Pieces.{piece_view};
ghost use Rattle.grammar_diagnostics.specs.TextLines.{AreTextLines, line_with};

use crate::pieces::{Piece, placed_pieces};
use crate::places::line_at;
use lalrpop_collections::memory::OutOfMemory;
use std::alloc::Global;

/// A text and its lines. So a text is split once for many places.
#[derive(Drop)]
pub struct TextLines<'t> {
    text: &'t str,
    lines: Vec<Piece<'t>>,
}

impl<'t> TextLines<'t> {
    /// The lines of a text. `OutOfMemory` if an allocation fails.
    pub fn new(alloc: Global, text: &'t str) -> Result<TextLines<'t>, OutOfMemory>
        ensures lines { IfOk result (λ lines. AreTextLines lines) }
        ensures text { IfOk result (λ lines. lines.text.now ≡ text.now) }
    {
        let lines = placed_pieces(alloc, 0, text, '\n')?;
        Ok(TextLines { text, lines })
    }

    /// The text.
    pub fn text(&self) -> &'t str
        ensures { result.now ≡ self.now.text.now }
    {
        self.text
    }

    // The line in which an offset is.
    pub(crate) fn line_with(&self, offset: usize) -> Option<Piece<'t>>
        requires { AreTextLines self.now }
        ensures { option_map piece_view result ≡ line_with offset self.now.text.now }
    {
        if offset > self.text.len() {
            return None;
        }
        let place = line_at(self.text, offset) - 1;
        if place >= self.lines.len() {
            return None;
        }
        Some(self.lines[place])
    }
}
