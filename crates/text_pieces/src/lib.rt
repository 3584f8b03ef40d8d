//! A text in pieces. Lines that stand many times in it are kept once.
#![tactic(auto)]

ghost use Rattle.std.specs.Prelude.{◌≡◌, ◌++◌, [], IfOk, OnOk, string_bytes};
ghost use Rattle.std.specs.List.{flat_map};
ghost use Rattle.text_pieces.specs.Pieces.{piece_text};

use lalrpop_collections::memory::OutOfMemory;
use lalrpop_collections::text::Text;
use std::alloc::Global;
use std::marker::Model;

/// A text in pieces. Each piece is a string of its own and a line after it. Lines that are copies of
/// one text share its bytes.
#[derive(Drop)]
pub struct TextPieces {
    pieces: Vec<(String, Text)>,
}

impl Model for TextPieces {
    ghost use Rattle.std.specs.Prelude.{ℕ, List};
    ghost use Rattle.std.specs.List.{flat_map};
    ghost use Rattle.text_pieces.specs.Pieces.{piece_text};

    ghost Value = { List ℕ };

    ghost view = { λ t. flat_map piece_text t.pieces.items };
}

impl TextPieces {
    /// An empty text.
    pub fn new(alloc: Global) -> TextPieces
        ensures { result ≡ [] }
    {
        TextPieces {
            pieces: Vec::new(alloc),
        }
    }

    /// A text in one piece. `OutOfMemory` if an allocation fails.
    pub fn of(alloc: Global, own: String) -> Result<TextPieces, OutOfMemory>
        ensures { IfOk result (λ text. text ≡ string_bytes own) }
    {
        let mut text = TextPieces::new(alloc);
        text.push_own(alloc, own)?;
        Ok(text)
    }

    /// Appends a string, and then a line. `OutOfMemory` if an allocation fails.
    pub fn push(&mut self, own: String, line: Text) -> Result<(), OutOfMemory>
        ensures { OnOk result (self.new ≡ self.old ++ (string_bytes own ++ line)) }
    {
        self.pieces.push((own, line))?;
        Ok(())
    }

    /// Appends a string. `OutOfMemory` if an allocation fails.
    pub fn push_own(&mut self, alloc: Global, own: String) -> Result<(), OutOfMemory>
        ensures { OnOk result (self.new ≡ self.old ++ string_bytes own) }
    {
        let nothing = Text::new(alloc, "")?;
        self.push(own, nothing)
    }

    /// Appends a copy of a string slice. `OutOfMemory` if an allocation fails.
    pub fn push_str(&mut self, alloc: Global, own: &str) -> Result<(), OutOfMemory>
        ensures { OnOk result (self.new ≡ self.old ++ own.now) }
    {
        self.push_own(alloc, String::from_str(alloc, own)?)
    }

    /// The allocator with which the text was made.
    pub fn allocator(&self) -> Global {
        *self.pieces.allocator()
    }

    /// The pieces, in order.
    pub fn pieces(&self) -> &[(String, Text)]
        ensures { flat_map piece_text result.now ≡ self.now }
    {
        self.pieces.as_slice()
    }

    /// The whole text as one string, with no room for more. `OutOfMemory` if an allocation fails.
    pub fn to_string(&self, alloc: Global) -> Result<String, OutOfMemory>
        ensures { IfOk result (λ whole. string_bytes whole ≡ self.now) }
    {
        let mut whole = String::new(alloc);
        whole.reserve_exact(length_of(self.pieces()))?;
        for (own, line) in self.pieces() {
            whole.push_str(own.as_str())?;
            whole.push_str(line.as_str())?;
        }
        Ok(whole)
    }
}

// How many bytes pieces have. A number above the greatest `usize` is returned as that `usize`.
fn length_of(pieces: &[(String, Text)]) -> usize {
    let mut length: usize = 0;
    for (own, line) in pieces {
        length = length
            .saturating_add(own.len())
            .saturating_add(line.as_str().len());
    }
    length
}
