//! Writing a whole text.
ghost use Rattle.std.specs.Prelude.{◌≡◌, ◌++◌, IsTrue, IsFalse};
ghost use Rattle.std.specs.Io.KnownBytes.{Appends};
ghost use Rattle.text_pieces.specs.Pieces.{piece_text};
ghost use Rattle.program_answers.specs.Output.{AppendsBeginning, IsPut};

use lalrpop_base::text::Text;
use std::io::Write;
use text_pieces::TextPieces;

/// Writes a text and flushes the writer. The result is `false` if the writer returns an error of
/// any kind, or if it takes no byte.
pub fn write_whole<W: Write>(out: &mut W, text: &[u8]) -> bool
    ensures whole { IsTrue result → Appends (W.contents out.old) (W.contents out.new) text.now }
    ensures part { AppendsBeginning (W.contents out.old) (W.contents out.new) text.now }
{
    write_bytes(out, text) && out.flush().is_ok()
}

// As many bytes are written at once, if the pieces of a text are not larger.
const BUFFER_SIZE: usize = 65_536;

/// Writes a text in pieces and flushes the writer. Pieces are written together, as long as they are
/// not larger than 64 KB. The result is `false` if the writer returns an error of any kind, or if it
/// takes no byte.
pub fn write_pieces<W: Write>(out: &mut W, text: &TextPieces) -> bool
    ensures whole { IsTrue result → Appends (W.contents out.old) (W.contents out.new) text.now }
    ensures part { AppendsBeginning (W.contents out.old) (W.contents out.new) text.now }
{
    let mut buffer = Vec::new(text.allocator());
    for piece in text.pieces() {
        if !put_piece(out, &mut buffer, piece) {
            return false;
        }
    }
    write_whole(out, &buffer)
}

// Puts the string of a piece, and then its line.
fn put_piece<W: Write>(out: &mut W, buffer: &mut Vec<u8>, piece: &(String, Text)) -> bool
    ensures put { IsTrue result → IsPut (W.contents out.old) (W.contents out.new) buffer.old.items
        buffer.new.items (piece_text piece.now) }
    ensures part { AppendsBeginning (W.contents out.old) (W.contents out.new)
        (buffer.old.items ++ piece_text piece.now) }
{
    put(out, buffer, piece.0.as_bytes()) && put(out, buffer, piece.1.as_str().as_bytes())
}

// Adds bytes to a buffer. If they do not fit, or if an allocation fails, the buffer and the bytes
// are written.
fn put<W: Write>(out: &mut W, buffer: &mut Vec<u8>, bytes: &[u8]) -> bool
    ensures put { IsTrue result → IsPut (W.contents out.old) (W.contents out.new) buffer.old.items
        buffer.new.items bytes.now }
    ensures part { AppendsBeginning (W.contents out.old) (W.contents out.new)
        (buffer.old.items ++ bytes.now) }
{
    if keep(buffer, bytes) {
        return true;
    }
    if !write_bytes(out, buffer) {
        return false;
    }
    buffer.clear();
    write_bytes(out, bytes)
}

// Adds bytes to a buffer, unless they do not fit or an allocation fails.
fn keep(buffer: &mut Vec<u8>, bytes: &[u8]) -> bool
    ensures kept { IsTrue result → buffer.new.items ≡ buffer.old.items ++ bytes.now }
    ensures same { IsFalse result → buffer.new.items ≡ buffer.old.items }
{
    if buffer.len().saturating_add(bytes.len()) > BUFFER_SIZE {
        return false;
    }
    buffer.extend_from_slice(bytes).is_ok()
}

// Writes a text part by part.
fn write_bytes<W: Write>(out: &mut W, text: &[u8]) -> bool
    ensures whole { IsTrue result → Appends (W.contents out.old) (W.contents out.new) text.now }
    ensures part { AppendsBeginning (W.contents out.old) (W.contents out.new) text.now }
{
    let mut rest = text;
    while !rest.is_empty() {
        match out.write(rest) {
            Ok(0) => return false,
            Ok(taken) => rest = &rest[taken..],
            Err(_) => return false,
        }
    }
    true
}
