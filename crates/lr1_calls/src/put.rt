//! A result of a program, copied into the memory of a caller.
ghost use Rattle.std.specs.Prelude.{◌≡◌, ◌≤◌, ◌^◌, ◌+◌, ◌-◌, ◌++◌, min, length, take, drop, IfSome, IsNone};
ghost use Rattle.std.specs.List.{flat_map};
ghost use Rattle.text_pieces.specs.Pieces.{piece_text};
ghost use Rattle.lr1_calls.specs.Copied.{filled, IsCopied, IsGiven, IsShownGiven};

use lalrpop_base::text::Text;
use program_answers::answer::{Answer, Shown};

const USAGE: &str =
    "usage: START (parse LIMIT TOKEN.. | report | explain | check [--json] | conflicts | tree [--dot] TOKEN.. | json | dot [--around STATE [--depth N] | --conflicts] | html | c [--augment] [--prefix NAME] | rust [--augment] | python [--augment])\n";

/// Copies the text of a result to `out`, as much of it as fits. `length` becomes the length of the
/// whole text. Returns the status.
pub(crate) fn put_answer(answer: &Answer, out: &mut [u8], length: &mut usize) -> u8
    ensures { IsGiven answer.now result out.old out.new length.new }
{
    match answer {
        Answer::Output(shown) => put_shown(shown, out, length),
        Answer::Fault(text) => put_message(text.as_str(), 2, out, length),
        Answer::Usage => put_message(USAGE, 2, out, length),
        Answer::TooManyActions => put_message("too many actions\n", 2, out, length),
        Answer::Memory => put_message("out of memory\n", 3, out, length),
    }
}

// Copies the text of what is shown or, if it is empty, the remark, and returns the status.
fn put_shown(shown: &Shown, out: &mut [u8], length: &mut usize) -> u8
    ensures { IsShownGiven shown.now result out.old out.new length.new }
{
    let pieces = shown.text.pieces();
    let Some(count) = length_of(pieces) else {
        return put_message("out of memory\n", 3, out, length);
    };
    if count == 0 {
        return put_message(shown.remark.as_str(), shown.status, out, length);
    }
    *length = count;
    put_pieces(pieces, out);
    shown.status
}

// Copies a message, and returns the given status.
fn put_message(message: &str, status: u8, out: &mut [u8], length: &mut usize) -> u8
    ensures status { result ≡ status }
    ensures copied { IsCopied message.now out.old out.new length.new }
{
    *length = message.len();
    put(message.as_bytes(), out, 0);
    status
}

// How many bytes pieces have. `None` if the number has more than 64 bits.
fn length_of(pieces: &[(String, Text)]) -> Option<usize>
    ensures counted { IfSome result (λ n. n ≡ length (flat_map piece_text pieces.now)) }
    ensures long { IsNone result → 2 ^ 64 ≤ length (flat_map piece_text pieces.now) }
{
    let mut length: usize = 0;
    for (own, line) in pieces {
        length = length.checked_add(own.len())?;
        length = length.checked_add(line.as_str().len())?;
    }
    Some(length)
}

// Copies pieces, one after the other.
fn put_pieces(pieces: &[(String, Text)], out: &mut [u8])
    ensures { out.new ≡ filled (flat_map piece_text pieces.now) out.old }
{
    let mut at = 0;
    for piece in pieces {
        at = put_piece(piece, out, at);
    }
}

// Copies a piece to a place in `out`, as much of it as fits, and returns the place after it.
fn put_piece(piece: &(String, Text), out: &mut [u8], at: usize) -> usize
    requires { at ≤ length out.old }
    ensures out { out.new ≡ take at out.old ++ filled (piece_text piece.now) (drop at out.old) }
    ensures place { result ≡ at + min (length out.old - at) (length (piece_text piece.now)) }
{
    let next = put(piece.0.as_bytes(), out, at);
    put(piece.1.as_str().as_bytes(), out, next)
}

// Copies bytes to a place in `out`, as many as fit, and returns the place after them.
fn put(bytes: &[u8], out: &mut [u8], at: usize) -> usize
    requires { at ≤ length out.old }
    ensures out { out.new ≡ take at out.old ++ filled bytes.now (drop at out.old) }
    ensures place { result ≡ at + min (length out.old - at) (length bytes.now) }
{
    let count = bytes.len().min(out.len() - at);
    out[at..at + count].copy_from_slice(&bytes[..count]);
    at + count
}
