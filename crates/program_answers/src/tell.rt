//! How the result of a program is written.
ghost use Rattle.std.specs.Prelude.{◌≡◌, ◌⊎◌, string_bytes};
ghost use Rattle.program_answers.specs.Written.{IsResultWritten, IsWritten, IsPartlyWritten};
ghost use Rattle.program_answers.specs.Output.{AppendsBeginning};

use crate::answer::{Answer, Shown};
use crate::output::{write_pieces, write_whole};
use std::io::Write;

/// Writes a result to `out` and `err`, and returns the exit status: 2 for a faulty input or output,
/// 3 for an allocation failure. Each program has its own usage text.
pub fn tell<O: Write, E: Write>(answer: &Answer, usage: &str, out: &mut O, err: &mut E) -> u8
    ensures { IsResultWritten usage.now answer.now result (O.contents out.old) (O.contents out.new)
        (E.contents err.old) (E.contents err.new) }
{
    match answer {
        Answer::Output(shown) => tell_shown(shown, out, err),
        Answer::Fault(text) => complain(err, text.as_str(), 2),
        Answer::Usage => complain(err, usage, 2),
        Answer::TooManyActions => complain(err, "too many actions\n", 2),
        Answer::Memory => complain(err, "out of memory\n", 3),
    }
}

// Writes what is shown, and returns the exit status: 2 if `out` does not take the whole text.
fn tell_shown<O: Write, E: Write>(shown: &Shown, out: &mut O, err: &mut E) -> u8
    ensures { ((result ≡ shown.now.status)
        × IsWritten shown.now.text (string_bytes shown.now.remark)
        (O.contents out.old) (O.contents out.new) (E.contents err.old) (E.contents err.new))
        ⊎ ((result ≡ 2) × IsPartlyWritten shown.now.text
        (O.contents out.old) (O.contents out.new) (E.contents err.old) (E.contents err.new)) }
{
    if !write_pieces(out, &shown.text) {
        return complain(err, "cannot write\n", 2);
    }
    if shown.remark.is_empty() {
        return shown.status;
    }
    complain(err, shown.remark.as_str(), shown.status)
}

/// Writes a message, and returns the given exit status. An error of the writer is not reported.
pub fn complain<E: Write>(err: &mut E, message: &str, status: u8) -> u8
    ensures status { result ≡ status }
    ensures told { AppendsBeginning (E.contents err.old) (E.contents err.new) message.now }
{
    let _ = write_whole(err, message.as_bytes());
    status
}
