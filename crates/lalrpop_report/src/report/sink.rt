//! The sink that takes the bytes of a report, and counts its faults.
ghost use Rattle.std.specs.Prelude.{◌≡◌, ℕ, Bool, List, ◌+◌, ◌-◌, ◌^◌, ◌<◌, ◌≤◌, length, None, Some, Option, IfOk, IfErr, OnOk, OnErr};
ghost use Rattle.std.specs.Io.KnownBytes.{Appends};
ghost use Rattle.text_pieces.specs.Pieces.{piece_text};
ghost use Rattle.lalrpop_report.specs.reports.ReportSinks.{PutTakes, PutCounts, PutIsLast, IsWriteFault, TellsLastFault, WroteBeginning, writer_of, faults_of};

use super::error::ReportError;
use lalrpop_base::text::Text;
use std::io;
use text_pieces::TextPieces;

/// Takes bytes, and counts the calls that took none.
pub trait Sink {
    // The bytes that were taken, if they are known.
    ghost contents: { Self → Option (List ℕ) } = { λ _. None };

    // How many calls of `put` returned an error or 0.
    ghost fault_count: { Self → ℕ };

    // Whether the last of these calls returned 0, if that is known.
    ghost last_was_zero: { Self → Option Bool } = { λ _. None };

    /// Takes some bytes from the front of the list, and returns how many. A call that returns an
    /// error or 0 takes nothing, and is a fault.
    fn put(&mut self, bytes: &[u8]) -> io::Result<usize>
        requires some { 0 < length bytes.now }
        requires below_max { fault_count self.old < 2 ^ 64 - 1 }
        ensures count { IfOk result (λ k. k ≤ length bytes.now) }
        ensures taken { PutTakes (contents self.old) (contents self.new) result bytes.now }
        ensures counted { PutCounts (fault_count self.old) (fault_count self.new) result }
        ensures last { PutIsLast (last_was_zero self.old) (last_was_zero self.new) result };

    /// How many calls of `put` were faults.
    fn faults(&self) -> u64
        ensures { result ≡ fault_count self.now };
}

/// A sink over any writer.
#[derive(Drop)]
pub struct Counted<W: io::Write> {
    writer: W,
    faults: u64,
    // whether the last fault was a result of 0
    was_zero: bool,
}

impl<W: io::Write> Counted<W> {
    /// A sink with no fault so far.
    pub fn new(writer: W) -> Counted<W>
        ensures writer { writer_of result ≡ writer }
        ensures faults { faults_of result ≡ 0 }
    {
        Counted {
            writer,
            faults: 0,
            was_zero: false,
        }
    }

    /// The writer, without the count of faults.
    pub fn into_inner(self) -> W
        ensures { result ≡ writer_of self }
    {
        let Counted {
            writer,
            faults: _,
            was_zero: _,
        } = self;
        writer
    }
}

impl<W: io::Write> Sink for Counted<W> {
    ghost contents = { λ s. W.contents s.writer };

    ghost fault_count = { λ s. s.faults };

    ghost last_was_zero = { λ s. Some s.was_zero };

    fn put(&mut self, bytes: &[u8]) -> io::Result<usize> {
        match self.writer.write(bytes) {
            Ok(0) => {
                self.faults += 1;
                self.was_zero = true;
                Ok(0)
            }
            Ok(k) => Ok(k),
            Err(e) => {
                self.faults += 1;
                self.was_zero = false;
                Err(e)
            }
        }
    }

    fn faults(&self) -> u64 {
        self.faults
    }
}

/// Puts a whole text, a part at a time. It stops at any error of the sink, and if the sink takes
/// nothing.
pub(crate) fn put_all<S: Sink>(out: &mut S, text: &[u8]) -> Result<(), ReportError>
    requires { S.fault_count out.old < 2 ^ 64 - 1 }
    ensures whole { OnOk result (Appends (S.contents out.old) (S.contents out.new) text.now) }
    ensures no_fault { OnOk result (S.fault_count out.new ≡ S.fault_count out.old) }
    ensures part { OnErr result
        (WroteBeginning (S.contents out.old) (S.contents out.new) text.now) }
    ensures fault { OnErr result (S.fault_count out.new ≡ S.fault_count out.old + 1) }
    ensures kind { IfErr result IsWriteFault }
    ensures last { IfErr result (TellsLastFault (S.last_was_zero out.new)) }
{
    let mut at = 0;
    while at < text.len() {
        match out.put(&text[at..]) {
            Ok(0) => return Err(ReportError::WriteZero),
            Ok(k) => at += k,
            Err(e) => return Err(ReportError::Write(e)),
        }
    }
    Ok(())
}

/// Puts a whole text, piece after piece. It stops at any error of the sink, and if the sink takes
/// nothing.
pub(crate) fn put_pieces<S: Sink>(out: &mut S, text: &TextPieces) -> Result<(), ReportError>
    requires { S.fault_count out.old < 2 ^ 64 - 1 }
    ensures whole { OnOk result (Appends (S.contents out.old) (S.contents out.new) text.now) }
    ensures no_fault { OnOk result (S.fault_count out.new ≡ S.fault_count out.old) }
    ensures part { OnErr result
        (WroteBeginning (S.contents out.old) (S.contents out.new) text.now) }
    ensures fault { OnErr result (S.fault_count out.new ≡ S.fault_count out.old + 1) }
    ensures kind { IfErr result IsWriteFault }
    ensures last { IfErr result (TellsLastFault (S.last_was_zero out.new)) }
{
    for piece in text.pieces() {
        put_piece(out, piece)?;
    }
    Ok(())
}

// Puts the string of a piece, and then its line.
fn put_piece<S: Sink>(out: &mut S, piece: &(String, Text)) -> Result<(), ReportError>
    requires { S.fault_count out.old < 2 ^ 64 - 1 }
    ensures whole { OnOk result
        (Appends (S.contents out.old) (S.contents out.new) (piece_text piece.now)) }
    ensures no_fault { OnOk result (S.fault_count out.new ≡ S.fault_count out.old) }
    ensures part { OnErr result
        (WroteBeginning (S.contents out.old) (S.contents out.new) (piece_text piece.now)) }
    ensures fault { OnErr result (S.fault_count out.new ≡ S.fault_count out.old + 1) }
    ensures kind { IfErr result IsWriteFault }
    ensures last { IfErr result (TellsLastFault (S.last_was_zero out.new)) }
{
    put_all(out, piece.0.as_bytes())?;
    put_all(out, piece.1.as_str().as_bytes())
}
