//! The report of a construction: a text with its states, and with its conflicts if there are some.
mod conflicts;
pub mod error;
mod lines;
mod lookahead_lines;
pub mod printer;
pub mod sink;
mod states;
mod summary;
mod whole;

ghost use Rattle.std.specs.Prelude.{◌≡◌, ◌+◌, ◌-◌, ◌^◌, ◌<◌, OnOk, IfErr, IsSomeAnd};
ghost use Rattle.std.specs.Io.KnownBytes.{Appends};
ghost use Rattle.lalrpop_base.specs.Words.{Bits};
ghost use Rattle.lalrpop_report.specs.reports.Report.{report_text};
ghost use Rattle.lalrpop_report.specs.reports.ReportSinks.{IfNothingOffered, IfWriteFault, TellsLastFault, TellsOfText, WroteBeginning};

pub use error::ReportError;
use lalrpop_base::lr1_core::state::{Lr1Result, LrResult};
use lalrpop_base::repr::terminals::TerminalSet;
pub use printer::{HasDisplayLen, LookaheadPrinter};
use sink::put_pieces;
pub use sink::{Counted, Sink};
use std::alloc::Global;
pub use whole::{report_pieces, report_text};

/// Writes the report of the result of a construction. The whole text is made before its first byte
/// is written. The error says why the report was not written whole.
pub fn generate_report<W: Sink>(
    alloc: Global,
    out: &mut W,
    terminals: &TerminalSet,
    outcome: &Lr1Result<'_>,
) -> Result<(), ReportError>
    requires { W.fault_count out.old < 2 ^ 64 - 1 }
    ensures whole { OnOk result (IsSomeAnd
        (report_text (λ (set : Bits). set) terminals.now outcome.now)
        (Appends (W.contents out.old) (W.contents out.new))) }
    ensures no_fault { OnOk result (W.fault_count out.new ≡ W.fault_count out.old) }
    ensures part { IfErr result (λ e. IfWriteFault e (IsSomeAnd
        (report_text (λ (set : Bits). set) terminals.now outcome.now)
        (WroteBeginning (W.contents out.old) (W.contents out.new)))) }
    ensures fault { IfErr result
        (λ e. IfWriteFault e (W.fault_count out.new ≡ W.fault_count out.old + 1)) }
    ensures last { IfErr result (TellsLastFault (W.last_was_zero out.new)) }
    ensures untouched { IfErr result (λ e. IfNothingOffered e (out.new ≡ out.old)) }
    ensures tables { IfErr result
        (TellsOfText (report_text (λ (set : Bits). set) terminals.now outcome.now)) }
{
    report(alloc, out, terminals, outcome)
}

// As `generate_report`, for any lookahead.
fn report<W: Sink, L: LookaheadPrinter<String>>(
    alloc: Global,
    out: &mut W,
    terminals: &TerminalSet,
    outcome: &LrResult<'_, L>,
) -> Result<(), ReportError>
    requires { W.fault_count out.old < 2 ^ 64 - 1 }
    ensures whole { OnOk result (IsSomeAnd (report_text L.meaning terminals.now outcome.now)
        (Appends (W.contents out.old) (W.contents out.new))) }
    ensures no_fault { OnOk result (W.fault_count out.new ≡ W.fault_count out.old) }
    ensures part { IfErr result (λ e. IfWriteFault e (IsSomeAnd
        (report_text L.meaning terminals.now outcome.now)
        (WroteBeginning (W.contents out.old) (W.contents out.new)))) }
    ensures fault { IfErr result
        (λ e. IfWriteFault e (W.fault_count out.new ≡ W.fault_count out.old + 1)) }
    ensures last { IfErr result (TellsLastFault (W.last_was_zero out.new)) }
    ensures untouched { IfErr result (λ e. IfNothingOffered e (out.new ≡ out.old)) }
    ensures tables { IfErr result (TellsOfText (report_text L.meaning terminals.now outcome.now)) }
{
    let text = report_pieces(alloc, terminals, outcome)?;
    put_pieces(out, &text)
}

/// Writes reports to a sink.
#[derive(Drop)]
pub struct ReportGenerator<'report, W: Sink> {
    pub out: &'report mut W,
    pub terminals: &'report TerminalSet,
}

impl<'report, W: Sink> ReportGenerator<'report, W> {
    /// A generator that writes to this sink. The terminals are those of the grammar.
    pub fn new(out: &'report mut W, terminals: &'report TerminalSet) -> Self
        ensures same_sink { result.out.ghost_name ≡ out.entry.ghost_name }
        ensures sink { result.out.now ≡ out.old }
        ensures terminals { result.terminals.now ≡ terminals.now }
    {
        ReportGenerator { out, terminals }
    }

    /// Writes the report of the result of a construction, for any lookahead, as `generate_report`
    /// does.
    pub fn report_lr_table_construction<L: LookaheadPrinter<String>>(
        &mut self,
        alloc: Global,
        outcome: &LrResult<'_, L>,
    ) -> Result<(), ReportError>
        requires { W.fault_count self.old.out.now < 2 ^ 64 - 1 }
        ensures same_sink { self.new.out.ghost_name ≡ self.old.out.ghost_name }
        ensures same_terminals { self.new.terminals ≡ self.old.terminals }
        ensures whole { OnOk result (IsSomeAnd
            (report_text L.meaning self.old.terminals.now outcome.now)
            (Appends (W.contents self.old.out.now) (W.contents self.new.out.now))) }
        ensures no_fault { OnOk result
            (W.fault_count self.new.out.now ≡ W.fault_count self.old.out.now) }
        ensures part { IfErr result (λ e. IfWriteFault e (IsSomeAnd
            (report_text L.meaning self.old.terminals.now outcome.now)
            (WroteBeginning (W.contents self.old.out.now) (W.contents self.new.out.now)))) }
        ensures fault { IfErr result (λ e. IfWriteFault e
            (W.fault_count self.new.out.now ≡ W.fault_count self.old.out.now + 1)) }
        ensures last { IfErr result (TellsLastFault (W.last_was_zero self.new.out.now)) }
        ensures untouched { IfErr result
            (λ e. IfNothingOffered e (self.new.out.now ≡ self.old.out.now)) }
        ensures tables { IfErr result
            (TellsOfText (report_text L.meaning self.old.terminals.now outcome.now)) }
    {
        report(alloc, self.out, self.terminals, outcome)
    }
}
