// Reports to a writer of a user's own that takes a part of the text.
ghost use Rattle.lalrpop_base.specs.Words.{IsWellFormed};

use grammar_text::symbols::name_of;
use lalrpop_base::lr1_core::state::Lr1Result;
use lalrpop_base::repr::grammar::Grammar;
use lalrpop_base::repr::terminals::TerminalSet;
use lalrpop_report::report::{Counted, ReportError, generate_report};
use lalrpop_tables::build::options::Options;
use lalrpop_tables::lr1::build_states;
use std::alloc::Global;
use std::io::{self, ErrorKind, Write};
use std::test::Fail;
use test_fixtures::texts::{ONE, grammar};

// The report of the LR(1) states of one production.
const ONE_TERMINAL: &str = "Lalrpop Report File
========================================

Summary
----------------------------------------

Constructed 2 states

State Table
----------------------------------------

State 0 {

    S -> . \"x\"
        lookahead \"x\" Eof

    \"x\" shift and goto 1

}

State 1 {

    S -> \"x\" .
        lookahead \"x\" Eof


    reduction S -> \"x\"
        lookahead Eof


}
";

// A writer that takes at most seven bytes in a call and `left` bytes in all. After that it returns
// the fault, or 0 if it has none.
#[derive(Drop)]
struct Taking {
    taken: Vec<u8>,
    left: usize,
    fault: Option<ErrorKind>,
}

impl Write for Taking {
    fn write(&mut self, buf: &[u8]) -> io::Result<usize> {
        let n = self.left.min(7).min(buf.len());
        if n == 0 {
            return match self.fault {
                Some(kind) => Err(io::Error::from(kind)),
                None => Ok(0),
            };
        }
        self.taken.extend_from_slice(&buf[..n])?;
        self.left -= n;
        Ok(n)
    }

    fn flush(&mut self) -> io::Result<()> {
        Ok(())
    }
}

// The kind of the result of a report to a writer that takes `left` bytes, and these bytes.
fn sent(
    alloc: Global,
    terminals: &TerminalSet,
    outcome: &Lr1Result<'_>,
    left: usize,
    fault: Option<ErrorKind>,
) -> (&'static str, Vec<u8>) {
    let mut out = Counted::new(Taking {
        taken: Vec::new(alloc),
        left,
        fault,
    });
    let answer = generate_report(alloc, &mut out, terminals, outcome);
    let kind = match &answer {
        Ok(()) => "whole",
        Err(ReportError::Write(_)) => "write",
        Err(ReportError::WriteZero) => "zero",
        Err(ReportError::Memory) => "memory",
        Err(ReportError::NoTables) => "no tables",
    };
    (kind, out.into_inner().taken)
}

// How many bytes a writer takes, its fault, and the kind of the result of a report to it.
const WRITERS: [(usize, Option<ErrorKind>, &str); 5] = [
    (0, None, "zero"),
    (0, Some(ErrorKind::BrokenPipe), "write"),
    (10, None, "zero"),
    (300, Some(ErrorKind::Interrupted), "write"),
    (1000, Some(ErrorKind::BrokenPipe), "whole"),
];

// Whether each writer has the expected result, and the beginning of the text that it takes. For
// example, a writer that takes ten bytes has `Lalrpop Re`.
fn are_sent(alloc: Global, terminals: &TerminalSet, outcome: &Lr1Result<'_>) -> bool {
    let whole = ONE_TERMINAL.as_bytes();
    for (left, fault, expected) in WRITERS {
        let (kind, taken) = sent(alloc, terminals, outcome, left, fault);
        let end = left.min(whole.len());
        if kind != expected || taken.as_slice() != &whole[..end] {
            return false;
        }
    }
    true
}

// Whether the report of the states of a grammar is sent to each writer as it should be.
fn are_sent_of(alloc: Global, grammar: &Grammar) -> Result<bool, Fail>
    requires { IsWellFormed grammar.now }
{
    let outcome = build_states(alloc, grammar, name_of(alloc, "S")?, &Options::default());
    Ok(are_sent(alloc, &grammar.terminals, &outcome))
}

#[test]
fn writers_that_stop(rt: HostRuntime) -> Result<(), Fail> {
    let grammar = grammar(rt.alloc(), ONE)?;
    assert!(rt; are_sent_of(rt.alloc(), &grammar)?);
    Ok(())
}
