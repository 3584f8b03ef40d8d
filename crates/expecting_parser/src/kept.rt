//! The terminals that a run has read.
ghost use Rattle.std.specs.Prelude.{ℕ, List, [], ◌∷◌, ◌++◌, IfOk};
ghost use Rattle.expecting_parser.specs.Expecting.{IsReport};
ghost use Rattle.expecting_parser.specs.Kept.{AreKept};
ghost use Rattle.table_parser.specs.Words.{AreExpectedAfter};

use crate::error::ExpectingError;
use lalrpop_base::lookahead::token_set::TokenSet;
use parse_tables::table::ParseTable;
use std::alloc::Global;
use std::convert::Infallible;
use table_parser::error::TableParseError;
use table_parser::expected::expected_after;

/// The bits of the terminals that a run has read, or nothing after a failed allocation.
#[derive(Drop)]
pub(crate) struct Kept {
    bits: Option<Vec<u32>>,
}

impl Kept {
    /// Before the first terminal.
    pub(crate) fn new(alloc: Global) -> Self
        ensures { AreKept [] result }
    {
        Kept {
            bits: Some(Vec::new(alloc)),
        }
    }

    /// Keeps the bit of one more terminal.
    pub(crate) fn keep(&mut self, bit: u32)
        ensures { (bits : List ℕ) → AreKept bits self.old → AreKept (bits ++ bit ∷ []) self.new }
    {
        let Some(bits) = &mut self.bits else {
            return;
        };
        if bits.push(bit).is_err() {
            self.bits = None;
        }
    }

    // The tokens that may come after the terminals, which are read anew.
    fn expected(
        &self,
        alloc: Global,
        table: &ParseTable,
        limit: usize,
    ) -> Result<TokenSet, TableParseError<Infallible>>
        ensures { IfOk result (λ tokens. (bits : List ℕ) → AreKept bits self.now →
            AreExpectedAfter table.now bits tokens) }
    {
        match &self.bits {
            Some(bits) => expected_after(alloc, table, limit, bits),
            None => Err(TableParseError::Memory),
        }
    }

    /// The error of a run, with the tokens that may come after the terminals if it is a refusal.
    pub(crate) fn reported<S: Drop>(
        &self,
        alloc: Global,
        table: &ParseTable,
        limit: usize,
        error: TableParseError<S>,
    ) -> ExpectingError<S>
        ensures { IsReport error (λ tokens. (bits : List ℕ) → AreKept bits self.now →
            AreExpectedAfter table.now bits tokens) result }
    {
        match error {
            TableParseError::Refused(refusal) => {
                ExpectingError::Refused(refusal, self.expected(alloc, table, limit))
            }
            other => ExpectingError::Failed(other),
        }
    }
}
