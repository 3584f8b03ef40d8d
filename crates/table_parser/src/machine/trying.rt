//! The tokens that may come next, tried on copies of a run.
ghost use Rattle.std.specs.Prelude.{◌≡◌, ◌<◌, ◌≤◌, ◌||◌, ◌&&◌, ◌==◌, ◌^◌, ℕ, List, IfOk, OnOk, length, true};
ghost use Rattle.lalrpop_base.specs.Words.{has};
ghost use Rattle.lalrpop_grammar.specs.declared.repr.TerminalString.{TerminalString};
ghost use Rattle.table_parser.specs.Expected.{AreExpected, HasReadList, MayFollow};
ghost use Rattle.table_parser.specs.Machines.{IsCopyOf};

use super::Machine;
use crate::error::TableParseError;
use crate::handler::Silent;
use lalrpop_base::lookahead::token_set::TokenSet;
use lalrpop_base::memory::OutOfMemory;
use parse_tables::table::TableAction;
use std::alloc::Global;
use std::convert::Infallible;

impl<'t> Machine<'t> {
    /// A copy of the run.
    pub fn clone(&self, alloc: Global) -> Result<Machine<'t>, OutOfMemory>
        ensures { IfOk result (IsCopyOf self.now) }
    {
        Ok(Machine {
            table: self.table,
            state: self.state,
            below: self.below.to_vec(alloc)?,
            position: self.position,
            left: self.left,
        })
    }

    /// The tokens that may come next, by their bits. The bit of the end of the input is the number
    /// of terminals. A token is tried with the steps that are left. The errors are `Limit`, `TooLong`
    /// and `Memory`.
    pub fn expected(&self, alloc: Global) -> Result<TokenSet, TableParseError<Infallible>>
        ensures exact { IfOk result (λ tokens. (w : List TerminalString) → HasReadList self.now w →
            AreExpected self.now w tokens) }
        ensures within { IfOk result (λ tokens. (bit : ℕ) → has tokens bit ≡ true →
            bit ≤ length self.now.table.now.terminals) }
    {
        let Ok(count) = u32::try_from(self.table.terminals().all().len()) else {
            return Err(TableParseError::TooLong);
        };
        let mut tokens = TokenSet::empty_set(alloc);
        for bit in 0..count {
            let may = self.may_shift(alloc, bit)?;
            add_if(&mut tokens, bit, may)?;
        }
        let may = self.may_finish(alloc)?;
        add_if(&mut tokens, count, may)?;
        Ok(tokens)
    }

    // Whether the terminal with a bit may come next.
    fn may_shift(&self, alloc: Global, bit: u32) -> Result<bool, TableParseError<Infallible>>
        ensures { bit < length self.now.table.now.terminals → IfOk result (λ may.
            (w : List TerminalString) → HasReadList self.now w → MayFollow self.now w bit may) }
    {
        if let TableAction::None = self.table.action(self.state, bit) {
            return Ok(false);
        }
        let mut copy = self.clone(alloc)?;
        match copy.shift(bit, &mut Silent) {
            Ok(_) => Ok(true),
            Err(TableParseError::Refused(_)) => Ok(false),
            Err(error) => Err(error),
        }
    }

    // Whether the end of the input may come next.
    fn may_finish(&self, alloc: Global) -> Result<bool, TableParseError<Infallible>>
        ensures { IfOk result (λ may. (w : List TerminalString) → HasReadList self.now w →
            MayFollow self.now w (length self.now.table.now.terminals) may) }
    {
        let mut copy = self.clone(alloc)?;
        match copy.finish(&mut Silent) {
            Ok(_) => Ok(true),
            Err(TableParseError::Refused(_)) => Ok(false),
            Err(error) => Err(error),
        }
    }
}

// Adds a bit to a set under a condition.
fn add_if(tokens: &mut TokenSet, bit: u32, may: bool) -> Result<(), OutOfMemory>
    ensures { OnOk result ((k : ℕ) →
        has tokens.new k ≡ ((may && (k == bit)) || has tokens.old k)) }
{
    if may {
        tokens.insert_bit(bit as usize)?;
    }
    Ok(())
}
