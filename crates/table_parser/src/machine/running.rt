//! A run that is given one terminal after the other.
ghost use Rattle.std.specs.Prelude.{◌≡◌, ◌+◌, ◌≤◌, [], ◌∷◌, IfErr, OnOk, length};
ghost use Rattle.lalrpop_base.specs.Words.{Tree};
ghost use Rattle.table_parser.specs.Errors.{IfLimit, IfRefused, IfUnknown, IsUnknown};
ghost use Rattle.table_parser.specs.Machines.{IsFresh};
ghost use Rattle.table_parser.specs.Runs.{AtEnd, AtTerminal, HasParsed, HasRead, IsCutOff, IsRefusal};

use super::{Machine, Progress};
use crate::error::{Refusal, TableParseError};
use crate::handler::ParseHandler;
use parse_tables::table::ParseTable;
use std::alloc::Global;

impl<'t> Machine<'t> {
    /// A run that has read nothing. It makes at most so many steps: each shift and each reduction
    /// is one.
    pub fn new(alloc: Global, table: &'t ParseTable, limit: usize) -> Machine<'t>
        ensures fresh { IsFresh limit result }
        ensures table { result.table.now ≡ table.now }
    {
        Machine {
            table,
            state: 0,
            below: Vec::new(alloc),
            position: 0,
            left: limit,
        }
    }

    /// How many terminals were read. It is the position of the next token.
    pub fn position(&self) -> usize
        ensures { result ≡ self.now.position }
    {
        self.position
    }

    /// The state on top of the stack.
    pub fn state(&self) -> u32
        ensures { result ≡ self.now.state }
    {
        self.state
    }

    /// How many steps are left.
    pub fn left(&self) -> usize
        ensures { result ≡ self.now.left }
    {
        self.left
    }

    /// Reads the terminal with a bit. After an error the run is over.
    #[inline(always)]
    pub fn shift<H: ParseHandler>(
        &mut self,
        bit: u32,
        handler: &mut H,
    ) -> Result<(), TableParseError<H::Stop>>
        ensures read { OnOk result (AtTerminal self.old bit (λ states c rest.
            HasRead self.old.table.now.terminals self.old.table.now.productions states H.takes c
            self.old handler.old rest self.new handler.new)) }
        ensures refused { IfErr result (IfRefused (λ refusal. AtTerminal self.old bit (λ states c _.
            IsRefusal self.old.table.now.terminals self.old.table.now.productions states H.takes c
            self.old handler.old (λ _. ⊥) bit refusal handler.new))) }
        ensures limit { IfErr result (IfLimit (AtTerminal self.old bit (λ states c _.
            IsCutOff self.old.table.now.terminals self.old.table.now.productions states H.takes c
            self.old handler.old))) }
        ensures position { OnOk result (self.new.position ≡ self.old.position + 1) }
        ensures place { IfErr result (IfRefused (λ refusal.
            (refusal.position ≡ self.old.position) × (refusal.bit ≡ bit))) }
        ensures unknown { length self.old.table.now.terminals ≤ bit →
            IsUnknown self.old.position bit result }
        ensures known { IfErr result (IfUnknown (λ position number.
            (position ≡ self.old.position) × (number ≡ bit)
            × (length self.old.table.now.terminals ≤ bit))) }
        ensures table { self.new.table ≡ self.old.table }
    {
        if bit as usize >= self.table.terminals().all().len() {
            return Err(TableParseError::Unknown(self.position, bit));
        }
        match self.reduce_all(bit, handler)? {
            Progress::CanShift(target) => self.push(target, bit, handler),
            Progress::Stuck => Err(TableParseError::Refused(self.refusal(bit))),
            Progress::Ended(_) => Err(TableParseError::Refused(self.refusal(bit))),
        }
    }

    /// Reads the end of the input. The run is over then, and takes no further call.
    pub fn finish<H: ParseHandler>(
        &mut self,
        handler: &mut H,
    ) -> Result<(), TableParseError<H::Stop>>
        ensures parsed { OnOk result (AtEnd self.old (λ states c.
            HasParsed self.old.table.now.terminals self.old.table.now.productions states H.takes c
            self.old handler.old self.new handler.new)) }
        ensures refused { IfErr result (IfRefused (λ refusal. AtEnd self.old (λ states c.
            IsRefusal self.old.table.now.terminals self.old.table.now.productions states H.takes c
            self.old handler.old (λ trees. (t : Tree) × (trees ≡ t ∷ []))
            (length self.old.table.now.terminals) refusal handler.new))) }
        ensures limit { IfErr result (IfLimit (AtEnd self.old (λ states c.
            IsCutOff self.old.table.now.terminals self.old.table.now.productions states H.takes c
            self.old handler.old))) }
        ensures place { IfErr result (IfRefused (λ refusal. (refusal.position ≡ self.old.position)
            × (refusal.bit ≡ length self.old.table.now.terminals))) }
        ensures known { IfErr result (IfUnknown (λ _ _. ⊥)) }
        ensures table { self.new.table ≡ self.old.table }
    {
        let Ok(bit) = u32::try_from(self.table.terminals().all().len()) else {
            return Err(TableParseError::TooLong);
        };
        match self.reduce_all(bit, handler)? {
            Progress::Ended(true) => Ok(()),
            Progress::Ended(false) => Err(TableParseError::Refused(self.refusal(bit))),
            Progress::Stuck => Err(TableParseError::Refused(self.refusal(bit))),
            Progress::CanShift(_) => Err(TableParseError::Refused(self.refusal(bit))),
        }
    }

    // The refusal of the token with a bit.
    fn refusal(&self, bit: u32) -> Refusal
        ensures position { result.position ≡ self.now.position }
        ensures state { result.state ≡ self.now.state }
        ensures token { result.bit ≡ bit }
    {
        Refusal {
            position: self.position,
            state: self.state,
            bit,
        }
    }
}
