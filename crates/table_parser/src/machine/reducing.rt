//! The steps of a run. A call that is not inlined passes its result through memory, so those of a
//! step are inlined.
ghost use Rattle.std.specs.Prelude.{◌≡◌, ◌≢◌, ◌≤◌, ◌∷◌, ◌++◌, [], ℕ, IfErr, IfOk, OnOk, Some, get_or, length, slice_get, take};
ghost use Rattle.lalrpop_base.specs.Words.{Configuration, Contents, IsBitOf, ReduceBy, ShiftTo, Stands, action_on, move, next_token};
ghost use Rattle.lalrpop_grammar.specs.declared.repr.Production.{Production};
ghost use Rattle.parse_tables.specs.Tables.{IsTableOf};
ghost use Rattle.table_parser.specs.Machines.{IsAt, IsProgress, IsReduction, IsSpent};
ghost use Rattle.table_parser.specs.Errors.{IfLimit, IsNoRefusal};
ghost use Rattle.table_parser.specs.Runs.{IsCutOff};
ghost use Rattle.table_parser.specs.Shifts.{IsShifted};

use super::{Machine, Progress, Reduced};
use crate::error::TableParseError;
use crate::handler::ParseHandler;
use lalrpop_base::memory::OutOfMemory;
use parse_tables::table::TableAction;

impl Machine<'_> {
    /// Makes the reductions on the token with a bit.
    #[inline(always)]
    pub(crate) fn reduce_all<H: ParseHandler>(
        &mut self,
        bit: u32,
        handler: &mut H,
    ) -> Result<Progress, TableParseError<H::Stop>>
        ensures made { IfOk result (λ progress. (states : ℕ → Contents) (c : Configuration) →
            IsTableOf self.old.table.now states → IsAt self.old c →
            IsBitOf self.old.table.now.terminals (next_token c.rest) bit →
            IsProgress self.old.table.now.terminals self.old.table.now.productions states H.takes c
            self.old handler.old self.new handler.new progress) }
        ensures limit { IfErr result (IfLimit ((states : ℕ → Contents) (c : Configuration) →
            IsTableOf self.old.table.now states → IsAt self.old c →
            IsBitOf self.old.table.now.terminals (next_token c.rest) bit →
            IsCutOff self.old.table.now.terminals self.old.table.now.productions states H.takes c
            self.old handler.old)) }
        ensures no_refusal { IfErr result IsNoRefusal }
        ensures position { OnOk result (self.new.position ≡ self.old.position) }
        ensures table { self.new.table ≡ self.old.table }
    {
        'reducing: loop {
            match self.table.action(self.state, bit) {
                TableAction::None => return Ok(Progress::Stuck),
                TableAction::Shift(target) => return Ok(Progress::CanShift(target)),
                TableAction::Reduce(number) => {
                    let Some((name, len)) = self.table.side(number) else {
                        return Ok(Progress::Stuck);
                    };
                    match self.reduce(number, name, len as usize, handler)? {
                        Reduced::GoesOn => {}
                        Reduced::Ends(alone) => return Ok(Progress::Ended(alone)),
                    }
                }
            }
        }
    }

    // Reduces by the production with a number, of which the number of the nonterminal and the
    // length of the right side are given.
    #[inline(always)]
    fn reduce<H: ParseHandler>(
        &mut self,
        number: u32,
        name: u32,
        len: usize,
        handler: &mut H,
    ) -> Result<Reduced, TableParseError<H::Stop>>
        ensures made { IfOk result (λ progress. (states : ℕ → Contents) (c : Configuration)
            (p : Production) → IsTableOf self.old.table.now states → IsAt self.old c →
            action_on (states c.state) (next_token c.rest) ≡ Some (ReduceBy p) →
            slice_get self.old.table.now.productions number ≡ Some p →
            slice_get self.old.table.now.nonterminals name ≡ Some p.nonterminal →
            len ≡ length p.symbols →
            IsReduction self.old.table.now.terminals self.old.table.now.productions states H.takes c
            self.old handler.old self.new handler.new progress) }
        ensures spent { OnOk result (IsSpent self.old self.new) }
        ensures limit { IfErr result (IfLimit (self.old.left ≡ 0)) }
        ensures no_refusal { IfErr result IsNoRefusal }
        ensures position { OnOk result (self.new.position ≡ self.old.position) }
        ensures table { self.new.table ≡ self.old.table }
    {
        if self.left == 0 {
            return Err(TableParseError::Limit);
        }
        let count = self.below.len();
        let rest = count.saturating_sub(len);
        let entry = self.entry(rest);
        if let Err(stop) = handler.reduce(number, len, entry.1, self.position) {
            return Err(TableParseError::Stopped(stop));
        }
        self.left -= 1;
        if len > count {
            return Ok(Reduced::Ends(true));
        }
        let Some(target) = self.table.goto(entry.0, name) else {
            return Ok(Reduced::Ends(rest == 0));
        };
        self.pop_to(rest, entry)?;
        self.state = target;
        Ok(Reduced::GoesOn)
    }

    // The entry of the stack at a place, or the state and the position on top if it has none there.
    #[inline(always)]
    fn entry(&self, place: usize) -> (u32, usize)
        ensures { result ≡ get_or self.now.below.items place (self.now.state, self.now.position) }
    {
        match self.below.get(place) {
            Some(entry) => *entry,
            None => (self.state, self.position),
        }
    }

    // Pops what is above the entry at a place. If the place is above the stack, the entry is pushed.
    #[inline(always)]
    fn pop_to(&mut self, place: usize, entry: (u32, usize)) -> Result<(), OutOfMemory>
        requires within { place ≤ length self.old.below.items }
        requires there { entry ≡ get_or self.old.below.items place entry }
        ensures below { OnOk result (self.new.below.items ≡ take place self.old.below.items
            ++ entry ∷ []) }
        ensures state { self.new.state ≡ self.old.state }
        ensures position { self.new.position ≡ self.old.position }
        ensures left { self.new.left ≡ self.old.left }
        ensures table { self.new.table ≡ self.old.table }
    {
        if place < self.below.len() {
            self.below.truncate(place + 1);
        } else {
            self.push_entry(entry)?;
        }
        Ok(())
    }

    // Pushes an entry, which few reductions do: those by a production without symbols.
    #[inline(never)]
    fn push_entry(&mut self, entry: (u32, usize)) -> Result<(), OutOfMemory>
        ensures below { OnOk result (self.new.below.items ≡ self.old.below.items ++ entry ∷ []) }
        ensures state { self.new.state ≡ self.old.state }
        ensures position { self.new.position ≡ self.old.position }
        ensures left { self.new.left ≡ self.old.left }
        ensures table { self.new.table ≡ self.old.table }
    {
        self.below.push(entry)?;
        Ok(())
    }

    /// Shifts the terminal with a bit, to a state.
    #[inline(always)]
    pub(crate) fn push<H: ParseHandler>(
        &mut self,
        target: u32,
        bit: u32,
        handler: &mut H,
    ) -> Result<(), TableParseError<H::Stop>>
        ensures made { OnOk result (IsShifted H.takes self.old target bit handler.old self.new
            handler.new) }
        ensures limit { IfErr result (IfLimit (self.old.left ≡ 0)) }
        ensures no_refusal { IfErr result IsNoRefusal }
        ensures table { self.new.table ≡ self.old.table }
    {
        if self.left == 0 {
            return Err(TableParseError::Limit);
        }
        let Some(position) = self.position.checked_add(1) else {
            return Err(TableParseError::TooLong);
        };
        if let Err(stop) = handler.shift(self.position, bit) {
            return Err(TableParseError::Stopped(stop));
        }
        self.below.push((self.state, self.position))?;
        self.left -= 1;
        self.state = target;
        self.position = position;
        Ok(())
    }
}
