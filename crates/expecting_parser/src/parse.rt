//! Parses the terminals that an iterator gives.
ghost use Rattle.std.specs.Prelude.{[], IfErr, OnOk};
ghost use Rattle.std.specs.Iterator.{IsFinite};
ghost use Rattle.expecting_parser.specs.Expecting.{IfFailed, IfRefusedWith, IsRefusalWith};
ghost use Rattle.expecting_parser.specs.Kept.{AreKept, IsRefusalAfter};
ghost use Rattle.table_parser.specs.Words.{HasMetUnknown, HasParsedAll, IfLimit, IfRefused, IfUnknown, IsLimitOf};

use crate::error::ExpectingError;
use crate::kept::Kept;
use parse_tables::table::ParseTable;
use std::alloc::Global;
use table_parser::error::TableParseError;
use table_parser::handler::ParseHandler;
use table_parser::machine::Machine;

/// Parses the terminals whose bits an iterator gives, as `parse_events` of `table_parser` does. Each
/// is read once, when its turn comes. Its bit is kept. After a refusal those that were kept are read
/// anew, in at most `limit` steps, and the expected tokens are tried.
pub fn parse_expecting<I: Iterator<Item = u32> + Drop, H: ParseHandler>(
    alloc: Global,
    table: &ParseTable,
    limit: usize,
    input: I,
    handler: &mut H,
) -> Result<(), ExpectingError<H::Stop>>
    requires can { I.can_next input }
    requires finite { IsFinite (I.remaining input) }
    ensures parsed { OnOk result (HasParsedAll I.next_gives input table.now H.takes limit
        handler.old handler.new) }
    ensures refused { IfErr result (IfRefusedWith (IsRefusalWith I.next_gives input table.now
        H.takes limit handler.old handler.new)) }
    ensures reported { IfErr result (IfFailed (IfRefused (λ _. ⊥))) }
    ensures limit { IfErr result
        (IfFailed (IfLimit (IsLimitOf I.next_gives input table.now limit))) }
    ensures unknown { IfErr result
        (IfFailed (IfUnknown (HasMetUnknown I.next_gives input table.now))) }
{
    let mut kept = Kept::new(alloc);
    match parse_keeping(alloc, table, limit, input, handler, &mut kept) {
        Ok(()) => Ok(()),
        Err(error) => Err(kept.reported(alloc, table, limit, error)),
    }
}

// Parses, and keeps the bits of the terminals that were read.
fn parse_keeping<I: Iterator<Item = u32> + Drop, H: ParseHandler>(
    alloc: Global,
    table: &ParseTable,
    limit: usize,
    input: I,
    handler: &mut H,
    kept: &mut Kept,
) -> Result<(), TableParseError<H::Stop>>
    requires can { I.can_next input }
    requires finite { IsFinite (I.remaining input) }
    requires empty { AreKept [] kept.old }
    ensures parsed { OnOk result (HasParsedAll I.next_gives input table.now H.takes limit
        handler.old handler.new) }
    ensures refused { IfErr result (IfRefused (IsRefusalAfter I.next_gives input table.now H.takes
        limit handler.old handler.new kept.new)) }
    ensures limit { IfErr result (IfLimit (IsLimitOf I.next_gives input table.now limit)) }
    ensures unknown { IfErr result (IfUnknown (HasMetUnknown I.next_gives input table.now)) }
{
    let mut machine = Machine::new(alloc, table, limit);
    for bit in input {
        machine.shift(bit, handler)?;
        kept.keep(bit);
    }
    machine.finish(handler)
}
