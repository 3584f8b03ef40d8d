//! Parses the terminals that an iterator gives.
ghost use Rattle.std.specs.Prelude.{IfErr, OnOk};
ghost use Rattle.std.specs.Iterator.{IsFinite};
ghost use Rattle.table_parser.specs.Errors.{IfLimit, IfRefused, IfUnknown};
ghost use Rattle.table_parser.specs.Lists.{HasMetUnknown, HasParsedAll, IsLimitOf, IsRefusalOf};

use crate::error::TableParseError;
use crate::handler::ParseHandler;
use crate::machine::Machine;
use parse_tables::table::ParseTable;
use std::alloc::Global;

/// Parses the terminals whose bits an iterator gives. Each is read once, when its turn comes. The
/// handler takes the steps, of which there are at most `limit`: each shift and each reduction is
/// one.
pub fn parse_events<I: Iterator<Item = u32> + Drop, H: ParseHandler>(
    alloc: Global,
    table: &ParseTable,
    limit: usize,
    input: I,
    handler: &mut H,
) -> Result<(), TableParseError<H::Stop>>
    requires can { I.can_next input }
    requires finite { IsFinite (I.remaining input) }
    ensures parsed { OnOk result (HasParsedAll I.next_gives input table.now H.takes limit
        handler.old handler.new) }
    ensures refused { IfErr result (IfRefused (IsRefusalOf I.next_gives input table.now H.takes limit
        handler.old handler.new)) }
    ensures limit { IfErr result (IfLimit (IsLimitOf I.next_gives input table.now limit)) }
    ensures unknown { IfErr result (IfUnknown (HasMetUnknown I.next_gives input table.now)) }
{
    let mut machine = Machine::new(alloc, table, limit);
    for bit in input {
        machine.shift(bit, handler)?;
    }
    machine.finish(handler)
}
