//! Parses the terminals that an iterator gives, for any start symbol.
ghost use Rattle.std.specs.Prelude.{IfErr, OnOk};
ghost use Rattle.std.specs.Iterator.{IsFinite};
ghost use Rattle.any_start_parser.specs.Lists.{HasParsedFromAny, IsRefusalFromAny};
ghost use Rattle.table_parser.specs.Words.{HasMetUnknown, IfLimit, IfRefused, IfUnknown, IsLimitOf};

use crate::handler::BelowStart;
use parse_tables::table::ParseTable;
use std::alloc::Global;
use table_parser::error::TableParseError;
use table_parser::events::parse_events;
use table_parser::handler::ParseHandler;

/// Parses the terminals whose bits an iterator gives, by a table of an augmented grammar. Each is
/// read once, when its turn comes. The handler takes the steps below the new start symbol. There
/// are at most `limit` steps, with the reduction by its production.
pub fn parse_events_from_any<I: Iterator<Item = u32> + Drop, H: ParseHandler>(
    alloc: Global,
    table: &ParseTable,
    limit: usize,
    input: I,
    below: &mut BelowStart<H>,
) -> Result<(), TableParseError<H::Stop>>
    requires can { I.can_next input }
    requires finite { IsFinite (I.remaining input) }
    ensures parsed { OnOk result (HasParsedFromAny I.next_gives input table.now H.takes limit
        below.old below.new) }
    ensures refused { IfErr result (IfRefused (IsRefusalFromAny I.next_gives input table.now
        H.takes limit below.old below.new)) }
    ensures limit { IfErr result (IfLimit (IsLimitOf I.next_gives input table.now limit)) }
    ensures unknown { IfErr result (IfUnknown (HasMetUnknown I.next_gives input table.now)) }
{
    parse_events(alloc, table, limit, input, below)
}
