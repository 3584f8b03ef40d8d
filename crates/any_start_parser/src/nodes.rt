//! The parse tree of the terminals that an iterator gives, for any start symbol.
ghost use Rattle.std.specs.Prelude.{◌≡◌, [], IfErr, IfOk};
ghost use Rattle.std.specs.Iterator.{IsFinite};
ghost use Rattle.any_start_parser.specs.Lists.{IsRefusalFromAny};
ghost use Rattle.any_start_parser.specs.Nodes.{HasBuiltFromAny};
ghost use Rattle.any_start_parser.specs.declared.handler.BelowStart.{BelowStart};
ghost use Rattle.parse_nodes.specs.Words.{AddsNode};
ghost use Rattle.parse_nodes.specs.declared.builder.NodeBuilder.{NodeBuilder};
ghost use Rattle.table_parser.specs.Words.{HasMetUnknown, IfLimit, IfRefused, IfUnknown, IsLimitOf};

use crate::events::parse_events_from_any;
use crate::handler::BelowStart;
use parse_nodes::builder::NodeBuilder;
use parse_nodes::error::NodeError;
use parse_nodes::tree::ParseNodes;
use parse_tables::table::ParseTable;
use std::alloc::Global;
use table_parser::error::TableParseError;

/// The nodes of the parse tree from the old start symbol, by a table of an augmented grammar and
/// the number of the production of its new start symbol. An iterator gives the bits of the
/// terminals. Each is read once, when its turn comes. The parse makes at most `limit` steps: each
/// node is one, and the reduction by this production is one more.
pub fn parse_nodes_from_any<I: Iterator<Item = u32> + Drop>(
    alloc: Global,
    table: &ParseTable,
    production: u32,
    limit: usize,
    input: I,
) -> Result<ParseNodes, TableParseError<NodeError>>
    requires can { I.can_next input }
    requires finite { IsFinite (I.remaining input) }
    ensures built { IfOk result (λ tree. HasBuiltFromAny I.next_gives input table.now production
        limit tree.nodes.items) }
    ensures refused { IfErr result (IfRefused (λ refusal. (u v : BelowStart NodeBuilder)
        × (u.handler.nodes.items ≡ []) × (u.production ≡ production)
        × IsRefusalFromAny I.next_gives input table.now AddsNode limit u v refusal)) }
    ensures limit { IfErr result (IfLimit (IsLimitOf I.next_gives input table.now limit)) }
    ensures unknown { IfErr result (IfUnknown (HasMetUnknown I.next_gives input table.now)) }
{
    let builder = NodeBuilder::new(alloc);
    let mut below = BelowStart::new(builder, production);
    parse_events_from_any(alloc, table, limit, input, &mut below)?;
    Ok(below.into_handler().into_nodes())
}
