//! The parse tree of the terminals that an iterator gives.
ghost use Rattle.std.specs.Prelude.{◌≡◌, [], IfErr, IfOk};
ghost use Rattle.std.specs.Iterator.{IsFinite};
ghost use Rattle.parse_nodes.specs.Building.{AddsNode};
ghost use Rattle.parse_nodes.specs.Parsing.{HasBuiltTree};
ghost use Rattle.parse_nodes.specs.declared.builder.NodeBuilder.{NodeBuilder};
ghost use Rattle.table_parser.specs.Words.{HasMetUnknown, IfLimit, IfRefused, IfUnknown, IsLimitOf, IsRefusalOf};

use crate::builder::NodeBuilder;
use crate::error::NodeError;
use crate::tree::ParseNodes;
use parse_tables::table::ParseTable;
use std::alloc::Global;
use table_parser::error::TableParseError;
use table_parser::events::parse_events;

/// The nodes of the parse tree of terminals, whose bits an iterator gives. Each is read once, when
/// its turn comes. The parse makes at most `limit` steps: each node is one.
pub fn parse_nodes<I: Iterator<Item = u32> + Drop>(
    alloc: Global,
    table: &ParseTable,
    limit: usize,
    input: I,
) -> Result<ParseNodes, TableParseError<NodeError>>
    requires can { I.can_next input }
    requires finite { IsFinite (I.remaining input) }
    ensures built { IfOk result
        (λ tree. HasBuiltTree I.next_gives input table.now limit tree.nodes.items) }
    ensures refused { IfErr result (IfRefused (λ refusal. (h i : NodeBuilder)
        × (h.nodes.items ≡ [])
        × IsRefusalOf I.next_gives input table.now AddsNode limit h i refusal)) }
    ensures limit { IfErr result (IfLimit (IsLimitOf I.next_gives input table.now limit)) }
    ensures unknown { IfErr result (IfUnknown (HasMetUnknown I.next_gives input table.now)) }
{
    let mut builder = NodeBuilder::new(alloc);
    parse_events(alloc, table, limit, input, &mut builder)?;
    Ok(builder.into_nodes())
}
