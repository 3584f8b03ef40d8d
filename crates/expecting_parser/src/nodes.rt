//! The parse tree of the terminals that an iterator gives.
ghost use Rattle.std.specs.Prelude.{◌≡◌, [], IfErr, IfOk};
ghost use Rattle.std.specs.Iterator.{IsFinite};
ghost use Rattle.expecting_parser.specs.Expecting.{IfFailed, IfRefusedWith, IsRefusalWith};
ghost use Rattle.parse_nodes.specs.Words.{AddsNode, HasBuiltTree};
ghost use Rattle.parse_nodes.specs.declared.builder.NodeBuilder.{NodeBuilder};
ghost use Rattle.table_parser.specs.Words.{HasMetUnknown, IfLimit, IfRefused, IfUnknown, IsLimitOf};

use crate::error::ExpectingError;
use crate::parse::parse_expecting;
use parse_nodes::builder::NodeBuilder;
use parse_nodes::error::NodeError;
use parse_nodes::tree::ParseNodes;
use parse_tables::table::ParseTable;
use std::alloc::Global;

/// The nodes of the parse tree of terminals, as `parse_nodes` of the crate of this name makes them.
pub fn parse_nodes_expecting<I: Iterator<Item = u32> + Drop>(
    alloc: Global,
    table: &ParseTable,
    limit: usize,
    input: I,
) -> Result<ParseNodes, ExpectingError<NodeError>>
    requires can { I.can_next input }
    requires finite { IsFinite (I.remaining input) }
    ensures built { IfOk result
        (λ tree. HasBuiltTree I.next_gives input table.now limit tree.nodes.items) }
    ensures refused { IfErr result (IfRefusedWith (λ refusal expected. (h i : NodeBuilder)
        × (h.nodes.items ≡ [])
        × IsRefusalWith I.next_gives input table.now AddsNode limit h i refusal expected)) }
    ensures reported { IfErr result (IfFailed (IfRefused (λ _. ⊥))) }
    ensures limit { IfErr result
        (IfFailed (IfLimit (IsLimitOf I.next_gives input table.now limit))) }
    ensures unknown { IfErr result
        (IfFailed (IfUnknown (HasMetUnknown I.next_gives input table.now))) }
{
    let mut builder = NodeBuilder::new(alloc);
    parse_expecting(alloc, table, limit, input, &mut builder)?;
    Ok(builder.into_nodes())
}
