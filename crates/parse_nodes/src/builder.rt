//! A handler that builds a parse tree.
ghost use Rattle.std.specs.Prelude.{◌≡◌, ◌+◌, ◌<◌, ◌^◌, [], length};
ghost use Rattle.std.specs.Prelude.{IfOk, IsOk, IsOkUnless, OnErr, OnOk};
ghost use Rattle.parse_nodes.specs.Building.{AddsNode, node_of};
ghost use Rattle.table_parser.specs.Events.{Reduced, Shifted};

use crate::error::NodeError;
use crate::node::ParseNode;
use crate::tree::ParseNodes;
use crate::walk::start_of;
use std::alloc::Global;
use table_parser::handler::ParseHandler;

/// Adds a node for each step of a run.
#[derive(Drop)]
pub struct NodeBuilder {
    nodes: Vec<ParseNode>,
}

impl NodeBuilder {
    /// A builder without nodes.
    pub fn new(alloc: Global) -> NodeBuilder
        ensures { result.nodes.items ≡ [] }
    {
        NodeBuilder {
            nodes: Vec::new(alloc),
        }
    }

    /// The nodes so far: those of each tree on the stack, the oldest first.
    pub fn nodes(&self) -> &[ParseNode]
        ensures { result.now ≡ self.now.nodes.items }
    {
        &self.nodes
    }

    /// The nodes as those of a finished tree.
    pub fn into_nodes(self) -> ParseNodes
        ensures { result.nodes.items ≡ self.nodes.items }
    {
        ParseNodes { nodes: self.nodes }
    }
}

impl ParseHandler for NodeBuilder {
    type Stop = NodeError;

    ghost takes = { AddsNode };

    #[inline(always)]
    fn shift(&mut self, position: usize, bit: u32) -> Result<(), NodeError>
        ensures taken { OnOk result (AddsNode self.old (Shifted position bit) self.new) }
        ensures kept { OnErr result (self.new.nodes.items ≡ self.old.nodes.items) }
        ensures fits { position + 1 < 2 ^ 32 → IsOkUnless result NodeError.Memory }
    {
        let first = number_of(position)?;
        let Some(end) = first.checked_add(1) else {
            return Err(NodeError::TooLarge);
        };
        self.nodes.push(ParseNode {
            label: bit,
            size: 1,
            first,
            end,
        })?;
        Ok(())
    }

    #[inline(always)]
    fn reduce(
        &mut self,
        production: u32,
        len: usize,
        first: usize,
        end: usize,
    ) -> Result<(), NodeError>
        ensures taken { OnOk result
            (AddsNode self.old (Reduced production len first end) self.new) }
        ensures kept { OnErr result (self.new.nodes.items ≡ self.old.nodes.items) }
        ensures fits { length self.old.nodes.items + 1 < 2 ^ 32 → first < 2 ^ 32 → end < 2 ^ 32 →
            IsOkUnless result NodeError.Memory }
    {
        let node = inner_node(&self.nodes, production, len, first, end)?;
        self.nodes.push(node)?;
        Ok(())
    }
}

// The node of a reduction, whose children are the last `len` trees of the nodes.
#[inline(always)]
fn inner_node(
    nodes: &[ParseNode],
    production: u32,
    len: usize,
    first: usize,
    end: usize,
) -> Result<ParseNode, NodeError>
    ensures node { IfOk result (λ node.
        node ≡ node_of nodes.now (Reduced production len first end)) }
    ensures fits { length nodes.now + 1 < 2 ^ 32 → first < 2 ^ 32 → end < 2 ^ 32 → IsOk result }
{
    let below = number_of(nodes.len().saturating_sub(start_of(nodes, len)))?;
    let Some(size) = below.checked_add(1) else {
        return Err(NodeError::TooLarge);
    };
    Ok(ParseNode {
        label: production,
        size,
        first: number_of(first)?,
        end: number_of(end)?,
    })
}

// A number of 32 bits.
fn number_of(number: usize) -> Result<u32, NodeError>
    ensures same { IfOk result (λ n. n ≡ number) }
    ensures fits { number < 2 ^ 32 → IsOk result }
{
    match u32::try_from(number) {
        Ok(number) => Ok(number),
        Err(_) => Err(NodeError::TooLarge),
    }
}
