//! The nodes of a finished tree.
ghost use Rattle.std.specs.Prelude.{◌≡◌, [], suc, IfOk, MatchOption, Some, length, slice_get};
ghost use Rattle.parse_nodes.specs.Children.{AreChildren, first_number};

use crate::node::ParseNode;
use crate::walk::tree_start;
use std::alloc::{AllocError, Global};

/// The nodes of a parse tree. The number of a node is its place.
#[derive(Drop)]
pub struct ParseNodes {
    pub(crate) nodes: Vec<ParseNode>,
}

impl ParseNodes {
    /// All nodes, children before their parents.
    pub fn all(&self) -> &[ParseNode]
        ensures { result.now ≡ self.now.nodes.items }
    {
        &self.nodes
    }

    /// The node with a number.
    pub fn node(&self, number: usize) -> Option<ParseNode>
        ensures { result ≡ slice_get self.now.nodes.items number }
    {
        self.nodes.get(number).copied()
    }

    /// The number of the root, which is the last node.
    pub fn root(&self) -> Option<usize>
        ensures { MatchOption result (self.now.nodes.items ≡ [])
            (λ number. suc number ≡ length self.now.nodes.items) }
    {
        self.nodes.len().checked_sub(1)
    }

    /// The numbers of the children of a node, from the left.
    pub fn children(&self, alloc: Global, number: usize) -> Result<Vec<usize>, AllocError>
        ensures { IfOk result (λ children.
            AreChildren self.now.nodes.items number children.items) }
    {
        let mut children = Vec::new(alloc);
        let first = self.first_of(number);
        let mut place = number;
        while first < place {
            let root = place - 1;
            children.push(root)?;
            place = root.min(tree_start(&self.nodes, place));
        }
        children.reverse();
        Ok(children)
    }

    // The number of the first node of the tree whose root has a number.
    fn first_of(&self, number: usize) -> usize
        ensures { result ≡ first_number self.now.nodes.items number }
    {
        match self.nodes.get(number) {
            Some(node) => number.saturating_sub((node.size as usize).saturating_sub(1)),
            None => number,
        }
    }
}
