//! Parse trees. A tree may be deep, so no function recurses over one. Only the comparison does so,
//! if an allocation fails.
mod comparison;
mod copies;
mod text;
mod walk;

ghost use Rattle.std.specs.Prelude.{◌≡◌, ◌↔◌, ◌<◌, [], ◌∷◌, ◌++◌, map, reverse, Some, true, IsTrue, IsFalse, IfOk, OnOk, IsSomeAnd};
ghost use Rattle.lalrpop_base.specs.Words.{Trees, Node, leaves, beside, no_trees, trees_of};
ghost use Rattle.lalrpop_grammar.specs.declared.repr.NonterminalString.{NonterminalString};
ghost use Rattle.lalrpop_parser.specs.trees.ParseTrees.{tree_nodes, tree_of, tree_text};

use comparison::are_equal;
use copies::clone_node;
use lalrpop_base::memory::OutOfMemory;
use lalrpop_base::repr::{NonterminalString, TerminalString};
use std::alloc::Global;
use std::{fmt, mem};
use text::show_tree;

/// A parse tree: a nonterminal over its children, or a terminal.
pub enum ParseTree {
    Nonterminal(NonterminalString, Vec<ParseTree>),
    Terminal(TerminalString),
}

impl ParseTree {
    /// The terminals at the leaves, from left to right. The error is `OutOfMemory` if an allocation
    /// fails.
    pub fn terminals(&self, alloc: Global) -> Result<Vec<TerminalString>, OutOfMemory>
        ensures { IfOk result (λ list. list.items ≡ leaves (beside (tree_of self.now) no_trees)) }
    {
        let mut list = Vec::new(alloc);
        let mut left = Vec::new(alloc);
        left.push(self)?;
        while let Some(tree) = left.pop() {
            match tree {
                ParseTree::Nonterminal(_, children) => push_children(children, &mut left)?,
                ParseTree::Terminal(terminal) => list.push(terminal.clone(alloc)?)?,
            }
        }
        Ok(list)
    }

    /// A copy of the tree. The error is `OutOfMemory` if an allocation fails.
    pub fn clone(&self, alloc: Global) -> Result<ParseTree, OutOfMemory>
        ensures { IfOk result (λ copy. tree_of copy ≡ tree_of self.now) }
    {
        match self {
            ParseTree::Nonterminal(name, children) => clone_node(alloc, name, children),
            ParseTree::Terminal(terminal) => Ok(ParseTree::Terminal(terminal.clone(alloc)?)),
        }
    }
}

impl Drop for ParseTree {
    // Drops one node after the other, without recursion and without an allocation.
    #[tactic(auto, using(crate::proofs::theory::trees::DroppedTrees::one_fewer))]
    fn drop(mut self) {
        let mut rest = match self {
            ParseTree::Nonterminal(_, children) => children,
            ParseTree::Terminal(_) => return,
        };
        while let Some(tree) = rest.pop() {
            self = tree;
            self.go_down(&mut rest);
            match self {
                ParseTree::Nonterminal(_, _children) => (),
                ParseTree::Terminal(_) => (),
            }
        }
    }
}

impl ParseTree {
    // Exchanges a tree for one of its nodes that has no children. All its other nodes go to the
    // trees beside it. The number of nodes stays.
    fn go_down(&mut self, rest: &mut Vec<ParseTree>)
        ensures kept { tree_nodes (self.new ∷ rest.new.items)
            ≡ tree_nodes (self.old ∷ rest.old.items) }
        ensures bare { tree_nodes (self.new ∷ []) ≡ 1 }
    {
        while self.turn(rest) {}
    }

    // If the root has children, exchanges them and the trees beside the root. If there were such
    // trees, the root then changes places with its first child, and the result is `true`. If it is
    // `false`, the root has no children left.
    fn turn(&mut self, rest: &mut Vec<ParseTree>) -> bool
        ensures kept { tree_nodes (self.new ∷ rest.new.items)
            ≡ tree_nodes (self.old ∷ rest.old.items) }
        ensures child { IsTrue result →
            tree_nodes (self.new ∷ []) < tree_nodes (self.old ∷ []) }
        ensures bare { IsFalse result → tree_nodes (self.new ∷ []) ≡ 1 }
    {
        let ParseTree::Nonterminal(_, children) = self else {
            return false;
        };
        if children.is_empty() {
            return false;
        }
        mem::swap(children, rest);
        if children.is_empty() {
            return false;
        }
        mem::swap(self, &mut rest[0]);
        true
    }

    /// The children of a nonterminal, or `None` for a terminal.
    pub fn into_children(self) -> Option<Vec<ParseTree>>
        ensures { (a : NonterminalString) (ts : Trees) → tree_of self ≡ Node a ts →
            IsSomeAnd result (λ children. trees_of (map tree_of children.items) ≡ ts) }
    {
        match self {
            ParseTree::Nonterminal(_, children) => Some(children),
            ParseTree::Terminal(_) => None,
        }
    }
}

impl PartialEq for ParseTree {
    ghost use Rattle.std.specs.Cmp.{partial_equiv_from_equiv, on_equiv};
    ghost use Rattle.std.specs.Ordering.{on};
    ghost use Rattle.lalrpop_parser.specs.trees.EqualTrees.{equal_tree, tree_equivalence};

    ghost eq = { on tree_of equal_tree };

    ghost laws = { partial_equiv_from_equiv (on_equiv tree_of tree_equivalence) };

    fn eq(&self, other: &ParseTree) -> bool
        ensures same { IsTrue result ↔ (tree_of self.now ≡ tree_of other.now) }
        ensures eq { result ≡ equal_tree (tree_of self.now) (tree_of other.now) }
    {
        are_equal(self, other)
    }
}

impl Eq for ParseTree {
    ghost use Rattle.std.specs.Cmp.{on_equiv};
    ghost use Rattle.lalrpop_parser.specs.trees.EqualTrees.{tree_equivalence};

    ghost laws = { on_equiv tree_of tree_equivalence };
}

// Pushes children on a stack of trees, from the last to the first.
fn push_children<'a>(
    children: &'a Vec<ParseTree>,
    left: &mut Vec<&'a ParseTree>,
) -> Result<(), OutOfMemory>
    ensures { OnOk result (map (λ t. tree_of t.now) left.new.items
        ≡ map (λ t. tree_of t.now) left.old.items ++ reverse (map tree_of children.now.items)) }
{
    for child in children.iter().rev() {
        left.push(child)?;
    }
    Ok(())
}

impl fmt::Display for ParseTree {
    ghost output = { λ tree. Some (tree_text tree) };

    fn fmt<W: fmt::Write>(&self, f: &mut fmt::Formatter<W>) -> fmt::Result {
        show_tree(self, f)
    }
}

impl fmt::Debug for ParseTree {
    ghost debug_output = { λ tree. Some (tree_text tree) };

    fn fmt<W: fmt::Write>(&self, f: &mut fmt::Formatter<W>) -> fmt::Result {
        show_tree(self, f)
    }
}
