//! Derivation trees of lists of symbols. A tree may be deep, so no function recurses over one. Only
//! the comparison does so, if an allocation fails.
mod comparison;
mod copies;
mod marked;
mod moves;
mod text;
mod walk;

ghost use Rattle.std.specs.Prelude.{◌≡◌, ◌↔◌, ◌<◌, [], ◌∷◌, ◌++◌, map, reverse, Some, true, string_bytes, IsTrue, IsFalse, IfOk, OnOk};
ghost use Rattle.lalrpop_ambiguity.specs.derivations.Derivations.{beside, leaves, no_trees, nodes, trees_of};
ghost use Rattle.lalrpop_ambiguity.specs.derivations.MarkedTexts.{marked_text};
ghost use Rattle.lalrpop_ambiguity.specs.derivations.Represented.{symbols_at, tree_nodes, tree_of, tree_text, trees_at};

pub(crate) use comparison::are_equal;
use copies::clone_node;
use lalrpop_base::memory::OutOfMemory;
use lalrpop_base::repr::{Production, Symbol};
use marked::marked_text;
pub(crate) use moves::common_moves;
use std::alloc::Global;
use std::{fmt, mem};
use text::show_tree;

/// A derivation tree of a list of symbols: a symbol that is not expanded, or a production over the
/// children of its node. The list is at the leaves.
pub enum Derivation<'grammar> {
    Node(&'grammar Production, Vec<Derivation<'grammar>>),
    Leaf(Symbol),
}

impl<'grammar> Derivation<'grammar> {
    /// The symbols at the leaves, from left to right. The error is `OutOfMemory` if an allocation
    /// fails.
    pub fn leaves<'tree>(&'tree self, alloc: Global) -> Result<Vec<&'tree Symbol>, OutOfMemory>
        ensures leaves { IfOk result (λ list. symbols_at list.items
            ≡ leaves (beside (tree_of self.now) no_trees)) }
    {
        let mut list = Vec::new(alloc);
        let mut left = Vec::new(alloc);
        left.push(self)?;
        while let Some(tree) = left.pop() {
            read(tree, &mut left, &mut list)?;
        }
        Ok(list)
    }

    /// A copy of the tree. The error is `OutOfMemory` if an allocation fails.
    pub fn clone(&self, alloc: Global) -> Result<Derivation<'grammar>, OutOfMemory>
        ensures copy { IfOk result (λ copy. tree_of copy ≡ tree_of self.now) }
    {
        match self {
            Derivation::Node(production, children) => clone_node(alloc, *production, children),
            Derivation::Leaf(symbol) => Ok(Derivation::Leaf(symbol.clone(alloc)?)),
        }
    }

    /// The text of the tree, with the mark `(*)` after so many moves of a bottom-up parser that makes
    /// it. A move reads a leaf, or reduces by the production of a node. The mark is right before the
    /// next move. The error is `OutOfMemory` if an allocation fails.
    pub fn marked_text(&self, alloc: Global, moves: usize) -> Result<String, OutOfMemory>
        ensures text { IfOk result
            (λ text. string_bytes text ≡ marked_text moves (tree_of self.now)) }
    {
        marked_text(alloc, self, moves)
    }
}

impl<'grammar> Drop for Derivation<'grammar> {
    // Drops one node after the other, without recursion and without an allocation.
    #[tactic(auto, using(crate::proofs::theory::derivations::Dropped::one_fewer))]
    fn drop(mut self) {
        let mut rest = match self {
            Derivation::Node(_, children) => children,
            Derivation::Leaf(_) => return,
        };
        while let Some(tree) = rest.pop() {
            self = tree;
            self.go_down(&mut rest);
            match self {
                Derivation::Node(_, _children) => (),
                Derivation::Leaf(_) => (),
            }
        }
    }
}

impl<'grammar> Derivation<'grammar> {
    // Exchanges a tree for one of its nodes that has no children. All its other nodes go to the
    // trees beside it. The number of nodes stays.
    fn go_down(&mut self, rest: &mut Vec<Derivation<'grammar>>)
        ensures kept { tree_nodes (self.new ∷ rest.new.items)
            ≡ tree_nodes (self.old ∷ rest.old.items) }
        ensures bare { tree_nodes (self.new ∷ []) ≡ 1 }
    {
        while self.turn(rest) {}
    }

    // If the root has children, exchanges them and the trees beside the root. If there were such
    // trees, the root then changes places with its first child, and the result is `true`. If it is
    // `false`, the root has no children left.
    fn turn(&mut self, rest: &mut Vec<Derivation<'grammar>>) -> bool
        ensures kept { tree_nodes (self.new ∷ rest.new.items)
            ≡ tree_nodes (self.old ∷ rest.old.items) }
        ensures child { IsTrue result →
            tree_nodes (self.new ∷ []) < tree_nodes (self.old ∷ []) }
        ensures bare { IsFalse result → tree_nodes (self.new ∷ []) ≡ 1 }
    {
        let Derivation::Node(_, children) = self else {
            return false;
        };
        if children.is_empty() {
            return false;
        }
        mem::swap(children, rest);
        if children.is_empty() {
            return false;
        }
        mem::swap(self, &mut rest[0]);
        true
    }
}

impl<'grammar> PartialEq for Derivation<'grammar> {
    ghost use Rattle.std.specs.Cmp.{partial_equiv_from_equiv, on_equiv};
    ghost use Rattle.std.specs.Ordering.{on};
    ghost use Rattle.lalrpop_ambiguity.specs.derivations.EqualDerivations.{equal_tree, tree_equivalence};

    ghost eq = { on tree_of equal_tree };

    ghost laws = { partial_equiv_from_equiv (on_equiv tree_of tree_equivalence) };

    fn eq(&self, other: &Derivation<'grammar>) -> bool
        ensures same { IsTrue result ↔ (tree_of self.now ≡ tree_of other.now) }
        ensures eq { result ≡ equal_tree (tree_of self.now) (tree_of other.now) }
    {
        are_equal(self, other)
    }
}

impl<'grammar> Eq for Derivation<'grammar> {
    ghost use Rattle.std.specs.Cmp.{on_equiv};
    ghost use Rattle.lalrpop_ambiguity.specs.derivations.EqualDerivations.{tree_equivalence};

    ghost laws = { on_equiv tree_of tree_equivalence };
}

// Reads a tree that was popped from a stack. A leaf goes to the list, and the children of a node go
// to the stack.
fn read<'tree, 'grammar>(
    tree: &'tree Derivation<'grammar>,
    left: &mut Vec<&'tree Derivation<'grammar>>,
    list: &mut Vec<&'tree Symbol>,
) -> Result<(), OutOfMemory>
    ensures leaves { OnOk result (symbols_at list.new.items ++ leaves
        (trees_of (reverse (trees_at left.new.items)))
        ≡ symbols_at list.old.items ++ leaves
        (trees_of (reverse (trees_at left.old.items ++ tree_of tree.now ∷ [])))) }
    ensures fewer { OnOk result (nodes (trees_of (trees_at left.new.items))
        < nodes (trees_of (trees_at left.old.items ++ tree_of tree.now ∷ []))) }
{
    match tree {
        Derivation::Node(_, children) => {
            push_children(children, left)?;
            Ok(())
        }
        Derivation::Leaf(symbol) => {
            list.push(symbol)?;
            Ok(())
        }
    }
}

// Pushes children on a stack of trees, from the last to the first.
pub(crate) fn push_children<'tree, 'grammar>(
    children: &'tree Vec<Derivation<'grammar>>,
    left: &mut Vec<&'tree Derivation<'grammar>>,
) -> Result<(), OutOfMemory>
    ensures { OnOk result (trees_at left.new.items
        ≡ trees_at left.old.items ++ reverse (map tree_of children.now.items)) }
{
    for child in children.iter().rev() {
        left.push(child)?;
    }
    Ok(())
}

impl<'grammar> fmt::Display for Derivation<'grammar> {
    ghost output = { λ tree. Some (tree_text tree) };

    fn fmt<W: fmt::Write>(&self, f: &mut fmt::Formatter<W>) -> fmt::Result {
        show_tree(self, f)
    }
}

impl<'grammar> fmt::Debug for Derivation<'grammar> {
    ghost debug_output = { λ tree. Some (tree_text tree) };

    fn fmt<W: fmt::Write>(&self, f: &mut fmt::Formatter<W>) -> fmt::Result {
        show_tree(self, f)
    }
}
