//! A walk over trees from left to right, with a stack of its own.
ghost use Rattle.std.specs.Prelude.{◌≡◌, ◌∷◌, [], IfOk};
ghost use Rattle.lalrpop_base.specs.Words.{beside};
ghost use Rattle.lalrpop_parser.specs.trees.ParseTrees.{tree_of};
ghost use Rattle.lalrpop_parser.specs.trees.TreeSteps.{around_of, forest_of, steps_over, steps_left, steps_of, step_of, GivesStep};

use super::ParseTree;
use lalrpop_base::memory::OutOfMemory;
use lalrpop_base::repr::{NonterminalString, TerminalString};
use std::alloc::Global;

/// A step of a walk.
#[derive(Drop)]
pub(super) enum TreeStep<'tree> {
    /// Enters a node.
    Enter(&'tree NonterminalString),
    /// Meets a leaf.
    Meet(&'tree TerminalString),
    /// Leaves the innermost node that it is in.
    Leave,
}

/// The progress of a walk. `here` has the trees that are left in the innermost node. `around` has
/// those that are left in each node around it, the outermost first.
#[derive(Drop)]
pub(super) struct TreeWalk<'tree> {
    here: &'tree [ParseTree],
    around: Vec<&'tree [ParseTree]>,
}

impl<'tree> TreeWalk<'tree> {
    pub(super) fn new(alloc: Global, trees: &'tree [ParseTree]) -> TreeWalk<'tree>
        ensures { steps_of result ≡ steps_over (forest_of trees.now) }
    {
        TreeWalk {
            here: trees,
            around: Vec::new(alloc),
        }
    }

    /// The next step, or `None` at the end. The error is `OutOfMemory` if an allocation fails.
    pub(super) fn next(&mut self) -> Result<Option<TreeStep<'tree>>, OutOfMemory>
        ensures { IfOk result (λ step. GivesStep step (steps_of self.old) (steps_of self.new)) }
    {
        let here = self.here;
        match here.split_first() {
            Some((tree, rest)) => {
                self.here = rest;
                Ok(Some(self.come_to(tree)?))
            }
            None => Ok(self.leave()),
        }
    }

    // Makes the step to a tree. `here` has the trees after it.
    fn come_to(&mut self, tree: &'tree ParseTree) -> Result<TreeStep<'tree>, OutOfMemory>
        ensures { IfOk result (λ step. steps_left
            (beside (tree_of tree.now) (forest_of self.old.here.now)) (around_of self.old)
            ≡ step_of step ∷ steps_of self.new) }
    {
        match tree {
            ParseTree::Nonterminal(name, children) => {
                self.around.push(self.here)?;
                self.here = children.as_slice();
                Ok(TreeStep::Enter(name))
            }
            ParseTree::Terminal(terminal) => Ok(TreeStep::Meet(terminal)),
        }
    }

    // Makes the step out of the innermost node, which has no trees left. `None` if there is no such
    // node.
    fn leave(&mut self) -> Option<TreeStep<'tree>>
        requires { self.old.here.now ≡ [] }
        ensures { GivesStep result (steps_of self.old) (steps_of self.new) }
    {
        match self.around.pop() {
            Some(rest) => {
                self.here = rest;
                Some(TreeStep::Leave)
            }
            None => None,
        }
    }
}
