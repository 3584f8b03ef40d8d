//! A walk over trees from left to right, with a stack of its own.
ghost use Rattle.std.specs.Prelude.{◌≡◌, ◌∷◌, [], IfOk};
ghost use Rattle.lalrpop_ambiguity.specs.derivations.Derivations.{beside};
ghost use Rattle.lalrpop_ambiguity.specs.derivations.Represented.{tree_of};
ghost use Rattle.lalrpop_ambiguity.specs.derivations.DerivationSteps.{around_of, forest_of, steps_over, steps_left, steps_of, step_of, GivesStep};

use super::Derivation;
use lalrpop_base::memory::OutOfMemory;
use lalrpop_base::repr::{Production, Symbol};
use std::alloc::Global;

/// A step of a walk.
#[derive(Drop)]
pub(super) enum DerivationStep<'tree, 'grammar> {
    /// Enters a node.
    Enter(&'grammar Production),
    /// Meets a leaf.
    Meet(&'tree Symbol),
    /// Leaves the innermost node that it is in.
    Leave,
}

/// Trees beside one another that are left.
#[derive(Drop)]
pub(super) struct Rest<'tree, 'grammar> {
    trees: &'tree [Derivation<'grammar>],
}

/// The progress of a walk. `here` has the trees that are left in the innermost node. `around` has
/// those that are left in each node around it, the outermost first.
#[derive(Drop)]
pub(super) struct DerivationWalk<'tree, 'grammar> {
    here: Rest<'tree, 'grammar>,
    around: Vec<Rest<'tree, 'grammar>>,
}

impl<'tree, 'grammar> DerivationWalk<'tree, 'grammar> {
    pub(super) fn new(
        alloc: Global,
        trees: &'tree [Derivation<'grammar>],
    ) -> DerivationWalk<'tree, 'grammar>
        ensures { steps_of result ≡ steps_over (forest_of trees.now) }
    {
        DerivationWalk {
            here: Rest { trees },
            around: Vec::new(alloc),
        }
    }

    /// The next step, or `None` at the end. The error is `OutOfMemory` if an allocation fails.
    pub(super) fn next(&mut self) -> Result<Option<DerivationStep<'tree, 'grammar>>, OutOfMemory>
        ensures { IfOk result (λ step. GivesStep step (steps_of self.old) (steps_of self.new)) }
    {
        let here = self.here.trees;
        match here.split_first() {
            Some((tree, trees)) => {
                self.here = Rest { trees };
                Ok(Some(self.come_to(tree)?))
            }
            None => Ok(self.leave()),
        }
    }

    // Makes the step to a tree. `here` has the trees after it.
    fn come_to(
        &mut self,
        tree: &'tree Derivation<'grammar>,
    ) -> Result<DerivationStep<'tree, 'grammar>, OutOfMemory>
        ensures { IfOk result (λ step. steps_left
            (beside (tree_of tree.now) (forest_of self.old.here.trees.now)) (around_of self.old)
            ≡ step_of step ∷ steps_of self.new) }
    {
        match tree {
            Derivation::Node(production, children) => {
                let trees = self.here.trees;
                self.around.push(Rest { trees })?;
                self.here = Rest {
                    trees: children.as_slice(),
                };
                Ok(DerivationStep::Enter(*production))
            }
            Derivation::Leaf(symbol) => Ok(DerivationStep::Meet(symbol)),
        }
    }

    // Makes the step out of the innermost node, which has no trees left. `None` if there is no such
    // node.
    fn leave(&mut self) -> Option<DerivationStep<'tree, 'grammar>>
        requires { self.old.here.trees.now ≡ [] }
        ensures { GivesStep result (steps_of self.old) (steps_of self.new) }
    {
        match self.around.pop() {
            Some(rest) => {
                self.here = rest;
                Some(DerivationStep::Leave)
            }
            None => None,
        }
    }
}
