//! Copies of trees.
ghost use Rattle.std.specs.Prelude.{◌≡◌, ◌∷◌, IfOk, OnOk, List};
ghost use Rattle.lalrpop_ambiguity.specs.derivations.Derivations.{Node};
ghost use Rattle.lalrpop_ambiguity.specs.derivations.Represented.{tree_of};
ghost use Rattle.lalrpop_ambiguity.specs.derivations.DerivationSteps.{Step, leaves_node, forest_of, step_of, tree_within};

use super::Derivation;
use super::walk::{DerivationStep, DerivationWalk};
use lalrpop_base::memory::OutOfMemory;
use lalrpop_base::repr::Production;
use std::alloc::Global;
use std::mem;

/// A node that does not have all its children yet.
#[derive(Drop)]
pub(super) struct OpenNode<'grammar> {
    production: &'grammar Production,
    children: Vec<Derivation<'grammar>>,
}

/// A copy of a node with this production and these children.
pub(super) fn clone_node<'grammar>(
    alloc: Global,
    production: &'grammar Production,
    children: &Vec<Derivation<'grammar>>,
) -> Result<Derivation<'grammar>, OutOfMemory>
    ensures { IfOk result
        (λ copy. tree_of copy ≡ Node production.now (forest_of children.now.items)) }
{
    let mut walk = DerivationWalk::new(alloc, children);
    let mut node = OpenNode {
        production,
        children: Vec::new(alloc),
    };
    let mut around = Vec::new(alloc);
    'steps: while let Some(step) = walk.next()? {
        copy_step(alloc, &step, &mut node, &mut around)?;
    }
    Ok(Derivation::Node(node.production, node.children))
}

// Makes a step of the walk over the original in the copy.
fn copy_step<'grammar>(
    alloc: Global,
    step: &DerivationStep<'_, 'grammar>,
    node: &mut OpenNode<'grammar>,
    around: &mut Vec<OpenNode<'grammar>>,
) -> Result<(), OutOfMemory>
    ensures { (steps : List Step) →
        OnOk result (tree_within node.old around.old.items (step_of step.now ∷ steps)
        ≡ tree_within node.new around.new.items steps) }
{
    match step {
        DerivationStep::Enter(production) => {
            let inner = OpenNode {
                production: *production,
                children: Vec::new(alloc),
            };
            around.push(mem::replace(node, inner))?;
        }
        DerivationStep::Meet(symbol) => {
            let leaf = Derivation::Leaf((*symbol).clone(alloc)?);
            node.children.push(leaf)?;
        }
        DerivationStep::Leave => close(node, around)?,
    }
    Ok(())
}

// Closes the innermost node: it becomes the last child of the node around it.
fn close<'grammar>(
    node: &mut OpenNode<'grammar>,
    around: &mut Vec<OpenNode<'grammar>>,
) -> Result<(), OutOfMemory>
    ensures { (steps : List Step) →
        OnOk result (tree_within node.old around.old.items (leaves_node ∷ steps)
        ≡ tree_within node.new around.new.items steps) }
{
    if let Some(outer) = around.pop() {
        let whole = mem::replace(node, outer);
        let child = Derivation::Node(whole.production, whole.children);
        node.children.push(child)?;
    }
    Ok(())
}
