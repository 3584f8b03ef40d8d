//! Copies of trees.
ghost use Rattle.std.specs.Prelude.{◌≡◌, ◌∷◌, [], IfOk, OnOk, List};
ghost use Rattle.lalrpop_base.specs.Words.{Node};
ghost use Rattle.lalrpop_parser.specs.trees.ParseTrees.{tree_of};
ghost use Rattle.lalrpop_parser.specs.trees.TreeSteps.{Step, leaves_node, forest_of, step_of, tree_within};

use super::ParseTree;
use super::walk::{TreeStep, TreeWalk};
use lalrpop_base::memory::OutOfMemory;
use lalrpop_base::repr::NonterminalString;
use std::alloc::Global;
use std::mem;

/// A node that does not have all its children yet.
#[derive(Drop)]
pub(super) struct OpenNode {
    name: NonterminalString,
    children: Vec<ParseTree>,
}

/// A copy of a node with this name and these children.
pub(super) fn clone_node(
    alloc: Global,
    name: &NonterminalString,
    children: &Vec<ParseTree>,
) -> Result<ParseTree, OutOfMemory>
    ensures { IfOk result (λ copy. tree_of copy ≡ Node name.now (forest_of children.now.items)) }
{
    let mut walk = TreeWalk::new(alloc, children);
    let mut node = open(alloc, name)?;
    let mut around = Vec::new(alloc);
    'steps: while let Some(step) = walk.next()? {
        copy_step(alloc, &step, &mut node, &mut around)?;
    }
    Ok(ParseTree::Nonterminal(node.name, node.children))
}

// A node without children.
fn open(alloc: Global, name: &NonterminalString) -> Result<OpenNode, OutOfMemory>
    ensures name { IfOk result (λ node. node.name ≡ name.now) }
    ensures bare { IfOk result (λ node. node.children.items ≡ []) }
{
    Ok(OpenNode {
        name: name.clone(alloc)?,
        children: Vec::new(alloc),
    })
}

// Makes a step of the walk over the original in the copy.
fn copy_step(
    alloc: Global,
    step: &TreeStep<'_>,
    node: &mut OpenNode,
    around: &mut Vec<OpenNode>,
) -> Result<(), OutOfMemory>
    ensures { (steps : List Step) →
        OnOk result (tree_within node.old around.old.items (step_of step.now ∷ steps)
        ≡ tree_within node.new around.new.items steps) }
{
    match step {
        TreeStep::Enter(name) => around.push(mem::replace(node, open(alloc, name)?))?,
        TreeStep::Meet(terminal) => {
            let leaf = ParseTree::Terminal((*terminal).clone(alloc)?);
            node.children.push(leaf)?;
        }
        TreeStep::Leave => close(node, around)?,
    }
    Ok(())
}

// Closes the innermost node: it becomes the last child of the node around it.
fn close(node: &mut OpenNode, around: &mut Vec<OpenNode>) -> Result<(), OutOfMemory>
    ensures { (steps : List Step) →
        OnOk result (tree_within node.old around.old.items (leaves_node ∷ steps)
        ≡ tree_within node.new around.new.items steps) }
{
    if let Some(outer) = around.pop() {
        let whole = mem::replace(node, outer);
        let child = ParseTree::Nonterminal(whole.name, whole.children);
        node.children.push(child)?;
    }
    Ok(())
}
