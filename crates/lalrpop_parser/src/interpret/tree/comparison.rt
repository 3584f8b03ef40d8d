//! Whether trees are the same.
ghost use Rattle.std.specs.Prelude.{◌≡◌, ◌≢◌, ◌↔◌, ◌∷◌, map, IfOk, IsTrue, IsFalse, List};
ghost use Rattle.lalrpop_parser.specs.trees.ParseTrees.{tree_of};
ghost use Rattle.lalrpop_parser.specs.trees.TreeSteps.{Step, forest_of, step_of, steps_of};

use super::ParseTree;
use super::walk::{TreeStep, TreeWalk};
use lalrpop_base::exact::equal;
use lalrpop_base::memory::OutOfMemory;
use std::alloc::Global;

/// Whether two trees are the same.
pub(super) fn are_equal(tree: &ParseTree, other: &ParseTree) -> bool
    ensures { IsTrue result ↔ (tree_of tree.now ≡ tree_of other.now) }
{
    match (tree, other) {
        (ParseTree::Nonterminal(a, children), ParseTree::Nonterminal(b, others)) => {
            equal(a, b) && have_equal(a.text.allocator(), children, others)
        }
        (ParseTree::Terminal(t), ParseTree::Terminal(u)) => equal(t, u),
        (ParseTree::Nonterminal(_, _), ParseTree::Terminal(_)) => false,
        (ParseTree::Terminal(_), ParseTree::Nonterminal(_, _)) => false,
    }
}

// Whether two lists of trees are the same. If an allocation for the walks fails, they are compared
// by recursion.
fn have_equal(alloc: Global, trees: &Vec<ParseTree>, others: &Vec<ParseTree>) -> bool
    ensures { IsTrue result ↔ (map tree_of trees.now.items ≡ map tree_of others.now.items) }
{
    match have_same_steps(alloc, trees, others) {
        Ok(same) => same,
        Err(_) => have_equal_by_depth(trees, others),
    }
}

// Whether walks over two lists of trees make the same steps.
fn have_same_steps(
    alloc: Global,
    trees: &Vec<ParseTree>,
    others: &Vec<ParseTree>,
) -> Result<bool, OutOfMemory>
    ensures { IfOk result (λ same. IsTrue same ↔ (map tree_of trees.now.items ≡ map tree_of others.now.items)) }
{
    let mut walk = TreeWalk::new(alloc, trees);
    let mut other = TreeWalk::new(alloc, others);
    'steps: while let Some(step) = walk.next()? {
        if !makes(&mut other, &step)? {
            return Ok(false);
        }
    }
    Ok(other.next()?.is_none())
}

// Makes the next step of a walk. The result is whether it is the given one.
fn makes(walk: &mut TreeWalk<'_>, step: &TreeStep<'_>) -> Result<bool, OutOfMemory>
    ensures same { IfOk result
        (λ made. IsTrue made → steps_of walk.old ≡ step_of step.now ∷ steps_of walk.new) }
    ensures other { (steps : List Step) → IfOk result
        (λ made. IsFalse made → steps_of walk.old ≢ step_of step.now ∷ steps) }
{
    match walk.next()? {
        Some(next) => Ok(are_same(&next, step)),
        None => Ok(false),
    }
}

// Whether two steps are the same.
fn are_same(step: &TreeStep<'_>, other: &TreeStep<'_>) -> bool
    ensures { IsTrue result ↔ (step_of step.now ≡ step_of other.now) }
{
    match (step, other) {
        (TreeStep::Enter(a), TreeStep::Enter(b)) => equal(*a, *b),
        (TreeStep::Meet(t), TreeStep::Meet(u)) => equal(*t, *u),
        (TreeStep::Leave, TreeStep::Leave) => true,
        (TreeStep::Enter(_), TreeStep::Meet(_) | TreeStep::Leave) => false,
        (TreeStep::Meet(_), TreeStep::Enter(_) | TreeStep::Leave) => false,
        (TreeStep::Leave, TreeStep::Enter(_) | TreeStep::Meet(_)) => false,
    }
}

// Whether two trees are the same, by recursion.
#[cycle(equal)]
fn are_equal_by_depth(tree: &ParseTree, other: &ParseTree) -> bool
    ensures { IsTrue result ↔ (tree_of tree.now ≡ tree_of other.now) }
{
    match (tree, other) {
        (ParseTree::Nonterminal(a, children), ParseTree::Nonterminal(b, others)) => {
            equal(a, b) && have_equal_by_depth(children, others)
        }
        (ParseTree::Terminal(t), ParseTree::Terminal(u)) => equal(t, u),
        (ParseTree::Nonterminal(_, _), ParseTree::Terminal(_)) => false,
        (ParseTree::Terminal(_), ParseTree::Nonterminal(_, _)) => false,
    }
}

// Whether two lists of trees are the same, by recursion.
#[cycle(equal)]
fn have_equal_by_depth(trees: &Vec<ParseTree>, others: &Vec<ParseTree>) -> bool
    ensures { IsTrue result ↔ (map tree_of trees.now.items ≡ map tree_of others.now.items) }
{
    if trees.len() != others.len() {
        return false;
    }
    'trees: for (place, tree) in trees.iter().enumerate() {
        if !are_equal_by_depth(tree, &others[place]) {
            return false;
        }
    }
    true
}
