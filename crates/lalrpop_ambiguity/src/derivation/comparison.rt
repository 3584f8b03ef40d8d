//! Whether trees are the same.
ghost use Rattle.std.specs.Prelude.{◌≡◌, ◌≢◌, ◌↔◌, ◌∷◌, map, IfOk, IsTrue, IsFalse, List};
ghost use Rattle.lalrpop_ambiguity.specs.derivations.Represented.{tree_of};
ghost use Rattle.lalrpop_ambiguity.specs.derivations.DerivationSteps.{Step, forest_of, step_of, steps_of};

use super::Derivation;
use super::walk::{DerivationStep, DerivationWalk};
use lalrpop_base::exact::equal;
use lalrpop_base::memory::OutOfMemory;
use std::alloc::Global;

/// Whether two trees are the same.
pub(crate) fn are_equal(tree: &Derivation<'_>, other: &Derivation<'_>) -> bool
    ensures { IsTrue result ↔ (tree_of tree.now ≡ tree_of other.now) }
{
    match (tree, other) {
        (Derivation::Node(p, children), Derivation::Node(q, others)) => {
            equal(*p, *q) && have_equal(p.nonterminal.text.allocator(), children, others)
        }
        (Derivation::Leaf(x), Derivation::Leaf(y)) => equal(x, y),
        (Derivation::Node(_, _), Derivation::Leaf(_)) => false,
        (Derivation::Leaf(_), Derivation::Node(_, _)) => false,
    }
}

// Whether two lists of trees are the same. If an allocation for the walks fails, they are compared
// by recursion.
fn have_equal(alloc: Global, trees: &Vec<Derivation<'_>>, others: &Vec<Derivation<'_>>) -> bool
    ensures { IsTrue result ↔ (map tree_of trees.now.items ≡ map tree_of others.now.items) }
{
    match have_same_steps(alloc, trees, others) {
        Ok(same) => same,
        Err(_) => have_equal_by_depth(trees, others),
    }
}

// Whether walks over two lists of trees make the same steps.
fn have_same_steps(
    alloc: Global,
    trees: &Vec<Derivation<'_>>,
    others: &Vec<Derivation<'_>>,
) -> Result<bool, OutOfMemory>
    ensures { IfOk result (λ same. IsTrue same ↔ (map tree_of trees.now.items ≡ map tree_of others.now.items)) }
{
    let mut walk = DerivationWalk::new(alloc, trees);
    let mut other = DerivationWalk::new(alloc, others);
    'steps: while let Some(step) = walk.next()? {
        if !makes(&mut other, &step)? {
            return Ok(false);
        }
    }
    Ok(other.next()?.is_none())
}

// Makes the next step of a walk. The result is whether it is the given one.
fn makes(
    walk: &mut DerivationWalk<'_, '_>,
    step: &DerivationStep<'_, '_>,
) -> Result<bool, OutOfMemory>
    ensures same { IfOk result
        (λ made. IsTrue made → steps_of walk.old ≡ step_of step.now ∷ steps_of walk.new) }
    ensures other { (steps : List Step) → IfOk result
        (λ made. IsFalse made → steps_of walk.old ≢ step_of step.now ∷ steps) }
{
    match walk.next()? {
        Some(next) => Ok(are_same(&next, step)),
        None => Ok(false),
    }
}

// Whether two steps are the same.
fn are_same(step: &DerivationStep<'_, '_>, other: &DerivationStep<'_, '_>) -> bool
    ensures { IsTrue result ↔ (step_of step.now ≡ step_of other.now) }
{
    match (step, other) {
        (DerivationStep::Enter(p), DerivationStep::Enter(q)) => equal(*p, *q),
        (DerivationStep::Meet(x), DerivationStep::Meet(y)) => equal(*x, *y),
        (DerivationStep::Leave, DerivationStep::Leave) => true,
        (DerivationStep::Enter(_), DerivationStep::Meet(_) | DerivationStep::Leave) => false,
        (DerivationStep::Meet(_), DerivationStep::Enter(_) | DerivationStep::Leave) => false,
        (DerivationStep::Leave, DerivationStep::Enter(_) | DerivationStep::Meet(_)) => false,
    }
}

// Whether two trees are the same, by recursion.
#[cycle(equal)]
fn are_equal_by_depth(tree: &Derivation<'_>, other: &Derivation<'_>) -> bool
    ensures { IsTrue result ↔ (tree_of tree.now ≡ tree_of other.now) }
{
    match (tree, other) {
        (Derivation::Node(p, children), Derivation::Node(q, others)) => {
            equal(*p, *q) && have_equal_by_depth(children, others)
        }
        (Derivation::Leaf(x), Derivation::Leaf(y)) => equal(x, y),
        (Derivation::Node(_, _), Derivation::Leaf(_)) => false,
        (Derivation::Leaf(_), Derivation::Node(_, _)) => false,
    }
}

// Whether two lists of trees are the same, by recursion.
#[cycle(equal)]
fn have_equal_by_depth(trees: &Vec<Derivation<'_>>, others: &Vec<Derivation<'_>>) -> bool
    ensures { IsTrue result ↔ (map tree_of trees.now.items ≡ map tree_of others.now.items) }
{
    if trees.len() != others.len() {
        return false;
    }
    'trees: for (place, tree) in trees.iter().enumerate() {
        if !are_equal_by_depth(tree, &others[place]) {
            return false;
        }
    }
    true
}
