//! The moves of a bottom-up parser that makes trees.
ghost use Rattle.std.specs.Prelude.{◌≡◌, ◌∷◌, map, IfOk, IsTrue, ◌↔◌, List, OnOk};
ghost use Rattle.lalrpop_ambiguity.specs.derivations.Represented.{tree_of};
ghost use Rattle.lalrpop_ambiguity.specs.derivations.DerivationSteps.{Step, leaves_node, step_of};
ghost use Rattle.lalrpop_ambiguity.specs.derivations.Moves.{HaveInCommon, move_of, moves_of, moves_with};

use super::Derivation;
use super::walk::{DerivationStep, DerivationWalk};
use lalrpop_base::exact::equal;
use lalrpop_base::memory::OutOfMemory;
use lalrpop_base::repr::{Production, Symbol};
use std::alloc::Global;
use std::slice;

/// A move of the parser.
#[derive(Drop)]
pub(super) enum DerivationMove<'tree, 'grammar> {
    /// Reads a symbol.
    Read(&'tree Symbol),
    /// Reduces by a production.
    Reduce(&'grammar Production),
}

/// The number of moves that two trees have in common before the first two that differ. The error is
/// `OutOfMemory` if an allocation fails.
pub(crate) fn common_moves(
    alloc: Global,
    tree: &Derivation<'_>,
    other: &Derivation<'_>,
) -> Result<usize, OutOfMemory>
    ensures { IfOk result (λ count.
        HaveInCommon count (moves_of (tree_of tree.now)) (moves_of (tree_of other.now))) }
{
    let moves = moves_of(alloc, tree)?;
    let others = moves_of(alloc, other)?;
    Ok(count_common(&moves, &others))
}

// The moves that make a tree.
fn moves_of<'tree, 'grammar>(
    alloc: Global,
    tree: &'tree Derivation<'grammar>,
) -> Result<Vec<DerivationMove<'tree, 'grammar>>, OutOfMemory>
    ensures { IfOk result (λ moves. map move_of moves.items ≡ moves_of (tree_of tree.now)) }
{
    let mut walk = DerivationWalk::new(alloc, slice::from_ref(tree));
    let mut around = Vec::new(alloc);
    let mut made = Vec::new(alloc);
    'steps: while let Some(step) = walk.next()? {
        add_move(&step, &mut around, &mut made)?;
    }
    Ok(made)
}

// Adds the move that a step is, if it is one. `around` has the productions of the nodes that the
// walk is in, the innermost last.
fn add_move<'tree, 'grammar>(
    step: &DerivationStep<'tree, 'grammar>,
    around: &mut Vec<&'grammar Production>,
    made: &mut Vec<DerivationMove<'tree, 'grammar>>,
) -> Result<(), OutOfMemory>
    ensures { (steps : List Step) →
        OnOk result (moves_with made.old.items around.old.items (step_of step.now ∷ steps)
        ≡ moves_with made.new.items around.new.items steps) }
{
    match step {
        DerivationStep::Enter(production) => around.push(*production)?,
        DerivationStep::Meet(symbol) => made.push(DerivationMove::Read(*symbol))?,
        DerivationStep::Leave => add_reduction(around, made)?,
    }
    Ok(())
}

// Adds the reduction of the innermost node, which the walk leaves.
fn add_reduction<'tree, 'grammar>(
    around: &mut Vec<&'grammar Production>,
    made: &mut Vec<DerivationMove<'tree, 'grammar>>,
) -> Result<(), OutOfMemory>
    ensures { (steps : List Step) →
        OnOk result (moves_with made.old.items around.old.items (leaves_node ∷ steps)
        ≡ moves_with made.new.items around.new.items steps) }
{
    if let Some(production) = around.pop() {
        made.push(DerivationMove::Reduce(production))?;
    }
    Ok(())
}

// The number of moves that two lists have in common at their beginning.
fn count_common(moves: &Vec<DerivationMove<'_, '_>>, others: &Vec<DerivationMove<'_, '_>>) -> usize
    ensures { HaveInCommon result (map move_of moves.now.items) (map move_of others.now.items) }
{
    for (place, one) in moves.iter().enumerate() {
        if place >= others.len() {
            return place;
        }
        if !are_same(one, &others[place]) {
            return place;
        }
    }
    moves.len()
}

// Whether two moves are the same.
fn are_same(one: &DerivationMove<'_, '_>, other: &DerivationMove<'_, '_>) -> bool
    ensures { IsTrue result ↔ (move_of one.now ≡ move_of other.now) }
{
    match (one, other) {
        (DerivationMove::Read(x), DerivationMove::Read(y)) => equal(*x, *y),
        (DerivationMove::Reduce(p), DerivationMove::Reduce(q)) => equal(*p, *q),
        (DerivationMove::Read(_), DerivationMove::Reduce(_)) => false,
        (DerivationMove::Reduce(_), DerivationMove::Read(_)) => false,
    }
}
