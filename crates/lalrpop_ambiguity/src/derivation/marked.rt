//! The text of trees with a mark between two moves of a bottom-up parser.
ghost use Rattle.std.specs.Prelude.{◌≡◌, Some, string_bytes, IfOk};
ghost use Rattle.std.specs.Fmt.{WritesOnOk};
ghost use Rattle.lalrpop_ambiguity.specs.derivations.Represented.{tree_of};
ghost use Rattle.lalrpop_ambiguity.specs.derivations.DerivationSteps.{step_of};
ghost use Rattle.lalrpop_ambiguity.specs.derivations.MarkedTexts.{is_first_after, is_marked, left_after, mark_if, marked_step_text, marked_text, one_fewer, shown_tree};

use super::Derivation;
use super::text::{is_entering, next_step, show_step};
use super::walk::{DerivationStep, DerivationWalk};
use lalrpop_base::memory::OutOfMemory;
use std::alloc::Global;
use std::{fmt, slice};

/// A tree whose text has a mark after so many moves.
#[derive(Drop)]
pub(super) struct MarkedTree<'tree, 'grammar> {
    alloc: Global,
    tree: &'tree Derivation<'grammar>,
    moves: usize,
}

/// The text of a tree with a mark after so many moves. The error is `OutOfMemory` if an allocation
/// fails.
pub(super) fn marked_text(
    alloc: Global,
    tree: &Derivation<'_>,
    moves: usize,
) -> Result<String, OutOfMemory>
    ensures { IfOk result (λ text. string_bytes text ≡ marked_text moves (tree_of tree.now)) }
{
    let marked = MarkedTree { alloc, tree, moves };
    let text = format!(in alloc; "{marked}")?;
    Ok(text)
}

impl<'tree, 'grammar> fmt::Display for MarkedTree<'tree, 'grammar> {
    ghost output = { λ marked. Some (shown_tree marked) };

    fn fmt<W: fmt::Write>(&self, f: &mut fmt::Formatter<W>) -> fmt::Result {
        show_marked(self.alloc, self.tree, self.moves, f)
    }
}

// Writes a tree with a mark after so many moves. An allocation failure is an error of the
// formatter.
fn show_marked<W: fmt::Write>(
    alloc: Global,
    tree: &Derivation<'_>,
    moves: usize,
    f: &mut fmt::Formatter<W>,
) -> fmt::Result
    ensures { WritesOnOk W.write_str_gives f.old result (marked_text moves (tree_of tree.now))
        f.new }
{
    let mut walk = DerivationWalk::new(alloc, slice::from_ref(tree));
    let mut left = Some(moves);
    let mut is_first = true;
    'steps: while let Some(step) = next_step(&mut walk)? {
        show_marked_step(is_marked(left, &step), is_first, &step, f)?;
        left = left_after(left, &step);
        is_first = is_entering(&step);
    }
    f.write_str(mark_if(left.is_some(), is_first))
}

// Writes a step, with the mark before it if that is here.
fn show_marked_step<W: fmt::Write>(
    is_here: bool,
    is_first: bool,
    step: &DerivationStep<'_, '_>,
    f: &mut fmt::Formatter<W>,
) -> fmt::Result
    ensures { WritesOnOk W.write_str_gives f.old result
        (marked_step_text is_here is_first (step_of step.now)) f.new }
{
    f.write_str(mark_if(is_here, is_first))?;
    show_step(is_first_after(is_here, is_first), step, f)
}

// The mark if it is here, else nothing.
fn mark_if(is_here: bool, is_first: bool) -> &'static str
    ensures { result.now ≡ mark_if is_here is_first }
{
    if !is_here {
        return "";
    }
    if is_first { "(*)" } else { " (*)" }
}

// Whether a tree is the first child of its node, after the mark if that is here.
fn is_first_after(is_here: bool, is_first: bool) -> bool
    ensures { result ≡ is_first_after is_here is_first }
{
    if is_here { false } else { is_first }
}

// Whether the mark is right before a step: no move is left before it, and the step is a move.
fn is_marked(left: Option<usize>, step: &DerivationStep<'_, '_>) -> bool
    ensures { result ≡ is_marked left (step_of step.now) }
{
    match left {
        Some(moves) => !is_entering(step) && moves == 0,
        None => false,
    }
}

// The moves that are left before the mark after a step. `None` after the mark.
fn left_after(left: Option<usize>, step: &DerivationStep<'_, '_>) -> Option<usize>
    ensures { result ≡ left_after left (step_of step.now) }
{
    match left {
        Some(moves) => {
            if is_entering(step) {
                Some(moves)
            } else {
                one_fewer(moves)
            }
        }
        None => None,
    }
}

// One move fewer, or `None` if there is none.
fn one_fewer(moves: usize) -> Option<usize>
    ensures { result ≡ one_fewer moves }
{
    if moves == 0 { None } else { Some(moves - 1) }
}
