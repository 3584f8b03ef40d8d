//! The text of trees.
ghost use Rattle.std.specs.Prelude.{◌≡◌, true, IfOk};
ghost use Rattle.std.specs.Fmt.{WritesOnOk};
ghost use Rattle.lalrpop_ambiguity.specs.derivations.Represented.{tree_text, trees_text, separator_text};
ghost use Rattle.lalrpop_ambiguity.specs.derivations.DerivationSteps.{GivesStep, forest_of, is_entering, step_of, step_text, steps_of};

use super::Derivation;
use super::walk::{DerivationStep, DerivationWalk};
use std::alloc::Global;
use std::fmt;

/// Writes a tree. An allocation failure is an error of the formatter.
pub(super) fn show_tree<W: fmt::Write>(
    tree: &Derivation<'_>,
    f: &mut fmt::Formatter<W>,
) -> fmt::Result
    ensures { WritesOnOk W.write_str_gives f.old result (tree_text tree.now) f.new }
{
    match tree {
        Derivation::Node(production, children) => {
            let name = &production.nonterminal;
            write!(f, "[{name}: ")?;
            show_children(name.text.allocator(), children, f)?;
            f.write_str("]")
        }
        Derivation::Leaf(symbol) => write!(f, "{symbol}"),
    }
}

// Writes the children of a node.
fn show_children<W: fmt::Write>(
    alloc: Global,
    children: &Vec<Derivation<'_>>,
    f: &mut fmt::Formatter<W>,
) -> fmt::Result
    ensures { WritesOnOk W.write_str_gives f.old result
        (trees_text true (forest_of children.now.items)) f.new }
{
    let mut walk = DerivationWalk::new(alloc, children);
    let mut is_first = true;
    'steps: while let Some(step) = next_step(&mut walk)? {
        show_step(is_first, &step, f)?;
        is_first = is_entering(&step);
    }
    Ok(())
}

/// The next step of a walk. An allocation failure is an error of the formatter.
pub(super) fn next_step<'tree, 'grammar>(
    walk: &mut DerivationWalk<'tree, 'grammar>,
) -> Result<Option<DerivationStep<'tree, 'grammar>>, fmt::Error>
    ensures { IfOk result (λ step. GivesStep step (steps_of walk.old) (steps_of walk.new)) }
{
    match walk.next() {
        Ok(step) => Ok(step),
        Err(_) => Err(fmt::Error),
    }
}

/// Writes the text of a step.
pub(super) fn show_step<W: fmt::Write>(
    is_first: bool,
    step: &DerivationStep<'_, '_>,
    f: &mut fmt::Formatter<W>,
) -> fmt::Result
    ensures { WritesOnOk W.write_str_gives f.old result (step_text is_first (step_of step.now))
        f.new }
{
    match step {
        DerivationStep::Enter(production) => {
            let name = &production.nonterminal;
            f.write_str(separator(is_first))?;
            write!(f, "[{name}: ")
        }
        DerivationStep::Meet(symbol) => {
            f.write_str(separator(is_first))?;
            write!(f, "{symbol}")
        }
        DerivationStep::Leave => f.write_str("]"),
    }
}

/// Whether a step enters a node.
pub(super) fn is_entering(step: &DerivationStep<'_, '_>) -> bool
    ensures { result ≡ is_entering (step_of step.now) }
{
    matches!(step, DerivationStep::Enter(_))
}

fn separator(is_first: bool) -> &'static str
    ensures { result.now ≡ separator_text is_first }
{
    if is_first { "" } else { " " }
}
