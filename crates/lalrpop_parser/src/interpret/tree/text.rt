//! The text of trees.
ghost use Rattle.std.specs.Prelude.{◌≡◌, true, IfOk};
ghost use Rattle.std.specs.Fmt.{WritesOnOk};
ghost use Rattle.lalrpop_parser.specs.trees.ParseTrees.{tree_text, trees_text, separator_text};
ghost use Rattle.lalrpop_parser.specs.trees.TreeSteps.{GivesStep, forest_of, is_entering, step_of, step_text, steps_of};

use super::ParseTree;
use super::walk::{TreeStep, TreeWalk};
use std::alloc::Global;
use std::fmt;

/// Writes a tree. An allocation failure is an error of the formatter.
pub(super) fn show_tree<W: fmt::Write>(tree: &ParseTree, f: &mut fmt::Formatter<W>) -> fmt::Result
    ensures { WritesOnOk W.write_str_gives f.old result (tree_text tree.now) f.new }
{
    match tree {
        ParseTree::Nonterminal(name, children) => {
            write!(f, "[{name}: ")?;
            show_children(name.text.allocator(), children, f)?;
            f.write_str("]")
        }
        ParseTree::Terminal(terminal) => write!(f, "{terminal}"),
    }
}

// Writes the children of a node.
fn show_children<W: fmt::Write>(
    alloc: Global,
    children: &Vec<ParseTree>,
    f: &mut fmt::Formatter<W>,
) -> fmt::Result
    ensures { WritesOnOk W.write_str_gives f.old result
        (trees_text true (forest_of children.now.items)) f.new }
{
    let mut walk = TreeWalk::new(alloc, children);
    let mut is_first = true;
    'steps: while let Some(step) = next_step(&mut walk)? {
        show_step(is_first, &step, f)?;
        is_first = is_entering(&step);
    }
    Ok(())
}

// The next step of a walk. An allocation failure is an error of the formatter.
fn next_step<'tree>(walk: &mut TreeWalk<'tree>) -> Result<Option<TreeStep<'tree>>, fmt::Error>
    ensures { IfOk result (λ step. GivesStep step (steps_of walk.old) (steps_of walk.new)) }
{
    match walk.next() {
        Ok(step) => Ok(step),
        Err(_) => Err(fmt::Error),
    }
}

// Writes the text of a step.
fn show_step<W: fmt::Write>(
    is_first: bool,
    step: &TreeStep<'_>,
    f: &mut fmt::Formatter<W>,
) -> fmt::Result
    ensures { WritesOnOk W.write_str_gives f.old result (step_text is_first (step_of step.now))
        f.new }
{
    match step {
        TreeStep::Enter(name) => {
            f.write_str(separator(is_first))?;
            write!(f, "[{name}: ")
        }
        TreeStep::Meet(terminal) => {
            f.write_str(separator(is_first))?;
            write!(f, "{terminal}")
        }
        TreeStep::Leave => f.write_str("]"),
    }
}

// Whether a step enters a node.
fn is_entering(step: &TreeStep<'_>) -> bool
    ensures { result ≡ is_entering (step_of step.now) }
{
    matches!(step, TreeStep::Enter(_))
}

fn separator(is_first: bool) -> &'static str
    ensures { result.now ≡ separator_text is_first }
{
    if is_first { "" } else { ", " }
}
