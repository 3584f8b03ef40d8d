//! The root of a tree: its name and its children.
ghost use Rattle.std.specs.Prelude.{◌≡◌, ◌++◌, OnOk, string_bytes};
ghost use Rattle.lalrpop_base.specs.Words.{root, symbol_text};
ghost use Rattle.lalrpop_parser.specs.trees.ParseTrees.{tree_of};
ghost use Rattle.lalrpop_parser.specs.trees.TreeSteps.{forest_of};
ghost use Rattle.parse_pictures.specs.TreeNodes.{trees_under};

use lalrpop_collections::memory::OutOfMemory;
use lalrpop_parser::interpret::ParseTree;

/// The trees under the root of a tree. A leaf has none.
pub(crate) fn children(tree: &ParseTree) -> &[ParseTree]
    ensures { forest_of result.now ≡ trees_under (tree_of tree.now) }
{
    match tree {
        ParseTree::Nonterminal(_, children) => children.as_slice(),
        ParseTree::Terminal(_) => &[],
    }
}

/// Appends the name of the root of a tree. A literal is in quotes.
pub(crate) fn push_name(text: &mut String, tree: &ParseTree) -> Result<(), OutOfMemory>
    ensures { OnOk result (string_bytes text.new ≡ string_bytes text.old ++ symbol_text
        (root (tree_of tree.now))) }
{
    match tree {
        ParseTree::Nonterminal(name, _) => write!(text, "{name}")?,
        ParseTree::Terminal(terminal) => write!(text, "{terminal}")?,
    }
    Ok(())
}
