//! A parse tree as lines.
ghost use Rattle.std.specs.Prelude.{◌≡◌, ◌<◌, ◌∷◌, ◌++◌, IfOk, OnOk, string_bytes};
ghost use Rattle.lalrpop_base.specs.Words.{Node, beside, no_trees};
ghost use Rattle.lalrpop_grammar.specs.declared.repr.NonterminalString.{NonterminalString};
ghost use Rattle.lalrpop_parser.specs.trees.ParseTrees.{tree_of};
ghost use Rattle.lalrpop_parser.specs.trees.TreeSteps.{forest_of};
ghost use Rattle.parse_pictures.specs.TreeLines.{empty_mark, indentation, lines_left, root_line, rows_of, tree_lines};
ghost use Rattle.parse_pictures.specs.TreeNodes.{turns_left};

use super::nodes::{children, push_name};
use lalrpop_collections::memory::OutOfMemory;
use lalrpop_parser::interpret::ParseTree;
use std::alloc::Global;
use std::slice;

/// A parse tree as lines, one for each node. The line of a child is indented by two spaces more
/// than that of its parent. A nonterminal without children has ` =` after its name. `OutOfMemory`
/// if an allocation fails.
pub fn tree_text(alloc: Global, tree: &ParseTree) -> Result<String, OutOfMemory>
    ensures { IfOk result
        (λ text. string_bytes text ≡ tree_lines 0 (beside (tree_of tree.now) no_trees)) }
{
    let mut text = String::new(alloc);
    let mut stack = Vec::new(alloc);
    stack.push(slice::from_ref(tree))?;
    while let Some(here) = stack.pop() {
        push_first(&mut text, &mut stack, here)?;
    }
    Ok(text)
}

// Appends the line of the first of the trees that were on top of a stack. The other trees and the
// children of the first one go on the stack.
fn push_first<'tree>(
    text: &mut String,
    stack: &mut Vec<&'tree [ParseTree]>,
    here: &'tree [ParseTree],
) -> Result<(), OutOfMemory>
    ensures lines { OnOk result (string_bytes text.new ++ lines_left (rows_of stack.new.items)
        ≡ string_bytes text.old ++ lines_left (forest_of here.now ∷ rows_of stack.old.items)) }
    ensures fewer { OnOk result (turns_left (rows_of stack.new.items)
        < turns_left (forest_of here.now ∷ rows_of stack.old.items)) }
{
    let Some((tree, rest)) = here.split_first() else {
        return Ok(());
    };
    push_line(text, stack.len(), tree)?;
    stack.push(rest)?;
    stack.push(children(tree))?;
    Ok(())
}

// Appends the line of the root of a tree.
fn push_line(text: &mut String, depth: usize, tree: &ParseTree) -> Result<(), OutOfMemory>
    ensures { OnOk result (string_bytes text.new ≡ string_bytes text.old ++ root_line depth
        (tree_of tree.now)) }
{
    push_indentation(text, depth)?;
    push_name(text, tree)?;
    text.push_str(mark(tree))?;
    text.push_str("\n")?;
    Ok(())
}

// What is after the name of the root of a tree.
fn mark(tree: &ParseTree) -> &'static str
    ensures { result.now ≡ empty_mark (tree_of tree.now) }
{
    match tree {
        ParseTree::Nonterminal(_, children) => node_mark(children.as_slice()),
        ParseTree::Terminal(_) => "",
    }
}

// What is after the name of a nonterminal with these children.
fn node_mark(children: &[ParseTree]) -> &'static str
    ensures { (name : NonterminalString) →
        result.now ≡ empty_mark (Node name (forest_of children.now)) }
{
    if children.is_empty() { " =" } else { "" }
}

// Appends two spaces for each level.
fn push_indentation(text: &mut String, depth: usize) -> Result<(), OutOfMemory>
    ensures { OnOk result (string_bytes text.new ≡ string_bytes text.old ++ indentation depth) }
{
    let mut left = depth;
    while left > 0 {
        text.push_str("  ")?;
        left -= 1;
    }
    Ok(())
}
