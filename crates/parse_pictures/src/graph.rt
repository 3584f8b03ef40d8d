//! A parse tree as a graph, for Graphviz.
ghost use Rattle.std.specs.Prelude.{◌≡◌, ◌<◌, ◌≤◌, ◌∷◌, ◌++◌, IfOk, OnOk, length, string_bytes, suc};
ghost use Rattle.lalrpop_parser.specs.trees.ParseTrees.{tree_of};
ghost use Rattle.lalrpop_parser.specs.trees.TreeSteps.{forest_of};
ghost use Rattle.parse_pictures.specs.TreeGraphs.{edge_statement, node_shape, node_statement, parented_rows, row_of, statements_left, statements_under, tree_statements, trees_in};
ghost use Rattle.parse_pictures.specs.TreeNodes.{turns_left};

use super::escape::push_quoted;
use super::nodes::{children, push_name};
use lalrpop_collections::memory::OutOfMemory;
use lalrpop_parser::interpret::ParseTree;
use std::alloc::Global;

// The beginning of a graph.
const OPENING: &str = "digraph tree {\n  node [shape=box fontname=monospace];\n";

// Trees beside one another that are left, and the number of their parent.
#[derive(Drop)]
pub(crate) struct Row<'tree> {
    trees: &'tree [ParseTree],
    parent: usize,
}

/// A parse tree as a graph. The nodes are numbered in preorder from 0. Edges from a parent go to
/// its children in their order. `OutOfMemory` if an allocation fails.
pub fn tree_graph(alloc: Global, tree: &ParseTree) -> Result<String, OutOfMemory>
    ensures { IfOk result (λ text. string_bytes text ≡ tree_statements (tree_of tree.now)) }
{
    let mut text = String::new(alloc);
    text.push_str(OPENING)?;
    push_node(alloc, &mut text, 0, tree)?;
    push_under(alloc, &mut text, children(tree))?;
    text.push_str("}\n")?;
    Ok(text)
}

// Appends the nodes under the root of a tree, which has the number 0. The text has a byte already.
fn push_under(alloc: Global, text: &mut String, trees: &[ParseTree]) -> Result<(), OutOfMemory>
    requires { 0 < length (string_bytes text.old) }
    ensures { OnOk result (string_bytes text.new ≡ string_bytes text.old ++ statements_under 0 1
        (forest_of trees.now)) }
{
    let mut number = 1;
    let mut stack = Vec::new(alloc);
    stack.push(Row { trees, parent: 0 })?;
    while let Some(row) = stack.pop() {
        number = push_first(alloc, text, &mut stack, row, number)?;
    }
    Ok(())
}

// Appends the first of the trees of a row that was on top of a stack, by the given number. The
// other trees and the children of the first one go on the stack. The result is the next number,
// which is at most the length of the text.
fn push_first<'tree>(
    alloc: Global,
    text: &mut String,
    stack: &mut Vec<Row<'tree>>,
    row: Row<'tree>,
    number: usize,
) -> Result<usize, OutOfMemory>
    requires { number ≤ length (string_bytes text.old) }
    ensures statements { IfOk result (λ next. string_bytes text.new ++ statements_left next
        (parented_rows stack.new.items) ≡ string_bytes text.old ++ statements_left number
        (row_of row.entry ∷ parented_rows stack.old.items)) }
    ensures fewer { OnOk result (turns_left (trees_in (parented_rows stack.new.items))
        < turns_left (trees_in (row_of row.entry ∷ parented_rows stack.old.items))) }
    ensures within { IfOk result (λ next. next ≤ length (string_bytes text.new)) }
{
    let Some((tree, rest)) = row.trees.split_first() else {
        return Ok(number);
    };
    push_node(alloc, text, number, tree)?;
    push_edge(text, row.parent, number)?;
    stack.push(Row {
        trees: rest,
        parent: row.parent,
    })?;
    stack.push(Row {
        trees: children(tree),
        parent: number,
    })?;
    Ok(next_number(text.as_str(), number))
}

// The number after one that is less than the length of a text.
fn next_number(text: &str, number: usize) -> usize
    requires { number < length text.now }
    ensures { result ≡ suc number }
{
    let _fits = text.len();
    number + 1
}

// Appends the line of a node.
fn push_node(
    alloc: Global,
    text: &mut String,
    number: usize,
    tree: &ParseTree,
) -> Result<(), OutOfMemory>
    ensures { OnOk result (string_bytes text.new ≡ string_bytes text.old ++ node_statement number
        (tree_of tree.now)) }
{
    let mut name = String::new(alloc);
    push_name(&mut name, tree)?;
    write!(text, "  {number} [label=\"")?;
    push_quoted(text, name.as_str())?;
    text.push_str(shape(tree))?;
    Ok(())
}

// What is after the label of a node.
fn shape(tree: &ParseTree) -> &'static str
    ensures { result.now ≡ node_shape (tree_of tree.now) }
{
    match tree {
        ParseTree::Nonterminal(_, _) => "\"];\n",
        ParseTree::Terminal(_) => "\" shape=plaintext];\n",
    }
}

// Appends the line of an edge.
fn push_edge(text: &mut String, parent: usize, child: usize) -> Result<(), OutOfMemory>
    ensures { OnOk result (string_bytes text.new ≡ string_bytes text.old ++ edge_statement parent
        child) }
{
    write!(text, "  {parent} -> {child};\n")?;
    Ok(())
}
