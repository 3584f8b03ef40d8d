// Parse trees as nodes in one list.

use super::asked::{Ask, Case, expect};
use super::tables::{line_of, nodes};
use parse_nodes::tree::ParseNodes;
use parse_tables::table::ParseTable;
use std::alloc::Global;
use std::test::Fail;
use test_fixtures::texts::SUMS;

// The nodes as a text, children before their parents: the bit of a terminal, or the line of a
// production, and then the size and the positions.
fn text_of(alloc: Global, table: &ParseTable, tree: &ParseNodes) -> Result<String, Fail> {
    let mut text = String::new(alloc);
    for number in 0..tree.all().len() {
        let Some(node) = tree.node(number) else {
            return Err(Fail::from("no node"));
        };
        if node.is_terminal() {
            write!(text, "t{}", node.label())?;
        } else {
            write!(text, "r{}", line_of(table, node.label()))?;
        }
        write!(text, ":{}:{}-{} ", node.size(), node.first(), node.end())?;
    }
    Ok(text)
}

// Adds the numbers of the children of a node to a text.
fn push_children(
    alloc: Global,
    tree: &ParseNodes,
    number: usize,
    text: &mut String,
) -> Result<(), Fail> {
    write!(text, "{number}: ")?;
    for child in &tree.children(alloc, number)? {
        write!(text, "{child} ")?;
    }
    Ok(())
}

/// The nodes of an input. Then the children of the root, of node 6 and of the first node, and those
/// of node 8, which no input here has.
pub fn parsed(alloc: Global, table: &ParseTable, bits: &[u32]) -> Result<String, Fail> {
    let Ok(tree) = nodes(alloc, table, 1_000, bits) else {
        return Err(Fail::from("no tree"));
    };
    let mut text = text_of(alloc, table, &tree)?;
    for number in [tree.root().unwrap_or(0), 6, 0, 8] {
        push_children(alloc, &tree, number, &mut text)?;
    }
    if tree.node(8).is_none() {
        write!(text, "none")?;
    }
    Ok(text)
}

// Of sums, the bits 0 to 3 are those of `(`, `)`, `-` and `N`. The lines are S = E, E = E - T,
// E = T, T = N and T = ( E ). So N - N has the nodes N, T, E, -, N, T, E and S, from 0. A node
// without children has no position.
const TREES: [Case; 3] = [
    (
        SUMS,
        &[3],
        "t3:1:0-1 r3:2:0-1 r2:3:0-1 r0:4:0-1 3: 2 6: 0: 8: none",
    ),
    (
        SUMS,
        &[3, 2, 3],
        "t3:1:0-1 r3:2:0-1 r2:3:0-1 t2:1:1-2 t3:1:2-3 r3:2:2-3 r1:7:0-3 r0:8:0-3 7: 6 6: 2 3 5 0: 8: none",
    ),
    (
        "S = \"x\" A \"y\"\nA =",
        &[0, 1],
        "t0:1:0-1 r1:1:1-1 t1:1:1-2 r0:4:0-2 3: 0 1 2 6: 0: 8: none",
    ),
];

#[test]
fn nodes_have_labels_positions_and_children(rt: HostRuntime) -> Result<(), Fail> {
    expect(rt.alloc(), Ask::Parsed, &TREES)
}
