// Deep parse trees.
use grammar_text::symbols::name_of;
use lalrpop_lr1::interpret::ParseTree;
use std::alloc::Global;
use std::process::Abort;
use std::test::Fail;
use test_fixtures::texts::literal;

// A tree of `count` nonterminals, one below the other, over a terminal.
fn chain(alloc: Global, count: usize, leaf: &str) -> Result<ParseTree, Fail> {
    let mut tree = ParseTree::Terminal(literal(alloc, leaf)?);
    for _ in 0..count {
        tree = ParseTree::Nonterminal(name_of(alloc, "A")?, vec![in alloc; tree]?);
    }
    Ok(tree)
}

// Tries the calls of a deep tree, beside one with another leaf.
fn expect_deep(
    rt: &impl Abort,
    alloc: Global,
    tree: &ParseTree,
    other: &ParseTree,
) -> Result<(), Fail> {
    assert!(rt; *tree == tree.clone(alloc)?);
    assert!(rt; tree != other);
    assert_eq!(rt; tree.terminals(alloc)?.len(), 1);
    let text = format!(in alloc; "{tree:?}")?;
    assert_eq!(rt; text.as_str().len(), 500_003);
    Ok(())
}

// Copying, comparing and printing a tree do not recurse, so the tree can be this deep.
#[test]
fn deep_trees(rt: HostRuntime) -> Result<(), Fail> {
    let alloc = rt.alloc();
    let tree = chain(alloc, 100_000, "x")?;
    let other = chain(alloc, 100_000, "y")?;
    expect_deep(&rt, alloc, &tree, &other)
}
