// Copies of a tree and of an example, while allocations are refused. The cases copy such values only
// after larger ones were made and dropped.
use grammar_text::symbols::name_of;
use lalrpop_base::repr::Symbol;
use lalrpop_lr1::interpret::ParseTree;
use lalrpop_lr1::trace::{Example, ExampleSymbol, Reduction};
use refused_growth::attempts::Attempt;
use std::alloc::Global;
use std::test::Fail;
use test_fixtures::growths::each_growth_refused;
use test_fixtures::texts::literal;

// A tree and an example.
#[derive(Drop)]
struct Copied<'a> {
    tree: &'a ParseTree,
    example: &'a Example,
}

impl Attempt for Copied<'_> {
    fn attempt(&mut self, alloc: Global) -> Option<bool> {
        let Ok(tree) = self.tree.clone(alloc) else {
            return None;
        };
        match self.example.clone(alloc) {
            Ok(example) => Some(tree == *self.tree && example == *self.example),
            Err(_) => None,
        }
    }
}

// The tree of a nonterminal and one leaf.
fn small_tree(alloc: Global) -> Result<ParseTree, Fail> {
    let leaf = ParseTree::Terminal(literal(alloc, "x")?);
    let leaves = vec![in alloc; leaf]?;
    Ok(ParseTree::Nonterminal(name_of(alloc, "A")?, leaves))
}

// An example of "x" and an empty right side, with one reduction.
fn small_example(alloc: Global) -> Result<Example, Fail> {
    let first = ExampleSymbol::Symbol(Symbol::Terminal(literal(alloc, "x")?));
    let symbols = vec![in alloc; first, ExampleSymbol::Epsilon]?;
    let reduction = Reduction {
        start: 0,
        end: 1,
        nonterminal: name_of(alloc, "A")?,
    };
    let reductions = vec![in alloc; reduction]?;
    Ok(Example {
        symbols,
        cursor: 1,
        reductions,
    })
}

#[test]
fn copies(rt: HostRuntime) -> Result<(), Fail> {
    let alloc = rt.alloc();
    let tree = small_tree(alloc)?;
    let example = small_example(alloc)?;
    let mut copied = Copied {
        tree: &tree,
        example: &example,
    };
    each_growth_refused(alloc, &mut copied)
}
