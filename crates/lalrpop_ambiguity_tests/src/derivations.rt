// A derivation of many nodes, each the first child of the one around it, which no function walks by
// recursion.
ghost use Rattle.lalrpop_base.specs.Words.{IsWellFormed};

use lalrpop_ambiguity::derivation::Derivation;
use lalrpop_ambiguity::witness::{Ambiguity, is_witness};
use lalrpop_base::memory::OutOfMemory;
use lalrpop_base::repr::Production;
use lalrpop_base::repr::grammar::Grammar;
use std::alloc::Global;
use std::test::Fail;
use test_fixtures::texts::first_production;

const DEPTH: usize = 100_000;

// A derivation whose symbols at the leaves are those of the production.
fn bare<'g>(alloc: Global, production: &'g Production) -> Result<Derivation<'g>, OutOfMemory> {
    let mut children = Vec::new(alloc);
    for symbol in production.symbols.as_slice() {
        children.push(Derivation::Leaf(symbol.clone(alloc)?))?;
    }
    Ok(Derivation::Node(production, children))
}

fn deep<'g>(alloc: Global, sum: &'g Production) -> Result<Derivation<'g>, OutOfMemory> {
    let mut tree = bare(alloc, sum)?;
    for _ in 0..DEPTH {
        let mut outer = bare(alloc, sum)?;
        if let Derivation::Node(_, children) = &mut outer
            && let Some(first) = children.get_mut(0)
        {
            *first = tree;
        }
        tree = outer;
    }
    Ok(tree)
}

/// Whether two deep derivations are the same, and no witness, and have the right leaves, texts and
/// marks.
pub(crate) fn deep_pair(alloc: Global, grammar: &Grammar) -> Result<String, Fail>
    requires { IsWellFormed grammar.now }
{
    let left = deep(alloc, first_production(alloc, grammar, "E")?)?;
    let right = left.clone(alloc)?;
    let found = Ambiguity { left, right };
    let is_so = is_deep(alloc, grammar, &found)?;
    Ok(format!(in alloc; "{is_so}")?)
}

// Whether it is so for two derivations.
fn is_deep(alloc: Global, grammar: &Grammar, found: &Ambiguity<'_>) -> Result<bool, Fail>
    requires { IsWellFormed grammar.now }
{
    let is_twice = found.right == found.left;
    if !is_twice || is_witness(alloc, grammar, &found.left, &found.right)? {
        return Ok(false);
    }
    if found.clone(alloc)? != *found {
        return Ok(false);
    }
    Ok(has_texts(alloc, found)? && has_marks(alloc, found)?)
}

// Whether a deep derivation has so many leaves, and its text for debugging has the right end.
fn has_texts(alloc: Global, found: &Ambiguity<'_>) -> Result<bool, Fail> {
    let count = found.left.leaves(alloc)?.len();
    let text = format!(in alloc; "{found:?}")?;
    Ok(count == 2 * DEPTH + 3 && text.as_str().ends_with("\"+\" E] }"))
}

// Whether all moves of two derivations are in common, and the mark of the first is at its end.
fn has_marks(alloc: Global, found: &Ambiguity<'_>) -> Result<bool, Fail> {
    let moves = found.common_moves(alloc)?;
    let marked = found.left.marked_text(alloc, moves)?;
    Ok(moves == 3 * DEPTH + 4 && marked.as_str().ends_with("\"+\" E] (*)"))
}
