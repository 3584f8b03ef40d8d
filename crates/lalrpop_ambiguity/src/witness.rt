//! Witnesses of ambiguity, and their check.
ghost use Rattle.std.specs.Prelude.{◌≡◌, ◌↔◌, ◌<◌, ◌∷◌, [], ◌++◌, map, IsTrue, IsFalse, IfOk, OnOk, Contains};
ghost use Rattle.lalrpop_grammar.specs.grammars.WellFormed.{IsWellFormed, productions};
ghost use Rattle.lalrpop_grammar.specs.declared.repr.Symbol.TheVariants.{Nonterminal};
ghost use Rattle.lalrpop_ambiguity.specs.derivations.Derivations.{AreOfGrammar, beside, leaves, no_trees, nodes, root, trees_of};
ghost use Rattle.lalrpop_ambiguity.specs.derivations.Moves.{HaveInCommon, moves_of};
ghost use Rattle.lalrpop_ambiguity.specs.derivations.Represented.{roots_of, symbols_at, tree_of, trees_at};
ghost use Rattle.lalrpop_ambiguity.specs.witnesses.Witnesses.{HaveOneRoot, IsExpansion, IsWitness};

use crate::derivation::{Derivation, are_equal, common_moves, push_children};
use lalrpop_base::exact::{contains, equal};
use lalrpop_base::memory::OutOfMemory;
use lalrpop_base::repr::grammar::Grammar;
use lalrpop_base::repr::{NonterminalString, Production, Symbol};
use std::alloc::Global;

/// Two derivations. They are a witness of ambiguity if `is_witness` returns `true` for them.
#[derive(Debug, Drop, PartialEq, Eq)]
pub struct Ambiguity<'grammar> {
    pub left: Derivation<'grammar>,
    pub right: Derivation<'grammar>,
}

impl<'grammar> Ambiguity<'grammar> {
    /// A copy of both derivations. The error is `OutOfMemory` if an allocation fails.
    pub fn clone(&self, alloc: Global) -> Result<Ambiguity<'grammar>, OutOfMemory>
        ensures left { IfOk result (λ copy. tree_of copy.left ≡ tree_of self.now.left) }
        ensures right { IfOk result (λ copy. tree_of copy.right ≡ tree_of self.now.right) }
    {
        Ok(Ambiguity {
            left: self.left.clone(alloc)?,
            right: self.right.clone(alloc)?,
        })
    }

    /// The number of moves that a bottom-up parser makes for both derivations, before the first move
    /// that differs. A move reads a leaf, or reduces by the production of a node. The error is
    /// `OutOfMemory` if an allocation fails.
    pub fn common_moves(&self, alloc: Global) -> Result<usize, OutOfMemory>
        ensures common { IfOk result (λ count.
            HaveInCommon count (moves_of (tree_of self.now.left)) (moves_of (tree_of self.now.right))) }
    {
        common_moves(alloc, &self.left, &self.right)
    }
}

/// Whether two derivations are a witness of ambiguity: they differ, productions of the grammar give
/// their nodes, and they have the same nonterminal at the root and the same symbols at the leaves.
/// The error is `OutOfMemory` if an allocation fails.
pub fn is_witness(
    alloc: Global,
    grammar: &Grammar,
    left: &Derivation<'_>,
    right: &Derivation<'_>,
) -> Result<bool, OutOfMemory>
    requires { IsWellFormed grammar.now }
    ensures witness { IfOk result (λ is. IsTrue is
        ↔ IsWitness (productions grammar.now) (tree_of left.now) (tree_of right.now)) }
{
    if !have_one_root(left, right) {
        return Ok(false);
    }
    if are_equal(left, right) {
        return Ok(false);
    }
    if !is_of_grammar(alloc, grammar, left)? {
        return Ok(false);
    }
    if !is_of_grammar(alloc, grammar, right)? {
        return Ok(false);
    }
    Ok(have_same_leaves(alloc, left, right)?)
}

// ---- the roots
// Whether two derivations have the same nonterminal at the root.
fn have_one_root(left: &Derivation<'_>, right: &Derivation<'_>) -> bool
    ensures { IsTrue result ↔ HaveOneRoot (tree_of left.now) (tree_of right.now) }
{
    match left {
        Derivation::Node(production, _) => has_root(right, &production.nonterminal),
        Derivation::Leaf(Symbol::Nonterminal(name)) => has_root(right, name),
        Derivation::Leaf(Symbol::Terminal(_)) => false,
    }
}

// Whether a nonterminal is at the root.
fn has_root(tree: &Derivation<'_>, name: &NonterminalString) -> bool
    ensures { IsTrue result ↔ (root (tree_of tree.now) ≡ Nonterminal name.now) }
{
    match tree {
        Derivation::Node(production, _) => equal(&production.nonterminal, name),
        Derivation::Leaf(Symbol::Nonterminal(other)) => equal(other, name),
        Derivation::Leaf(Symbol::Terminal(_)) => false,
    }
}

// Whether a symbol is at the root.
fn is_root(tree: &Derivation<'_>, symbol: &Symbol) -> bool
    ensures { IsTrue result ↔ (symbol.now ≡ root (tree_of tree.now)) }
{
    match tree {
        Derivation::Node(production, _) => is_name(symbol, &production.nonterminal),
        Derivation::Leaf(leaf) => equal(symbol, leaf),
    }
}

// Whether a symbol is a nonterminal.
fn is_name(symbol: &Symbol, name: &NonterminalString) -> bool
    ensures { IsTrue result ↔ (symbol.now ≡ Nonterminal name.now) }
{
    match symbol {
        Symbol::Nonterminal(other) => equal(other, name),
        Symbol::Terminal(_) => false,
    }
}

// Whether symbols are at the roots of trees, in their order.
fn are_roots(symbols: &[Symbol], trees: &Vec<Derivation<'_>>) -> bool
    ensures { IsTrue result ↔ (symbols.now ≡ roots_of trees.now.items) }
{
    if symbols.len() != trees.len() {
        return false;
    }
    for (place, tree) in trees.iter().enumerate() {
        if !is_root(tree, &symbols[place]) {
            return false;
        }
    }
    true
}

// ---- the nodes
// Whether productions of the grammar give the nodes of a derivation.
fn is_of_grammar(
    alloc: Global,
    grammar: &Grammar,
    tree: &Derivation<'_>,
) -> Result<bool, OutOfMemory>
    requires { IsWellFormed grammar.now }
    ensures { IfOk result (λ own. IsTrue own
        ↔ AreOfGrammar (productions grammar.now) (beside (tree_of tree.now) no_trees)) }
{
    let mut left = Vec::new(alloc);
    left.push(tree)?;
    while let Some(next) = left.pop() {
        if !visit(grammar, next, &mut left)? {
            return Ok(false);
        }
    }
    Ok(true)
}

// Whether a production of the grammar gives the root of a tree that was popped from a stack. If one
// does, its children go to the stack.
fn visit<'tree, 'grammar>(
    grammar: &Grammar,
    tree: &'tree Derivation<'grammar>,
    left: &mut Vec<&'tree Derivation<'grammar>>,
) -> Result<bool, OutOfMemory>
    requires { IsWellFormed grammar.now }
    ensures own { IfOk result (λ own. IsTrue own →
        (AreOfGrammar (productions grammar.now) (trees_of (trees_at left.new.items))
        ↔ AreOfGrammar (productions grammar.now)
        (trees_of (trees_at left.old.items ++ tree_of tree.now ∷ [])))) }
    ensures other { IfOk result (λ own. IsFalse own →
        AreOfGrammar (productions grammar.now) (beside (tree_of tree.now) no_trees) → ⊥) }
    ensures fewer { IfOk result (λ own. IsTrue own →
        nodes (trees_of (trees_at left.new.items))
        < nodes (trees_of (trees_at left.old.items ++ tree_of tree.now ∷ []))) }
{
    match tree {
        Derivation::Node(production, children) => {
            if !is_expansion(grammar, *production, children) {
                return Ok(false);
            }
            push_children(children, left)?;
            Ok(true)
        }
        Derivation::Leaf(_) => Ok(true),
    }
}

// Whether a production is one of the grammar's, with its symbols at the roots of trees.
fn is_expansion(grammar: &Grammar, production: &Production, trees: &Vec<Derivation<'_>>) -> bool
    requires { IsWellFormed grammar.now }
    ensures { IsTrue result
        ↔ IsExpansion (productions grammar.now) production.now (roots_of trees.now.items) }
{
    if !is_own(grammar, production) {
        return false;
    }
    are_roots(production.symbols.as_slice(), trees)
}

// Whether a production is one of the grammar's.
fn is_own(grammar: &Grammar, production: &Production) -> bool
    requires { IsWellFormed grammar.now }
    ensures { IsTrue result ↔ Contains (productions grammar.now) production.now }
{
    let _names = grammar.nonterminals.len();
    contains(grammar.productions_for(&production.nonterminal), production)
}

// ---- the leaves
// Whether two derivations have the same symbols at the leaves.
fn have_same_leaves(
    alloc: Global,
    left: &Derivation<'_>,
    right: &Derivation<'_>,
) -> Result<bool, OutOfMemory>
    ensures { IfOk result (λ same. IsTrue same ↔ (leaves (beside (tree_of left.now) no_trees)
        ≡ leaves (beside (tree_of right.now) no_trees))) }
{
    let symbols = left.leaves(alloc)?;
    let others = right.leaves(alloc)?;
    Ok(are_same(&symbols, &others))
}

// Whether two lists of symbols are the same.
fn are_same(symbols: &Vec<&Symbol>, others: &Vec<&Symbol>) -> bool
    ensures { IsTrue result ↔ (symbols_at symbols.now.items ≡ symbols_at others.now.items) }
{
    if symbols.len() != others.len() {
        return false;
    }
    for (place, symbol) in symbols.iter().enumerate() {
        if !equal(*symbol, others[place]) {
            return false;
        }
    }
    true
}
