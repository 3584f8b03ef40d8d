//! The tokens with which the set of each node begins: those that follow its nonterminal at once.
ghost use Rattle.std.specs.Prelude.{◌≡◌, ◌<◌, length, Contains, IfOk, OnOk};
ghost use Rattle.lalrpop_follow_sets.specs.follow_sets.FollowNodes.{IsPass, nodes_of};
ghost use Rattle.lalrpop_follow_sets.specs.follow_sets.FollowWalks.{AreInitialSets, AreEmptySets, IsEofOfStartNode, IsSuffixBit, IsSuffixBitIn, IsSomeSuffixBit, TakesBits};
ghost use Rattle.lalrpop_construction.specs.states.NumberedStates.{item_numbers_at};

use super::edges::place_of;
use super::pass::Pass;
use lalrpop_base::lookahead::token_set::TokenSet;
use lalrpop_base::memory::OutOfMemory;
use lalrpop_base::repr::terminals::TerminalSet;
use std::alloc::Global;

/// As many empty sets as `count` says.
pub(super) fn empty_sets(
    alloc: Global,
    terminals: &TerminalSet,
    count: usize,
) -> Result<Vec<TokenSet>, OutOfMemory>
    ensures { IfOk result (λ sets. AreEmptySets count sets.items) }
{
    let mut sets = Vec::with_capacity(alloc, count)?;
    for _place in 0..count {
        sets.push(TokenSet::new(alloc, terminals))?;
    }
    Ok(sets)
}

// Adds FIRST of an item's suffix to the set of the nonterminal after its dot. The suffix is the
// list of symbols after this nonterminal.
fn join_suffix(
    pass: &Pass<'_, '_>,
    state: usize,
    item: usize,
    sets: &mut Vec<TokenSet>,
) -> Result<(), OutOfMemory>
    requires pass { IsPass pass.now }
    requires listed { state < length pass.now.states.now }
    requires held { Contains (item_numbers_at pass.now.numbered.now state) item }
    requires counted { length sets.old.items ≡ length (nodes_of pass.now) }
    ensures { OnOk result
        (TakesBits (IsSuffixBit pass.now state item) sets.old.items sets.new.items) }
{
    let Some(symbol) = pass.numbers.behind[item] else {
        return Ok(());
    };
    let Some(suffix) = &pass.suffixes[item] else {
        return Ok(());
    };
    let Some(place) = place_of(&pass.numbered[state].edges, symbol) else {
        return Ok(());
    };
    let node = pass.nodes.firsts[state] + place;
    sets[node].union_with(&suffix.first)?;
    Ok(())
}

// Adds FIRST of the suffixes of a state's items.
fn join_suffixes(
    pass: &Pass<'_, '_>,
    state: usize,
    sets: &mut Vec<TokenSet>,
) -> Result<(), OutOfMemory>
    requires pass { IsPass pass.now }
    requires listed { state < length pass.now.states.now }
    requires counted { length sets.old.items ≡ length (nodes_of pass.now) }
    ensures { OnOk result
        (TakesBits (IsSuffixBitIn pass.now state) sets.old.items sets.new.items) }
{
    for item in &pass.numbered[state].items {
        join_suffix(pass, state, *item, sets)?;
    }
    Ok(())
}

// Adds FIRST of the suffixes of all states' items.
fn join_all(pass: &Pass<'_, '_>, sets: &mut Vec<TokenSet>) -> Result<(), OutOfMemory>
    requires pass { IsPass pass.now }
    requires counted { length sets.old.items ≡ length (nodes_of pass.now) }
    ensures { OnOk result (TakesBits (IsSomeSuffixBit pass.now) sets.old.items sets.new.items) }
{
    for state in 0..pass.numbered.len() {
        join_suffixes(pass, state, sets)?;
    }
    Ok(())
}

// Adds `Eof` to the set of each node of the start symbol.
fn add_ends(pass: &Pass<'_, '_>, sets: &mut Vec<TokenSet>) -> Result<(), OutOfMemory>
    requires pass { IsPass pass.now }
    requires counted { length sets.old.items ≡ length (nodes_of pass.now) }
    ensures { OnOk result (TakesBits (IsEofOfStartNode pass.now) sets.old.items sets.new.items) }
{
    for node in 0..pass.nodes.pairs.len() {
        if pass.nodes.pairs[node].1 == pass.start.number {
            sets[node].insert_eof(&pass.grammar.terminals)?;
        }
    }
    Ok(())
}

/// For each node the set of the tokens that follow its nonterminal at once.
pub(super) fn initial_sets(alloc: Global, pass: &Pass<'_, '_>) -> Result<Vec<TokenSet>, OutOfMemory>
    requires pass { IsPass pass.now }
    ensures { IfOk result (λ sets. AreInitialSets pass.now sets.items) }
{
    let mut sets = empty_sets(alloc, &pass.grammar.terminals, pass.nodes.pairs.len())?;
    join_all(pass, &mut sets)?;
    add_ends(pass, &mut sets)?;
    Ok(sets)
}
