//! Walks over the right sides of productions, from state to state.
ghost use Rattle.std.specs.Prelude.{◌≡◌, ◌<◌, length, slice_get, Some, IfOk, OnOk, None, ◌↔◌, IsTrue};
ghost use Rattle.lalrpop_base.specs.Words.{Dotted, AddsThose};
ghost use Rattle.lalrpop_states.specs.declared.lookahead.nil.Nil.{Nil};
ghost use Rattle.lalrpop_grammar.specs.declared.repr.Production.{Production as OfGrammar};
ghost use Rattle.lalrpop_follow_sets.specs.follow_sets.FollowNodes.{IsPass};
ghost use Rattle.lalrpop_follow_sets.specs.follow_sets.FollowWalks.{GoesThrough, HasNullableRest, IsEndOfWalk, IsNumberAtStart, IsGoneOver, StepsThrough};

use super::edges::place_of;
use super::pass::Pass;
use lalrpop_base::memory::OutOfMemory;

// Whether the symbol after the dot is a nonterminal, and the suffix after it is nullable.
fn passes(pass: &Pass<'_, '_>, item: usize) -> bool
    requires pass { IsPass pass.now }
    requires known { item < length pass.now.numbers.now.items.items }
    ensures { (i : Dotted Nil) →
        slice_get pass.now.numbers.now.items.items item ≡ Some i →
        IsTrue result ↔ HasNullableRest pass.now i }
{
    match &pass.suffixes[item] {
        Some(suffix) => suffix.nullable,
        None => false,
    }
}

// Goes over the symbol after a dot, and returns the state to which it leads. If the symbol is a
// nonterminal with a nullable suffix, its node is appended to `ends`.
fn step(
    pass: &Pass<'_, '_>,
    state: usize,
    item: usize,
    symbol: usize,
    ends: &mut Vec<usize>,
) -> Result<Option<usize>, OutOfMemory>
    requires pass { IsPass pass.now }
    requires listed { state < length pass.now.states.now }
    requires known { item < length pass.now.numbers.now.items.items }
    requires behind { slice_get pass.now.numbers.now.behind.items item ≡ Some (Some symbol) }
    ensures through { (i : Dotted Nil) →
        slice_get pass.now.numbers.now.items.items item ≡ Some i →
        OnOk result (AddsThose (StepsThrough pass.now state i) ends.old.items ends.new.items) }
    ensures over { IfOk result (λ target. (i : Dotted Nil) →
        slice_get pass.now.numbers.now.items.items item ≡ Some i →
        IsGoneOver pass.now state i target) }
{
    let edges = &pass.numbered[state].edges;
    let Some(place) = place_of(edges, symbol) else {
        return Ok(None);
    };
    if passes(pass, item) {
        ends.push(pass.nodes.firsts[state] + place)?;
    }
    Ok(Some(edges[place].1))
}

/// Walks over the symbols after a dot, and returns the state and the finished item to which they
/// lead. `None` if they lead to no state. The nodes of nonterminals with a nullable suffix are
/// appended to `ends`.
pub(super) fn walk(
    pass: &Pass<'_, '_>,
    from: usize,
    expansion: usize,
    ends: &mut Vec<usize>,
) -> Result<Option<(usize, usize)>, OutOfMemory>
    requires pass { IsPass pass.now }
    requires listed { from < length pass.now.states.now }
    requires expansion { (q : OfGrammar) × IsNumberAtStart pass.now expansion q }
    ensures through { (q : OfGrammar) →
        IsNumberAtStart pass.now expansion q →
        OnOk result (AddsThose (GoesThrough pass.now from q) ends.old.items ends.new.items) }
    ensures end { IfOk result (λ end. (q : OfGrammar) →
        IsNumberAtStart pass.now expansion q →
        IsEndOfWalk pass.now from q end) }
{
    let mut state = from;
    let mut item = expansion;
    while let Some(symbol) = pass.numbers.behind[item] {
        let Some(target) = step(pass, state, item, symbol, ends)? else {
            return Ok(None);
        };
        state = target;
        item += 1;
    }
    Ok(Some((state, item)))
}
