//! For each state the finished items in which walks end there, each with the node where its walk
//! began.
ghost use Rattle.std.specs.Prelude.{◌≡◌, ◌<◌, ℕ, length, Contains, IfOk, OnOk};
ghost use Rattle.lalrpop_grammar.specs.declared.repr.Production.{Production as OfGrammar};
ghost use Rattle.lalrpop_follow_sets.specs.follow_sets.FollowNodes.{IsPass};
ghost use Rattle.lalrpop_follow_sets.specs.follow_sets.FollowWalks.{AreEmptyLists, EndsAt, GoesThrough, IsNumberAtStart, NotesEnds, SomeExpansion};
ghost use Rattle.lalrpop_base.specs.Words.{AddsThose};

use super::pass::Pass;
use super::walk::walk;
use lalrpop_base::memory::OutOfMemory;
use std::alloc::Global;

/// For each state, pairs of the number of a finished item and a node.
pub(super) type Lookback = Vec<Vec<(usize, usize)>>;

/// As many empty lists as `count` says.
pub(super) fn empty_lookback(alloc: Global, count: usize) -> Result<Lookback, OutOfMemory>
    ensures { IfOk result (λ lookback. AreEmptyLists count lookback.items) }
{
    let mut lookback = Vec::with_capacity(alloc, count)?;
    for _place in 0..count {
        lookback.push(Vec::new(alloc))?;
    }
    Ok(lookback)
}

// Walks over a production, and adds the node to the list of the state in which the walk ends. The
// nodes that the walk goes through are appended to `ends`.
fn walk_from(
    pass: &Pass<'_, '_>,
    node: usize,
    from: usize,
    expansion: usize,
    ends: &mut Vec<usize>,
    lookback: &mut Lookback,
) -> Result<(), OutOfMemory>
    requires pass { IsPass pass.now }
    requires listed { from < length pass.now.states.now }
    requires expansion { (q : OfGrammar) × IsNumberAtStart pass.now expansion q }
    requires counted { length lookback.old.items ≡ length pass.now.states.now }
    ensures through { (q : OfGrammar) →
        IsNumberAtStart pass.now expansion q →
        OnOk result (AddsThose (GoesThrough pass.now from q) ends.old.items ends.new.items) }
    ensures noted { (q : OfGrammar) →
        IsNumberAtStart pass.now expansion q →
        OnOk result (NotesEnds node (EndsAt pass.now from q) lookback.old.items
        lookback.new.items) }
{
    if let Some((state, item)) = walk(pass, from, expansion, ends)? {
        lookback[state].push((item, node))?;
    }
    Ok(())
}

/// Walks over each of the productions, and adds the node to the lists of the states in which these
/// walks end. The nodes that the walks go through are appended to `ends`.
pub(super) fn walk_all(
    pass: &Pass<'_, '_>,
    node: usize,
    from: usize,
    expansions: &[usize],
    ends: &mut Vec<usize>,
    lookback: &mut Lookback,
) -> Result<(), OutOfMemory>
    requires pass { IsPass pass.now }
    requires listed { from < length pass.now.states.now }
    requires expansions { (k : ℕ) →
        Contains expansions.now k →
        (q : OfGrammar) × IsNumberAtStart pass.now k q }
    requires counted { length lookback.old.items ≡ length pass.now.states.now }
    ensures through { OnOk result (AddsThose
        (λ n. SomeExpansion pass.now expansions.now (λ q. GoesThrough pass.now from q n))
        ends.old.items ends.new.items) }
    ensures noted { OnOk result (NotesEnds node
        (λ s k. SomeExpansion pass.now expansions.now (λ q. EndsAt pass.now from q s k))
        lookback.old.items lookback.new.items) }
{
    for expansion in expansions {
        walk_from(pass, node, from, *expansion, ends, lookback)?;
    }
    Ok(())
}
