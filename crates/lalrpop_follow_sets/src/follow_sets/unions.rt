//! The lookahead sets of the reductions of a state.
ghost use Rattle.std.specs.Prelude.{◌≡◌, ◌<◌, ℕ, length, Contains, IfOk, OnOk};
ghost use Rattle.lalrpop_follow_sets.specs.follow_sets.FollowWalks.{AreUnions, JoinsUnions};

use super::initial_sets::empty_sets;
use lalrpop_base::lookahead::token_set::TokenSet;
use lalrpop_base::memory::OutOfMemory;
use lalrpop_base::repr::terminals::TerminalSet;
use std::alloc::Global;

// Adds the tokens of a follow set to the sets of the reductions by an item.
fn join_found(
    found: &TokenSet,
    item: usize,
    reductions: &[usize],
    unions: &mut Vec<TokenSet>,
) -> Result<(), OutOfMemory>
    requires { length unions.old.items ≡ length reductions.now }
    ensures { OnOk result
        (JoinsUnions found.now item reductions.now unions.old.items unions.new.items) }
{
    for place in 0..reductions.len() {
        if reductions[place] == item {
            unions[place].union_with(found)?;
        }
    }
    Ok(())
}

/// For each reduction the union of the follow sets of the nodes that `lookback` pairs with its
/// item.
pub(super) fn unions_of(
    alloc: Global,
    terminals: &TerminalSet,
    follow: &[TokenSet],
    reductions: &[usize],
    lookback: &[(usize, usize)],
) -> Result<Vec<TokenSet>, OutOfMemory>
    requires { (k m : ℕ) → Contains lookback.now (k, m) → m < length follow.now }
    ensures { IfOk result
        (λ unions. AreUnions follow.now lookback.now reductions.now unions.items) }
{
    let mut unions = empty_sets(alloc, terminals, reductions.len())?;
    for entry in lookback {
        join_found(&follow[entry.1], entry.0, reductions, &mut unions)?;
    }
    Ok(unions)
}
