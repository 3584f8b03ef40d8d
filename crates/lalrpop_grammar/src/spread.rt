//! The least sets over the edges of a graph.
ghost use Rattle.std.specs.Prelude.{◌≡◌, ◌<◌, ℕ, length, Contains, IfOk, IfSome, IfNone, OnOk, [], ◌↔◌};
ghost use Rattle.lalrpop_collections.specs.lists.Spreading.{HoldsBit, IsJoinedInto, IsSent, IsSpread, edge_ends};

use crate::lookahead::token_set::TokenSet;
use lalrpop_collections::collections::queue::Queue;
use lalrpop_collections::memory::OutOfMemory;
use std::alloc::Global;
use std::mem::replace;

/// Joins into the set of each number the sets of all numbers from which edges lead to it, in one
/// step or more. The edges of number n lead to the numbers in `edges[n]`. No set is copied.
pub fn spread(
    alloc: Global,
    sets: Vec<TokenSet>,
    edges: &[Vec<usize>],
) -> Result<Vec<TokenSet>, OutOfMemory>
    requires counted { length edges.now ≡ length sets.items }
    requires in_range { (from to : ℕ) →
        Contains (edge_ends edges.now from) to →
        to < length sets.items }
    ensures counted { IfOk result (λ spread. length spread.items ≡ length sets.items) }
    ensures least { IfOk result (λ spread. (n bit : ℕ) →
        HoldsBit spread.items n bit ↔ IsSpread sets.items edges.now n bit) }
{
    let mut sets = sets;
    let mut waiting = Queue::full(alloc, sets.len())?;
    while let Some(from) = waiting.take() {
        send(alloc, from, &edges[from], &mut sets, &mut waiting)?;
    }
    Ok(sets)
}

// Joins the set of `from` into the sets at the ends of its edges. The ends whose sets grew wait.
fn send(
    alloc: Global,
    from: usize,
    ends: &[usize],
    sets: &mut Vec<TokenSet>,
    waiting: &mut Queue,
) -> Result<(), OutOfMemory>
    requires from { from < length sets.old.items }
    requires ends { (to : ℕ) → Contains ends.now to → to < length sets.old.items }
    requires limit { waiting.old.limit ≡ length sets.old.items }
    ensures { OnOk result (IsSent from ends.now (length ends.now) sets.old.items sets.new.items
        waiting.old waiting.new) }
{
    for to in ends {
        if join_into(alloc, from, *to, sets)? {
            waiting.add(*to)?;
        }
    }
    Ok(())
}

// Joins the set of `from` into that of `to`, and returns whether the latter grew.
fn join_into(
    alloc: Global,
    from: usize,
    to: usize,
    sets: &mut Vec<TokenSet>,
) -> Result<bool, OutOfMemory>
    requires from { from < length sets.old.items }
    requires to { to < length sets.old.items }
    ensures { IfOk result (λ grew. IsJoinedInto grew from to sets.old.items sets.new.items) }
{
    if from == to {
        return Ok(false);
    }
    let set = replace(&mut sets[from], TokenSet::empty_set(alloc)); // `set` is put back below
    let grew = sets[to].union_with(&set)?;
    sets[from] = set;
    Ok(grew)
}
