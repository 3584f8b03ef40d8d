//! Canonical states up to the first conflict.
ghost use Rattle.std.specs.Prelude.{◌≡◌, [], IfOk, IfSome, IsFalse, IsNone, IsTrue};
ghost use Rattle.lalrpop_base.specs.Words.{AreNumbers};
ghost use Rattle.lalrpop_construction.specs.canonical.ConflictFree.{AreCanonicalSoFar, HasConflict};
ghost use Rattle.lalrpop_construction.specs.construction.Results.{AreTables};

use super::lr::Lr;
use super::numbered::NumberedKernels;
use super::state::next_state;
use super::states::first_kernels;
use super::workspace::Workspace;
use lalrpop_base::lookahead::token_set::TokenSet;
use lalrpop_base::lr1_core::all_conflicts::has_no_conflict;
use lalrpop_base::lr1_core::state::Lr1State;
use lalrpop_base::memory::OutOfMemory;
use lalrpop_base::numbers::Numbers;
use std::alloc::Global;

// Makes the states, up to the first that has a conflict. Returns whether none has one. None is made
// yet.
fn build_without_conflict<'grammar>(
    alloc: Global,
    lr: &Lr<'grammar, TokenSet>,
    numbers: &Numbers<'grammar>,
    kernels: &mut NumberedKernels<TokenSet>,
    states: &mut Vec<Lr1State<'grammar>>,
) -> Result<bool, OutOfMemory>
    requires numbers { AreNumbers lr.now.construction.rules numbers.now }
    requires kernels { AreCanonicalSoFar lr.now.construction numbers.now.items.items
        kernels.old [] }
    requires states { states.old.items ≡ [] }
    ensures tables { IfOk result
        (λ free. IsTrue free → AreTables lr.now.construction states.new.items) }
    ensures none { IfOk result (λ free. IsFalse free → HasConflict lr.now.construction) }
{
    let grammar = lr.grammar();
    let mut work = Workspace::new(alloc);
    'states: while let Some(state) = next_state(alloc, lr, numbers, kernels, &mut work)? {
        let free = has_no_conflict(alloc, &state, &grammar.terminals)?;
        states.push(state)?;
        if !free {
            return Ok(false);
        }
    }
    Ok(true)
}

/// All states if none has a conflict, and otherwise `None`. The construction ends at the first state
/// that has one, and lists no conflict. `OutOfMemory` if an allocation fails.
pub(super) fn conflict_free_states<'grammar>(
    alloc: Global,
    lr: &Lr<'grammar, TokenSet>,
) -> Result<Option<Vec<Lr1State<'grammar>>>, OutOfMemory>
    ensures tables { IfOk result
        (λ answer. IfSome answer (λ states. AreTables lr.now.construction states.items)) }
    ensures none { IfOk result (λ answer. IsNone answer → HasConflict lr.now.construction) }
{
    let numbers = lr.numbers();
    let mut kernels = first_kernels(alloc, lr, numbers)?;
    let mut states = Vec::new(alloc);
    if build_without_conflict(alloc, lr, numbers, &mut kernels, &mut states)? {
        Ok(Some(states))
    } else {
        Ok(None)
    }
}
