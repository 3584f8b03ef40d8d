//! Tests whether reductions hold the tokens of their lookahead sets.
ghost use Rattle.std.specs.Prelude.{◌≡◌, ◌<◌, ℕ, length, slice_get, Some, Contains, IfOk, IsTrue};
ghost use Rattle.lalrpop_base.specs.Words.{Bits, has};
ghost use Rattle.lalrpop_states.specs.declared.lr1_core.state.State.{State};
ghost use Rattle.lalrpop_check.specs.check.ByNumber.{HoldSets, HoldUnions};
ghost use Rattle.lalrpop_follow_sets.specs.follow_sets.FollowWalks.{entries_at};
ghost use Rattle.lalrpop_construction.specs.declared.construction.numbered_state.NumberedState.{NumberedState as ByNumbers};

use lalrpop_base::lookahead::token_set::TokenSet;
use lalrpop_base::lr1_core::state::Lr1State;
use lalrpop_base::memory::OutOfMemory;
use lalrpop_base::repr::Production;
use lalrpop_base::repr::grammar::Grammar;
use lalrpop_construction::construction::numbered_state::NumberedState;
use lalrpop_follow_sets::follow_sets::FollowSets;
use std::alloc::Global;

// Whether a set holds all tokens of another.
#[tactic(auto, using(lr1_theory::proofs::theory::check::CheckSending::holds_joined))]
fn holds_all(alloc: Global, set: &TokenSet, other: &TokenSet) -> Result<bool, OutOfMemory>
    ensures { IfOk result (λ yes. IsTrue yes →
        (bit : ℕ) → IsTrue (has other.now bit) → IsTrue (has set.now bit)) }
{
    let mut both = set.clone(alloc)?;
    let more = both.union_with(other)?;
    Ok(!more)
}

// Whether each reduction holds the tokens of the set at its place.
fn hold_sets<'grammar>(
    alloc: Global,
    reductions: &[(TokenSet, &'grammar Production)],
    sets: &[TokenSet],
) -> Result<bool, OutOfMemory>
    requires { length sets.now ≡ length reductions.now }
    ensures { IfOk result (λ yes. IsTrue yes → HoldSets reductions.now sets.now) }
{
    for (place, reduction) in reductions.iter().enumerate() {
        if !holds_all(alloc, &reduction.0, &sets[place])? {
            return Ok(false);
        }
    }
    Ok(true)
}

/// Whether the reductions of each state hold the tokens of their lookahead sets.
pub(super) fn hold_lookaheads<'grammar>(
    alloc: Global,
    grammar: &'grammar Grammar,
    states: &[Lr1State<'grammar>],
    found: &FollowSets,
    numbered: &[NumberedState],
) -> Result<bool, OutOfMemory>
    requires counted { length numbered.now ≡ length states.now }
    requires found { length found.now.lookback.items ≡ length states.now }
    requires within { (s k m : ℕ) →
        Contains (entries_at found.now.lookback.items s) (k, m) →
        m < length found.now.follow.items }
    requires reduced { (s : ℕ) (old : State Bits) (state : ByNumbers) →
        slice_get states.now s ≡ Some old →
        slice_get numbered.now s ≡ Some state →
        length state.reductions.items ≡ length old.reductions.items }
    ensures { IfOk result (λ yes. IsTrue yes → HoldUnions found.now states.now numbered.now) }
{
    for (place, state) in states.iter().enumerate() {
        let reductions = &numbered[place].reductions;
        let sets = found.unions(alloc, &grammar.terminals, place, reductions)?;
        if !hold_sets(alloc, &state.reductions, &sets)? {
            return Ok(false);
        }
    }
    Ok(true)
}
