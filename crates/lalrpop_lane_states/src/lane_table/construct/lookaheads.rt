//! Reductions that take the lookahead sets that a pass found for them.
ghost use Rattle.std.specs.Prelude.{◌≡◌, ◌<◌, length, IfOk, MatchBool};
ghost use Rattle.lalrpop_base.specs.Words.{contents, productions, rules_of};
ghost use Rattle.lalrpop_lane_states.specs.lane_states.FoundLookaheads.{IsFoundAt, with_sets};
ghost use Rattle.lalrpop_lane_states.specs.lane_states.LaneStates.{IsResolvedAt, IsStateStep};
ghost use Rattle.lalrpop_lane_states.specs.lane_states.Lr0Copies.{AreLr0Copies};
ghost use Rattle.lalrpop_follow_sets.specs.lanes.LaneTokens.{LanesMeet};

use super::LaneTableConstruct;
use lalrpop_base::lookahead::token_set::TokenSet;
use lalrpop_base::lr1_core::state::Lr1State;
use lalrpop_base::memory::OutOfMemory;
use lalrpop_base::repr::Production;
use lalrpop_construction::construction::numbered_state::NumberedState;
use lalrpop_follow_sets::follow_sets::{FollowSets, share_token};
use std::alloc::Global;

// The reductions, each with the set at its place.
fn put_sets<'grammar>(
    alloc: Global,
    reductions: &[(TokenSet, &'grammar Production)],
    sets: Vec<TokenSet>,
) -> Result<Vec<(TokenSet, &'grammar Production)>, OutOfMemory>
    requires { length sets.items ≡ length reductions.now }
    ensures { IfOk result (λ given. given.items ≡ with_sets sets.items reductions.now) }
{
    let mut given = Vec::with_capacity(alloc, sets.len())?;
    for set in sets {
        let production = reductions[given.len()].1;
        given.push((set, production))?;
    }
    Ok(given)
}

impl<'grammar> LaneTableConstruct<'grammar> {
    /// Gives the reductions of a state their lookahead sets, if no two of its actions share a
    /// token, and returns whether this is so. Else the state stays as it is.
    pub(super) fn resolve_state(
        &self,
        alloc: Global,
        states: &mut Vec<Lr1State<'grammar>>,
        index: usize,
        found: &FollowSets,
        numbered: &NumberedState,
    ) -> Result<bool, OutOfMemory>
        requires copies { AreLr0Copies (rules_of self.now.grammar.now) self.now.start
            self.now.max_copies states.old.items }
        requires listed { index < length states.old.items }
        requires found { IsFoundAt (rules_of self.now.grammar.now) self.now.start
            states.old.items index found.now numbered.now }
        ensures step { IfOk result (λ _. IsStateStep index states.old.items states.new.items) }
        ensures resolved { IfOk result (λ done. MatchBool done
            (IsResolvedAt (rules_of self.now.grammar.now) self.now.start states.old.items index
            states.new.items) (LanesMeet (productions self.now.grammar.now) self.now.start
            (contents self.now.grammar.now.terminals states.new.items) index ×
            (states.new.items ≡ states.old.items))) }
    {
        if numbered.reductions.is_empty() {
            return Ok(true);
        }
        let terminals = &self.grammar.terminals;
        let sets = found.unions(alloc, terminals, index, &numbered.reductions)?;
        let shifted = found.shifted(alloc, terminals, &numbered.edges)?;
        if share_token(shifted, &sets)? {
            return Ok(false);
        }
        let state = &mut states[index];
        let reductions = put_sets(alloc, &state.reductions, sets)?;
        state.reductions = reductions;
        Ok(true)
    }
}
