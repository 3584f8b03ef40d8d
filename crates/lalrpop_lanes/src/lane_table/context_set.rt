//! Context sets: for each action that is traced, the tokens on which it is taken.
ghost use Rattle.std.specs.Prelude.{◌≡◌, ◌≢◌, ◌<◌, ◌↔◌, ℕ, List, length, slice_get, Some, IfOk, OnErr, OnOk, IfErr, MatchBool, IsTrue, IsFalse};
ghost use Rattle.lalrpop_base.specs.Words.{Bits, no_bits};
ghost use Rattle.lalrpop_lanes.specs.lanes.Contexts.{MeetsOther, IsJoinedIn, IsUnion, MeetInUnion, IsApplied, AreAmong, AreReducedAmong, IsReductionAt};
ghost use Rattle.lalrpop_lanes.specs.lanes.Contexts.{Reduces};
ghost use Rattle.lalrpop_lanes.specs.lanes.Contexts.{TookColumns};
ghost use Rattle.lalrpop_lanes.specs.declared.lane_table.context_set.OverlappingLookahead.TheVariants.{Overlapping, Memory};

use lalrpop_base::collections::{Collection, Set};
use lalrpop_base::exact::equal;
use lalrpop_base::lookahead::token_set::TokenSet;
use lalrpop_base::lr1_core::state::{Action, Lr1State};
use lalrpop_base::memory::OutOfMemory;
use lalrpop_base::repr::Production;
use std::alloc::Global;
use std::marker::Model;
use thiserror::Error;

/// The number of a column: the place of an action among those that are traced, from 0.
#[derive(Clone, Copy, Debug, PartialEq, Eq, PartialOrd, Ord)]
pub struct ConflictIndex {
    index: usize,
}

impl ConflictIndex {
    /// The column with the number `index`.
    pub fn new(index: usize) -> ConflictIndex
        ensures number { result.index ≡ index }
    {
        ConflictIndex { index }
    }
}

/// Why tokens were not joined: two columns would share a token, or an allocation failed.
#[derive(Clone, Copy, Debug, PartialEq, Eq, Error)]
pub enum OverlappingLookahead {
    #[error("overlapping lookahead")]
    Overlapping,
    #[error("out of memory")]
    Memory,
}

impl From<OutOfMemory> for OverlappingLookahead {
    ghost from_gives = { λ _ e. e ≡ Memory };

    fn from(_error: OutOfMemory) -> OverlappingLookahead {
        OverlappingLookahead::Memory
    }
}

/// The tokens of each action that is traced, as a column for each action. Clauses see the list of
/// columns.
#[derive(Debug, Drop)]
pub struct ContextSet {
    values: Vec<TokenSet>,
}

impl Model for ContextSet {
    ghost use Rattle.std.specs.Prelude.{List};
    ghost use Rattle.std.specs.Coded.{coded_list, coded_ℕ};
    ghost use base.Stored.{coded_unit};
    ghost use Rattle.std.specs.FinMap as finite;
    ghost use Rattle.lalrpop_base.specs.Words.{Bits};

    ghost Value = { List Bits };

    ghost coded = { coded_list (finite.code coded_ℕ coded_unit) };

    ghost view = { λ s. s.values.items };
}

impl ContextSet {
    /// `count` columns without tokens. `OutOfMemory` if an allocation fails.
    pub fn new(alloc: Global, count: usize) -> Result<ContextSet, OutOfMemory>
        ensures counted { IfOk result (λ set. length set ≡ count) }
        ensures empty { IfOk result
            (λ set. (k : ℕ) (column : Bits) → slice_get set k ≡ Some column → column ≡ no_bits) }
    {
        let mut values = Vec::new(alloc);
        for _column in 0..count {
            values.push(TokenSet::empty(alloc))?;
        }
        Ok(ContextSet { values })
    }

    /// The columns of both, joined one by one. `Overlapping` if a column of the second shares a
    /// token with another column of either, and `Memory` if an allocation fails.
    pub fn union(
        alloc: Global,
        first: &ContextSet,
        second: &ContextSet,
    ) -> Result<ContextSet, OverlappingLookahead>
        requires counted { length first.now ≡ length second.now }
        ensures joined { IfOk result (IsUnion first.now second.now) }
        ensures apart { IfOk result (λ _. ¬ MeetInUnion first.now second.now) }
        ensures overlapping { IfErr result
            (λ error. error ≡ Overlapping → MeetInUnion first.now second.now) }
    {
        let mut union = first.clone(alloc)?;
        for (index, column) in second.values.iter().enumerate() {
            union.insert(ConflictIndex::new(index), column)?;
        }
        Ok(union)
    }

    /// Joins tokens to a column, and returns whether the column grew. `Overlapping` if another
    /// column has one of the tokens, and `Memory` if an allocation fails.
    pub fn insert(
        &mut self,
        index: ConflictIndex,
        tokens: &TokenSet,
    ) -> Result<bool, OverlappingLookahead>
        requires there { index.index < length self.old }
        ensures joined { OnOk result (IsJoinedIn index.index tokens.now self.old self.new) }
        ensures counted { length self.new ≡ length self.old }
        ensures told { IfOk result
            (λ grew. MatchBool grew (self.new ≢ self.old) (self.new ≡ self.old)) }
        ensures apart { OnOk result (¬ MeetsOther self.old index.index tokens.now) }
        ensures overlapping { IfErr result
            (λ error. error ≡ Overlapping → MeetsOther self.old index.index tokens.now) }
        ensures err { OnErr result (self.new ≡ self.old) }
    {
        if self.meets_other(index, tokens) {
            return Err(OverlappingLookahead::Overlapping);
        }
        let grew = self.values[index.index].union_with(tokens)?;
        Ok(grew)
    }

    // Whether a column other than that of `index` has one of the tokens.
    fn meets_other(&self, index: ConflictIndex, tokens: &TokenSet) -> bool
        ensures yes { IsTrue result → MeetsOther self.now index.index tokens.now }
        ensures no { IsFalse result → ¬ MeetsOther self.now index.index tokens.now }
    {
        for (other, column) in self.values.iter().enumerate() {
            if other != index.index && column.is_intersecting(tokens) {
                return true;
            }
        }
        false
    }

    /// Gives each reduction of a state the tokens of its action. `actions` has one action for each
    /// column, in the order of the columns. `OutOfMemory` if an allocation fails.
    pub fn apply<'grammar>(
        &self,
        alloc: Global,
        state: &mut Lr1State<'grammar>,
        actions: &Set<Action<'grammar>>,
    ) -> Result<(), OutOfMemory>
        requires counted { length self.now ≡ length actions.now.keys }
        requires among { AreAmong actions.now.keys state.old }
        ensures applied { OnOk result (IsApplied actions.now.keys self.now state.old state.new) }
        ensures err { OnErr result (state.new ≡ state.old) }
    {
        let reductions = self.given_to(alloc, &state.reductions, actions)?;
        state.reductions = reductions;
        Ok(())
    }

    // The reductions, each with the tokens of its action.
    fn given_to<'grammar>(
        &self,
        alloc: Global,
        reductions: &[(TokenSet, &'grammar Production)],
        actions: &Set<Action<'grammar>>,
    ) -> Result<Vec<(TokenSet, &'grammar Production)>, OutOfMemory>
        requires counted { length self.now ≡ length actions.now.keys }
        requires among { AreReducedAmong actions.now.keys reductions.now }
        ensures { IfOk result
            (λ given. TookColumns actions.now.keys self.now reductions.now given.items) }
    {
        let mut given = Vec::new(alloc);
        for (_tokens, production) in reductions {
            let place = place_of_reduction(actions, production);
            given.push((self.values[place].clone(alloc)?, *production))?;
        }
        Ok(given)
    }

    /// A copy of the columns. `OutOfMemory` if an allocation fails.
    pub fn clone(&self, alloc: Global) -> Result<ContextSet, OutOfMemory>
        ensures copy { IfOk result (λ copy. copy ≡ self.now) }
    {
        let mut values = Vec::new(alloc);
        for column in &self.values {
            values.push(column.clone(alloc)?)?;
        }
        Ok(ContextSet { values })
    }
}

/// Whether the actions include each of the reductions.
pub fn are_among<'grammar>(
    actions: &Set<Action<'grammar>>,
    reductions: &[(TokenSet, &'grammar Production)],
) -> bool
    ensures { IsTrue result ↔ AreReducedAmong actions.now.keys reductions.now }
{
    for (_tokens, production) in reductions {
        if !has_reduction(actions, production) {
            return false;
        }
    }
    true
}

// Whether the actions include the reduction by a production.
fn has_reduction<'grammar>(actions: &Set<Action<'grammar>>, production: &Production) -> bool
    ensures { IsTrue result ↔ ((place : ℕ) × IsReductionAt actions.now.keys place production.now) }
{
    for action in actions.iter() {
        if reduces_by(action, production) {
            return true;
        }
    }
    false
}

// The place of the reduction by a production among the actions, which include it.
fn place_of_reduction<'grammar>(actions: &Set<Action<'grammar>>, production: &Production) -> usize
    requires { (place : ℕ) × IsReductionAt actions.now.keys place production.now }
    ensures { IsReductionAt actions.now.keys result production.now }
{
    for (place, action) in actions.iter().enumerate() {
        if reduces_by(action, production) {
            return place;
        }
    }
    unreachable!()
}

// Whether an action is the reduction by a production.
fn reduces_by<'grammar>(action: &Action<'grammar>, production: &Production) -> bool
    ensures { IsTrue result ↔ Reduces action.now production.now }
{
    match action {
        Action::Shift(..) => false,
        Action::Reduce(reduced) => equal(*reduced, production),
    }
}
