//! The causes of conflicts as JSON, each with a witness of ambiguity if one is found.
ghost use Rattle.std.specs.Prelude.{◌≡◌, ◌++◌, ◌<◌, ℕ, Contains, IfOk, OnOk, length, map, string_bytes};
ghost use Rattle.std.specs.Fmt.{decimal};
ghost use Rattle.std.specs.List.{All};
ghost use Rattle.conflict_causes.specs.Causes.{AreCauses};
ghost use Rattle.lalrpop_ambiguity.specs.witnesses.Searches.{AreCommonMoves};
ghost use Rattle.lalrpop_base.specs.Words.{IsWellFormed, productions};
ghost use Rattle.table_data.specs.Causes.{HasWitness, cause_json, derivation_json, search_json};

use super::lists::push_array;
use super::naming::Naming;
use super::to_json::{ToJson, push_number, push_quoted};
use conflict_causes::causes::{Cause, causes};
use lalrpop_ambiguity::derivation::Derivation;
use lalrpop_ambiguity::search::{AmbiguityFinder, Search};
use lalrpop_base::lookahead::token_set::TokenSet;
use lalrpop_base::lr1_core::state::{Lr1Conflict, Lr1State};
use lalrpop_base::memory::OutOfMemory;
use lalrpop_base::repr::grammar::Grammar;
use std::alloc::Global;

/// The steps of a search for a witness of one cause.
pub const SEARCH_STEPS: usize = 2_000;

/// The numbers of the conflicts of a cause, and what a search for a witness of the first one found.
/// Two derivations have so many moves in common.
#[derive(Drop)]
pub(crate) struct ShownCause<'grammar> {
    pub(crate) conflicts: Vec<usize>,
    pub(crate) search: Search<'grammar>,
    pub(crate) moves: usize,
}

impl ToJson for usize {
    ghost json = { λ _ number. decimal number };

    fn push_json(
        &self,
        _alloc: Global,
        text: &mut String,
        _naming: &Naming<'_>,
    ) -> Result<(), OutOfMemory> {
        push_number(text, "", *self)
    }
}

impl<'grammar> ToJson for ShownCause<'grammar> {
    ghost json = { λ _ shown. cause_json shown };

    fn push_json(
        &self,
        alloc: Global,
        text: &mut String,
        naming: &Naming<'_>,
    ) -> Result<(), OutOfMemory> {
        text.push_str("{\"conflicts\":")?;
        push_array(alloc, text, ",", &self.conflicts, naming)?;
        text.push_str(",\"search\":")?;
        push_search(alloc, text, &self.search, self.moves)?;
        text.push_str("}")?;
        Ok(())
    }
}

// Appends how a search ended, and the two derivations of a witness with a mark after so many moves.
fn push_search(
    alloc: Global,
    text: &mut String,
    search: &Search<'_>,
    moves: usize,
) -> Result<(), OutOfMemory>
    ensures { OnOk result
        (string_bytes text.new ≡ string_bytes text.old ++ search_json moves search.now) }
{
    match search {
        Search::Found(found) => {
            text.push_str("\"found\",\"derivations\":[")?;
            push_derivation(alloc, text, &found.left, moves)?;
            text.push_str(",")?;
            push_derivation(alloc, text, &found.right, moves)?;
            text.push_str("]")?;
        }
        Search::Exhausted => text.push_str("\"exhausted\",\"derivations\":[]")?,
        Search::Cut => text.push_str("\"cut\",\"derivations\":[]")?,
    }
    Ok(())
}

// Appends a derivation as a string, with a mark after so many moves.
fn push_derivation(
    alloc: Global,
    text: &mut String,
    derivation: &Derivation<'_>,
    moves: usize,
) -> Result<(), OutOfMemory>
    ensures { OnOk result (string_bytes text.new
        ≡ string_bytes text.old ++ derivation_json moves derivation.now) }
{
    let shown = derivation.marked_text(alloc, moves)?;
    push_quoted(alloc, text, shown.as_str())
}

/// The causes of conflicts, each with what a search for a witness found. `OutOfMemory` if an
/// allocation fails.
pub(crate) fn shown_causes<'grammar>(
    alloc: Global,
    grammar: &'grammar Grammar,
    states: &[Lr1State<'grammar>],
    conflicts: &[Lr1Conflict<'grammar>],
) -> Result<Vec<ShownCause<'grammar>>, OutOfMemory>
    requires { IsWellFormed grammar.now }
    ensures causes { IfOk result (λ shown. AreCauses states.now conflicts.now
        (map (λ s. s.conflicts.items) shown.items)) }
    ensures searches { IfOk result
        (λ shown. All (λ s. HasWitness (productions grammar.now) s.search) shown.items) }
    ensures moves { IfOk result (λ shown. All (λ s. AreCommonMoves s.moves s.search) shown.items) }
{
    let all = causes(alloc, states, conflicts)?;
    let finder = AmbiguityFinder::new(alloc, grammar, states)?;
    let shown = shown_all(alloc, &finder, states, conflicts, &all)?;
    Ok(shown)
}

// Causes, each with what a search for a witness found.
fn shown_all<'grammar>(
    alloc: Global,
    finder: &AmbiguityFinder<'_, 'grammar, TokenSet>,
    states: &[Lr1State<'grammar>],
    conflicts: &[Lr1Conflict<'grammar>],
    all: &[Cause],
) -> Result<Vec<ShownCause<'grammar>>, OutOfMemory>
    requires well_formed { IsWellFormed finder.now.ground.grammar.now }
    requires causes { AreCauses states.now conflicts.now all.now }
    ensures numbers { IfOk result (λ shown. map (λ s. s.conflicts.items) shown.items ≡ all.now) }
    ensures searches { IfOk result (λ shown. All
        (λ s. HasWitness (productions finder.now.ground.grammar.now) s.search) shown.items) }
    ensures moves { IfOk result (λ shown. All (λ s. AreCommonMoves s.moves s.search) shown.items) }
{
    let mut shown = Vec::new(alloc);
    for cause in all {
        shown.push(shown_cause(alloc, finder, conflicts, cause)?)?;
    }
    Ok(shown)
}

// A cause with what a search for a witness found.
fn shown_cause<'grammar>(
    alloc: Global,
    finder: &AmbiguityFinder<'_, 'grammar, TokenSet>,
    conflicts: &[Lr1Conflict<'grammar>],
    cause: &Cause,
) -> Result<ShownCause<'grammar>, OutOfMemory>
    requires well_formed { IsWellFormed finder.now.ground.grammar.now }
    requires some { 0 < length cause.now }
    requires within { (i : ℕ) → Contains cause.now i → i < length conflicts.now }
    ensures numbers { IfOk result (λ shown. shown.conflicts.items ≡ cause.now) }
    ensures search { IfOk result
        (λ shown. HasWitness (productions finder.now.ground.grammar.now) shown.search) }
    ensures moves { IfOk result (λ shown. AreCommonMoves shown.moves shown.search) }
{
    let numbers = cause.conflicts();
    let first = conflict_at(conflicts, numbers[0]);
    let search = finder.find(alloc, first, SEARCH_STEPS)?;
    let moves = search.common_moves(alloc)?;
    Ok(ShownCause {
        conflicts: numbers.to_vec(alloc)?,
        search,
        moves,
    })
}

// The conflict with a number.
fn conflict_at<'conflicts, 'grammar>(
    conflicts: &'conflicts [Lr1Conflict<'grammar>],
    number: usize,
) -> &'conflicts Lr1Conflict<'grammar>
    requires { number < length conflicts.now }
{
    &conflicts[number]
}
