//! LALR(1) states: canonical states, of which those with the same dotted productions are merged.
mod join;
mod numbers;
mod order;
mod place;
mod reductions;

ghost use Rattle.std.specs.Prelude.{◌≡◌, ◌<◌, length, IfOk, IfErr, MatchResult};
ghost use Rattle.lalrpop_base.specs.Words.{AreCoherent, AreCollapsible, IsWellFormed, productions};
ghost use Rattle.lalrpop_construction.specs.Words.{AreOrderedCanonical};
ghost use Rattle.lalrpop_tables.specs.collapse.Collapsed.{AreOrdered, AreCollapsedTables};
ghost use Rattle.lalrpop_tables.specs.collapse.Collapsed.{FailsByCollapse};
ghost use Rattle.lalrpop_grammar.specs.declared.repr.NonterminalString.{NonterminalString as Start};
ghost use Rattle.lalrpop_grammar.specs.declared.repr.grammar.Grammar.{Grammar as Rules};
ghost use Rattle.lalrpop_tables.specs.collapse.Lalr.{AreLalrTables, HasCoherentStates, HasOrderedStates};
ghost use Rattle.lalrpop_states.specs.conflicts.Failures.{TellsNotLALR1};
ghost use Rattle.lalrpop_tables.specs.answers.Lr1Answers.{AreBuiltTablesOf, FailsOn};

use crate::build::build_lr1_states;
use lalrpop_base::lr1_core::all_conflicts::conflicts_of;
use lalrpop_base::lr1_core::state::{Lr1Result, Lr1State};
use lalrpop_base::repr::NonterminalString;
use lalrpop_base::repr::grammar::Grammar;
use lalrpop_base::repr::terminals::TerminalSet;
use lalrpop_construction::construction::results::tables_or_conflicts;
use lalrpop_construction::options::{Method, Options};
use numbers::merged_numbers;
use order::read_order;
use place::{number_states, place_states};
use reductions::reduce_states;
use std::alloc::Global;

// Merges the states with the same dotted productions. The error has the conflicts of the merged
// states.
fn merge_states<'grammar>(
    alloc: Global,
    states: Vec<Lr1State<'grammar>>,
    terminals: &TerminalSet,
) -> Lr1Result<'grammar>
    requires { AreCollapsible states.items }
    ensures merged { MatchResult result
        (λ tables. AreCollapsedTables terminals.now states.entry.items tables.items)
        (FailsByCollapse terminals.now states.entry.items) }
    ensures ordered { MatchResult result (λ tables. AreOrdered tables.items) HasOrderedStates }
{
    let numbers = merged_numbers(alloc, &states)?;
    let numbered = number_states(alloc, states, &numbers)?;
    let merged = place_states(alloc, numbered)?;
    let reduced = reduce_states(alloc, merged)?;
    read_order(&reduced);
    let conflicts = conflicts_of(alloc, &reduced, terminals)?;
    tables_or_conflicts(reduced, conflicts)
}

/// The states, of which those with the same dotted productions are merged. They are numbered by
/// their first appearance. The error has the merged states and their conflicts, or is `Memory` if
/// an allocation fails. Lists of dotted productions are looked up by their order, so the time is
/// nearly linear in the size of the states.
pub fn collapse_to_lalr_states<'grammar>(
    alloc: Global,
    states: Vec<Lr1State<'grammar>>,
    terminals: &TerminalSet,
) -> Lr1Result<'grammar>
    requires { AreCollapsible states.items }
    ensures merged { MatchResult result
        (λ tables. AreCollapsedTables terminals.now states.entry.items tables.items)
        (FailsByCollapse terminals.now states.entry.items) }
    ensures coherent { MatchResult result (λ tables. AreCoherent tables.items) HasCoherentStates }
    ensures some { 0 < length states.entry.items → IfOk result (λ tables. 0 < length tables.items) }

    // Let the states be canonical ones of a grammar, under any numbers. Then there are tables
    // exactly if the grammar is LALR(1), and the tables are faithful.
    ensures lalr { (g : Rules) (start : Start) →
        g.terminals ≡ terminals.now →
        AreOrderedCanonical g start states.entry.items →
        MatchResult result (λ tables. AreLalrTables g start tables.items)
        (TellsNotLALR1 (productions g) start) }
{
    let _terminals = terminals.all();
    merge_states(alloc, states, terminals)
}

/// The states of `build_lr1_states`, or an error. Under `Method::Canonical` the states are merged
/// into LALR(1) states, numbered by their first appearance. Under `Method::Lane` they stay as they
/// are. The error is that of `build_lr1_states` or of the merge.
#[tactic(auto, using(crate::proofs::theory::answers::Lr1Answers::Failure_by_method))]
pub fn build_lalr_states<'grammar>(
    alloc: Global,
    grammar: &'grammar Grammar,
    start: NonterminalString,
    options: &Options,
) -> Lr1Result<'grammar>
    requires { IsWellFormed grammar.now }
    ensures tables { IfOk result (λ tables. AreBuiltTablesOf (options.now.method ≡ Method.Canonical)
        options.now.method options.now.max_copies grammar.now start tables.items) }
    ensures no_tables { IfErr result
        (FailsOn (options.now.method ≡ Method.Canonical) options.now.stop_after grammar.now start) }
{
    let states = build_lr1_states(alloc, grammar, start, options)?;
    if options.method == Method::Canonical {
        return collapse_to_lalr_states(alloc, states, &grammar.terminals);
    }
    Ok(states)
}
