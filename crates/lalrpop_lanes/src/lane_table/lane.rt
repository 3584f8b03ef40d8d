//! Traces actions back over the states, into a lane table.
mod automaton;
mod expanded;
mod trace_back;
mod unepsilon;
mod unshift;

ghost use Rattle.std.specs.Prelude.{◌≡◌, ◌<◌, ◌↔◌, ℕ, true, length, slice_get, Some, IfOk, OnErr, OnOk};
ghost use Rattle.lalrpop_base.specs.Words.{has, AreCoherent, IsWellFormed, productions, rules_of};
ghost use Rattle.lalrpop_lanes.specs.lane_tables.LaneTables.{IsEmptyTable};
ghost use Rattle.lalrpop_lanes.specs.lanes.LaneTraces.{HaveOwnItems, IsReadyToTrace, ReducesOwn, TakesAction, TakesPartOfAction};
ghost use Rattle.lalrpop_construction.specs.states.SamePlaces.{places_in};
ghost use Rattle.lalrpop_state_graph.specs.graphs.StateGraph.{edges, IsGraphOf};

use self::automaton::Automaton;
use self::trace_back::take_lane;
use super::context_set::ConflictIndex;
use super::table::LaneTable;
use lalrpop_base::first::FirstSets;
use lalrpop_base::lookahead::token::Token;
use lalrpop_base::lookahead::token_set::TokenSet;
use lalrpop_base::lr1_core::state::{Action, State, StateIndex};
use lalrpop_base::memory::OutOfMemory;
use lalrpop_base::repr::grammar::Grammar;
use lalrpop_base::repr::terminals::TerminalSet;
use lalrpop_base::repr::{NonterminalString, TerminalString};
use lalrpop_state_graph::state_graph::StateGraph;
use std::alloc::Global;

/// Traces actions over coherent states of a grammar, with the graph of these states and the FIRST
/// sets of the grammar. Each action has a column of the lane table.
#[derive(Drop)]
pub struct LaneTracer<'trace, 'grammar, L> {
    grammar: &'grammar Grammar,
    start: NonterminalString,
    states: &'trace [State<'grammar, L>],
    first_sets: &'trace FirstSets<'grammar>,
    state_graph: &'trace StateGraph,
    table: LaneTable<'grammar>,
}

impl<'trace, 'grammar, L> LaneTracer<'trace, 'grammar, L> {
    /// A tracer whose table has no rows yet. `conflicts` is the number of actions, which have a
    /// column each.
    pub fn new(
        alloc: Global,
        grammar: &'grammar Grammar,
        start: NonterminalString,
        states: &'trace [State<'grammar, L>],
        first_sets: &'trace FirstSets<'grammar>,
        state_graph: &'trace StateGraph,
        conflicts: usize,
    ) -> Self
        requires well_formed { IsWellFormed grammar.now }
        requires coherent { AreCoherent states.now }
        requires own { HaveOwnItems (productions grammar.now) states.now }
        requires firsts { first_sets.now ≡ rules_of grammar.now }
        requires graph { IsGraphOf (edges states.now) state_graph.now }
        ensures ready { IsReadyToTrace result }
        ensures over { (result.grammar.now ≡ grammar.now) × (result.start ≡ start) ×
            (result.states.now ≡ states.now) }
        ensures empty { IsEmptyTable result.table }
        ensures columns { result.table.conflicts ≡ conflicts }
    {
        LaneTracer {
            grammar,
            start,
            states,
            first_sets,
            state_graph,
            table: LaneTable::new(alloc, grammar, conflicts),
        }
    }

    /// Traces an action of a state into a column. A shift gets its terminal, in the row of the
    /// state. A reduction gets the tokens of its lane. If an allocation fails, the result is
    /// `OutOfMemory`. The table then keeps its old contents, and may have a part of the lane.
    pub fn start_trace(
        &mut self,
        alloc: Global,
        state: StateIndex,
        conflict: ConflictIndex,
        action: Action<'grammar>,
    ) -> Result<(), OutOfMemory>
        requires ready { IsReadyToTrace self.old }
        requires there { conflict.index < self.old.table.conflicts }
        requires own { ReducesOwn (productions self.old.grammar.now) action }
        requires listed { state.0 < length self.old.states.now }
        ensures traced { OnOk result (TakesAction (rules_of self.old.grammar.now) self.old.start
            (places_in self.old.states.now) state conflict.index action.entry self.old.table
            self.new.table) }
        ensures part { OnErr result (TakesPartOfAction (rules_of self.old.grammar.now)
            self.old.start (places_in self.old.states.now) state conflict.index action.entry
            self.old.table self.new.table) }
        ensures ready { IsReadyToTrace self.new }
        ensures over { (self.new.grammar.now ≡ self.old.grammar.now) ×
            (self.new.start ≡ self.old.start) × (self.new.states.now ≡ self.old.states.now) ×
            (self.new.table.conflicts ≡ self.old.table.conflicts) }
    {
        match action {
            Action::Shift(terminal, _) => {
                let tokens = shifted(alloc, &self.grammar.terminals, terminal)?;
                self.table.add_lookahead(state, conflict, &tokens)?;
                Ok(())
            }
            Action::Reduce(production) => {
                let automaton = Automaton {
                    grammar: self.grammar,
                    start: &self.start,
                    states: self.states,
                    first_sets: self.first_sets,
                    state_graph: self.state_graph,
                };
                take_lane(
                    alloc,
                    &automaton,
                    state,
                    production,
                    conflict,
                    &mut self.table,
                )?;
                Ok(())
            }
        }
    }

    /// Ends the tracing, and returns the table.
    pub fn into_table(self) -> LaneTable<'grammar>
        ensures table { result ≡ self.entry.table }
    {
        let LaneTracer { table, .. } = self;
        table
    }
}

// The set of the terminal of a shift, or the empty set, if the terminal is not in the list.
fn shifted(
    alloc: Global,
    terminals: &TerminalSet,
    terminal: TerminalString,
) -> Result<TokenSet, OutOfMemory>
    ensures { IfOk result
        (λ set. (bit : ℕ) → (has set bit ≡ true) ↔ (slice_get terminals.now bit ≡ Some terminal)) }
{
    match terminals.bit(&terminal) {
        Some(_) => Ok(TokenSet::of(alloc, Token::Terminal(terminal), terminals)?),
        None => Ok(TokenSet::new(alloc, terminals)),
    }
}
