//! The lane method: LR(0) states whose reductions get the tokens that are found by tracing back
//! over the states.
pub mod construct;

ghost use Rattle.std.specs.Prelude.{IfOk, IfErr, MatchResult};
ghost use Rattle.lalrpop_base.specs.Words.{IsLALR1, IsOnNoRightSide, IsWellFormed, productions, rules_of};
ghost use Rattle.lalrpop_states.specs.conflicts.Failures.{TellsNotLALR1};
ghost use Rattle.lalrpop_lane_states.specs.lane_states.LaneStates.{AreLalrLaneTables};
ghost use Rattle.lalrpop_lane_states.specs.lane_states.Lr0Copies.{AreCopiedTables, FailsByCopies};

use self::construct::LaneTableConstruct;
use lalrpop_base::lr1_core::state::Lr1Result;
use lalrpop_base::repr::NonterminalString;
use lalrpop_base::repr::grammar::Grammar;
pub use lalrpop_lanes::lane_table::{context_set, have_own_items, lane, reduces_own, table};
use std::alloc::Global;

/// The lane tables of a grammar and a start symbol: the LR(0) states with the tokens of their
/// lanes. If two actions share a token, states are copied, at most `max_copies` times in all. If
/// there are no tables, the error has the states as they are then, with their conflicts. An
/// allocation failure is an error, too.
pub fn build_lane_table_states<'grammar>(
    alloc: Global,
    grammar: &'grammar Grammar,
    start: NonterminalString,
    max_copies: usize,
) -> Lr1Result<'grammar>
    requires { IsWellFormed grammar.now }
    ensures tables { IfOk result
        (λ tables. AreCopiedTables (rules_of grammar.now) start max_copies tables.items) }
    ensures failure { IfErr result (FailsByCopies (rules_of grammar.now) start max_copies) }

    // If the start symbol is on no right side, the tables of an LALR(1) grammar have no copies.
    ensures lalr { IsOnNoRightSide (productions grammar.now) start →
        MatchResult result (λ tables. IsLALR1 (productions grammar.now) start →
        AreLalrLaneTables (rules_of grammar.now) start tables.items)
        (TellsNotLALR1 (productions grammar.now) start) }
{
    let construct = LaneTableConstruct::new(alloc, grammar, start, max_copies)?;
    construct.construct(alloc)
}
