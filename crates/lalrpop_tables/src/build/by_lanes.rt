//! LR(1) states by the lane method: lane tables, if they pass the check.
ghost use Rattle.std.specs.Prelude.{◌≡◌, ◌<◌, length, true, IfOk, IfSome, IsSomeAnd, is_some};
ghost use Rattle.lalrpop_base.specs.Words.{AreCoherent, contents, IsOnNoRightSide, AreFaithful, IsLALR1, IsWellFormed, productions, rules_of};
ghost use Rattle.lalrpop_check.specs.Words.{PassCheck};
ghost use Rattle.lalrpop_construction.specs.Words.{lr0_of};
ghost use Rattle.lalrpop_lane_states.specs.lane_states.LaneStates.{AreLaneTables, IsReadyToConstruct};
ghost use Rattle.lalrpop_lane_states.specs.lane_states.Lr0Copies.{AreCopiedTables};
ghost use Rattle.lalrpop_tables.specs.answers.Lr1Answers.{AreBuiltTablesOf};

use lalrpop_base::lookahead::nil::Nil;
use lalrpop_base::lr1_core::state::Lr1State;
use lalrpop_base::memory::OutOfMemory;
use lalrpop_base::repr::grammar::Grammar;
use lalrpop_base::repr::{NonterminalString, is_on_no_right_side};
use lalrpop_check::check::check_over;
use lalrpop_construction::construction::lr::Lr;
use lalrpop_construction::options::Method;
use lalrpop_lane_states::lane_table::construct::LaneTableConstruct;
use std::alloc::Global;

/// The lane tables of a grammar that pass the check, if there are such; and the construction without
/// lookahead, for what is made in their place.
pub fn tables_by_lanes<'grammar>(
    alloc: Global,
    grammar: &'grammar Grammar,
    start: NonterminalString,
    max_copies: usize,
) -> Result<(Option<Vec<Lr1State<'grammar>>>, Lr<'grammar, Nil>), OutOfMemory>
    requires { IsWellFormed grammar.now }
    ensures tables { IfOk result (λ answer. IfSome answer.0 (λ tables. AreBuiltTablesOf ⊥
        Method.Lane max_copies grammar.now start tables.items)) }
    ensures lalr { IsOnNoRightSide (productions grammar.now) start →
        IsLALR1 (productions grammar.now) start →
        IfOk result (λ answer. is_some answer.0 ≡ true) }
    ensures over { IfOk result (λ answer. answer.1.construction ≡ lr0_of grammar.now start) }
{
    let construct = LaneTableConstruct::new(alloc, grammar, start, max_copies)?;
    let tables = lane_tables(alloc, &construct)?;
    Ok((tables, construct.lr))
}

// The lane tables, if there are such and they pass the check. Those that one pass over the LR(0)
// states made pass it if the start symbol is on no right side, and are not checked then.
fn lane_tables<'grammar>(
    alloc: Global,
    construct: &LaneTableConstruct<'grammar>,
) -> Result<Option<Vec<Lr1State<'grammar>>>, OutOfMemory>
    requires ready { IsReadyToConstruct construct.now }
    ensures copied { IfOk result
        (λ answer. IfSome answer (λ tables. AreCopiedTables (rules_of construct.now.grammar.now)
        construct.now.start construct.now.max_copies tables.items)) }
    ensures faithful { IfOk result (λ answer. IfSome answer (λ tables. AreFaithful
        (productions construct.now.grammar.now) construct.now.start
        (contents construct.now.grammar.now.terminals tables.items))) }
    ensures lalr { IsOnNoRightSide (productions construct.now.grammar.now) construct.now.start →
        IsLALR1 (productions construct.now.grammar.now) construct.now.start →
        IfOk result (λ answer. IsSomeAnd answer
        (λ tables. AreLaneTables (rules_of construct.now.grammar.now) construct.now.start
        tables.items)) }
{
    let Some((tables, at_once)) = construct.construct_or_none(alloc)? else {
        return Ok(None);
    };
    if at_once && is_on_no_right_side(construct.grammar, &construct.start) {
        return Ok(Some(tables));
    }
    where_checked(alloc, construct, tables)
}

// The tables, if they pass the check. The check uses the numbers and FIRST sets of the
// construction.
fn where_checked<'grammar>(
    alloc: Global,
    construct: &LaneTableConstruct<'grammar>,
    tables: Vec<Lr1State<'grammar>>,
) -> Result<Option<Vec<Lr1State<'grammar>>>, OutOfMemory>
    requires ready { IsReadyToConstruct construct.now }
    requires coherent { AreCoherent tables.items }
    requires some { 0 < length tables.items }
    ensures kept { IfOk result (λ answer. IfSome answer (λ kept. kept.items ≡ tables.entry.items)) }
    ensures faithful { IfOk result (λ answer. IfSome answer (λ kept. AreFaithful
        (productions construct.now.grammar.now) construct.now.start
        (contents construct.now.grammar.now.terminals kept.items))) }
    ensures passing { PassCheck construct.now.grammar.now construct.now.start tables.entry.items →
        IfOk result (λ answer. is_some answer ≡ true) }
{
    let start = construct.start.clone(alloc)?;
    if !check_over(alloc, construct.grammar, &construct.lr, start, &tables)? {
        return Ok(None);
    }
    Ok(Some(tables))
}
