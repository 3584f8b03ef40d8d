//! Steps back without a symbol, from the start of a production to items with its nonterminal after
//! the dot.
ghost use Rattle.std.specs.Prelude.{◌≡◌, ◌<◌, OnErr, OnOk, Contains, length};
ghost use Rattle.lalrpop_base.specs.Words.{productions, rules_of, Visits};
ghost use Rattle.lalrpop_lanes.specs.lanes.LaneSteps.{Gains, GainsOf, GainsSome, GainsSomeOf, IsEnd, IsEndBit, IsFollowBit, IsAutomaton, IsHere, IsParent, IsPassedOn, IsPlaceIf, Nothing, VisitsOf};
ghost use Rattle.lalrpop_lanes.specs.lane_tables.LaneTables.{AreInRange, AreSameTables};

use super::automaton::Automaton;
use crate::lane_table::context_set::ConflictIndex;
use crate::lane_table::table::LaneTable;
use lalrpop_base::collections::walk::Walk;
use lalrpop_base::exact::equal;
use lalrpop_base::lookahead::token_set::TokenSet;
use lalrpop_base::lr1_core::item::Item;
use lalrpop_base::lr1_core::place::Place;
use lalrpop_base::lr1_core::state::StateIndex;
use lalrpop_base::memory::OutOfMemory;
use lalrpop_base::repr::NonterminalString;
use std::alloc::Global;

// Adds `Eof` to the cell of the state, if the nonterminal is the start symbol.
fn add_end<'grammar, L>(
    alloc: Global,
    automaton: &Automaton<'_, 'grammar, L>,
    name: &NonterminalString,
    state: usize,
    conflict: ConflictIndex,
    table: &mut LaneTable<'grammar>,
) -> Result<(), OutOfMemory>
    requires { conflict.index < table.old.conflicts }
    ensures gains { OnOk result (Gains conflict.index (IsEnd automaton.now.start.now name.now state)
        (IsEndBit (rules_of automaton.now.grammar.now) automaton.now.start.now name.now state)
        Nothing table.old table.new) }
    ensures err { OnErr result (AreSameTables table.old table.new) }
    ensures columns { table.new.conflicts ≡ table.old.conflicts }
    ensures in_range { AreInRange table.old → AreInRange table.new }
{
    if equal(name, automaton.start) {
        let end = TokenSet::eof(alloc, &automaton.grammar.terminals)?;
        table.add_lookahead(StateIndex(state), conflict, &end)?;
    }
    Ok(())
}

// Goes to an item of a state, if the rest of the item is nullable.
fn pass_on<'grammar, L>(
    nullable: bool,
    state: usize,
    item: &Item<'grammar, L>,
    walk: &mut Walk<Place<'grammar>>,
) -> Result<(), OutOfMemory>
    ensures { OnOk result (Visits (IsPlaceIf nullable state item.now) walk.old walk.new) }
{
    if !nullable {
        return Ok(());
    }
    let item = item.to_lr0();
    let place = Place { state, item };
    walk.visit(place.copy(), place)?;
    Ok(())
}

// Steps back to an item, if the nonterminal is after its dot. Adds FIRST of the symbols after the
// nonterminal to the cell of the state. Goes to the item if these symbols are nullable.
fn follow<'grammar, L>(
    alloc: Global,
    automaton: &Automaton<'_, 'grammar, L>,
    name: &NonterminalString,
    state: usize,
    item: &Item<'grammar, L>,
    conflict: ConflictIndex,
    table: &mut LaneTable<'grammar>,
    walk: &mut Walk<Place<'grammar>>,
) -> Result<(), OutOfMemory>
    requires there { conflict.index < table.old.conflicts }
    requires automaton { IsAutomaton automaton.now }
    requires own { Contains (productions automaton.now.grammar.now) item.now.production }
    ensures gains { OnOk result (Gains conflict.index (IsHere state (IsParent name.now item.now))
        (λ row bit. IsHere state
        (IsFollowBit (rules_of automaton.now.grammar.now) name.now item.now bit) row) Nothing
        table.old table.new) }
    ensures part { OnErr result (GainsSome conflict.index
        (IsHere state (IsParent name.now item.now)) (λ row bit. IsHere state
        (IsFollowBit (rules_of automaton.now.grammar.now) name.now item.now bit) row) Nothing
        table.old table.new) }
    ensures visits { OnOk result (Visits
        (IsPassedOn (rules_of automaton.now.grammar.now) name.now state item.now) walk.old walk.new) }
    ensures columns { table.new.conflicts ≡ table.old.conflicts }
    ensures in_range { AreInRange table.old → AreInRange table.new }
{
    if !item.can_shift_nonterminal(name) {
        return Ok(());
    }
    let rest = item.symbol_sets().suffix;
    let mut first = automaton.first_sets.first0(alloc, rest)?;
    let nullable = first.take_eof(&automaton.grammar.terminals);
    table.add_lookahead(StateIndex(state), conflict, &first)?;
    pass_on(nullable, state, item, walk)?;
    Ok(())
}

/// Steps back from a place at the start of its production to the items of its state with the
/// production's nonterminal after the dot. Adds the tokens that follow the nonterminal in these
/// items to the table.
pub(crate) fn unepsilon<'grammar, L>(
    alloc: Global,
    automaton: &Automaton<'_, 'grammar, L>,
    place: &Place<'grammar>,
    conflict: ConflictIndex,
    table: &mut LaneTable<'grammar>,
    walk: &mut Walk<Place<'grammar>>,
) -> Result<(), OutOfMemory>
    requires there { conflict.index < table.old.conflicts }
    requires automaton { IsAutomaton automaton.now }
    requires begun { place.now.item.index ≡ 0 }
    requires listed { place.now.state < length automaton.now.states.now }
    ensures gains { OnOk result
        (GainsOf automaton.now place.now conflict.index table.old table.new) }
    ensures part { OnErr result
        (GainsSomeOf automaton.now place.now conflict.index table.old table.new) }
    ensures visits { OnOk result (VisitsOf automaton.now place.now walk.old walk.new) }
    ensures columns { table.new.conflicts ≡ table.old.conflicts }
    ensures in_range { AreInRange table.old → AreInRange table.new }
{
    let name = place.name();
    let state = place.state;
    add_end(alloc, automaton, name, state, conflict, table)?;
    for item in automaton.states[state].items.vec.iter() {
        follow(alloc, automaton, name, state, item, conflict, table, walk)?;
    }
    Ok(())
}
