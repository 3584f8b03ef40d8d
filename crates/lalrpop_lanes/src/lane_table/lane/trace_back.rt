//! Traces a place back, over edges and to the items that expand to a nonterminal.
ghost use Rattle.std.specs.Prelude.{◌≡◌, ◌<◌, OnErr, OnOk, Contains, length};
ghost use Rattle.lalrpop_base.specs.Words.{productions, rules_of};
ghost use Rattle.lalrpop_lanes.specs.lanes.LaneSteps.{AreExpanded, GainsAll, GainsOf, GainsSomeOf, GainsSomeOfAll, IsEndPlace, IsAutomaton, VisitsOf};
ghost use Rattle.lalrpop_lanes.specs.lane_tables.LaneTables.{AreInRange};
ghost use Rattle.lalrpop_lanes.specs.lanes.LaneTraces.{TakesLane, TakesPartOfLane};
ghost use Rattle.lalrpop_construction.specs.states.SamePlaces.{places_in};

use super::automaton::Automaton;
use super::expanded::Expanded;
use super::unepsilon::unepsilon;
use super::unshift::unshift;
use crate::lane_table::context_set::ConflictIndex;
use crate::lane_table::table::LaneTable;
use lalrpop_base::collections::sets::add_key;
use lalrpop_base::collections::walk::Walk;
use lalrpop_base::lookahead::token_set::TokenSet;
use lalrpop_base::lr1_core::item::Item;
use lalrpop_base::lr1_core::place::Place;
use lalrpop_base::lr1_core::state::StateIndex;
use lalrpop_base::memory::OutOfMemory;
use lalrpop_base::repr::Production;
use std::alloc::Global;
use std::collections::BTreeSet;

// Steps back from a place. From the starts of the productions of one nonterminal in a state it
// steps back only once.
fn step<'grammar, L>(
    alloc: Global,
    automaton: &Automaton<'_, 'grammar, L>,
    place: &Place<'grammar>,
    conflict: ConflictIndex,
    table: &mut LaneTable<'grammar>,
    walk: &mut Walk<Place<'grammar>>,
    expanded: &mut BTreeSet<Expanded<'grammar>>,
) -> Result<(), OutOfMemory>
    requires there { conflict.index < table.old.conflicts }
    requires automaton { IsAutomaton automaton.now }
    requires listed { place.now.state < length automaton.now.states.now }
    requires expanded { AreExpanded automaton.now conflict.index table.old walk.old
        expanded.old.keys }
    ensures gains { OnOk result
        (GainsOf automaton.now place.now conflict.index table.old table.new) }
    ensures part { OnErr result
        (GainsSomeOf automaton.now place.now conflict.index table.old table.new) }
    ensures visits { OnOk result (VisitsOf automaton.now place.now walk.old walk.new) }
    ensures expanded { OnOk result
        (AreExpanded automaton.now conflict.index table.new walk.new expanded.new.keys) }
    ensures columns { table.new.conflicts ≡ table.old.conflicts }
    ensures in_range { AreInRange table.old → AreInRange table.new }
{
    if place.is_past_start() {
        unshift(automaton, place, table, walk)?;
        return Ok(());
    }
    if !add_key(expanded, Expanded::at(place))? {
        return Ok(());
    }
    unepsilon(alloc, automaton, place, conflict, table, walk)?;
    Ok(())
}

// Traces the end of a production back. The cells and successors of all places to which it leads are
// added to the table.
fn trace_back<'grammar, L>(
    alloc: Global,
    automaton: &Automaton<'_, 'grammar, L>,
    first: Place<'grammar>,
    conflict: ConflictIndex,
    table: &mut LaneTable<'grammar>,
) -> Result<(), OutOfMemory>
    requires there { conflict.index < table.old.conflicts }
    requires automaton { IsAutomaton automaton.now }
    requires end { IsEndPlace automaton.now first }
    ensures gains { OnOk result
        (GainsAll automaton.now first.entry conflict.index table.old table.new) }
    ensures part { OnErr result
        (GainsSomeOfAll automaton.now first.entry conflict.index table.old table.new) }
    ensures columns { table.new.conflicts ≡ table.old.conflicts }
    ensures in_range { AreInRange table.old → AreInRange table.new }
{
    let mut walk = Walk::new(alloc);
    walk.visit(first.copy(), first)?;
    let mut expanded = BTreeSet::new(alloc);
    while let Some(place) = walk.waiting.pop_front() {
        step(
            alloc,
            automaton,
            &place,
            conflict,
            table,
            &mut walk,
            &mut expanded,
        )?;
    }
    Ok(())
}

/// Takes the lane of a reduction from a state into a column. The cell of the state itself is made
/// first, and may stay empty.
pub(crate) fn take_lane<'grammar, L>(
    alloc: Global,
    automaton: &Automaton<'_, 'grammar, L>,
    state: StateIndex,
    production: &'grammar Production,
    conflict: ConflictIndex,
    table: &mut LaneTable<'grammar>,
) -> Result<(), OutOfMemory>
    requires there { conflict.index < table.old.conflicts }
    requires automaton { IsAutomaton automaton.now }
    requires own { Contains (productions automaton.now.grammar.now) production.now }
    requires listed { state.0 < length automaton.now.states.now }
    ensures taken { OnOk result (TakesLane
        (rules_of automaton.now.grammar.now) automaton.now.start.now
        (places_in automaton.now.states.now) state production.now conflict.index table.old
        table.new) }
    ensures part { OnErr result (TakesPartOfLane (rules_of automaton.now.grammar.now)
        automaton.now.start.now
        (places_in automaton.now.states.now) state production.now conflict.index
        table.old table.new) }
    ensures columns { table.new.conflicts ≡ table.old.conflicts }
    ensures in_range { AreInRange table.old → AreInRange table.new }
{
    let none = TokenSet::new(alloc, &automaton.grammar.terminals);
    table.add_lookahead(state, conflict, &none)?;
    let item = Item::lr0(production, production.symbols.len());
    let first = Place {
        state: state.0,
        item,
    };
    trace_back(alloc, automaton, first, conflict, table)?;
    Ok(())
}
