//! Tests whether the states and the conflicts of an error are over the productions of a grammar.
//! The explanation of conflicts requires this.
ghost use Rattle.std.specs.Prelude.{◌↔◌, IsTrue};
ghost use Rattle.lalrpop_base.specs.Words.{IsWellFormed, productions, rules_of};
ghost use Rattle.lalrpop_explain.specs.explained.OwnErrors.{AreOwnConflicts, AreOwnStates, IsOwnConflict, IsOwnError};

use lalrpop_base::lr1_core::state::{Action, Lr1Conflict, Lr1State, Lr1TableConstructionError};
use lalrpop_base::repr::grammar::Grammar;
use lalrpop_lanes::lane_table::{have_own_items, reduces_own};

/// Whether the states and the conflicts of an error are over the productions of the grammar.
pub fn is_own_error(grammar: &Grammar, error: &Lr1TableConstructionError<'_>) -> bool
    requires { IsWellFormed grammar.now }
    ensures own { IsTrue result ↔ IsOwnError (rules_of grammar.now) error.now }
{
    if !are_own_states(grammar, &error.states) {
        return false;
    }
    are_own_conflicts(grammar, &error.conflicts)
}

/// Whether each item of the states is of a production of the grammar.
pub fn are_own_states(grammar: &Grammar, states: &[Lr1State<'_>]) -> bool
    requires { IsWellFormed grammar.now }
    ensures own { IsTrue result ↔ AreOwnStates (rules_of grammar.now) states.now }
{
    have_own_items(grammar, states)
}

// Whether the reductions of each of the conflicts are by productions of the grammar.
fn are_own_conflicts(grammar: &Grammar, conflicts: &[Lr1Conflict<'_>]) -> bool
    requires { IsWellFormed grammar.now }
    ensures own { IsTrue result ↔ AreOwnConflicts (productions grammar.now) conflicts.now }
{
    for conflict in conflicts {
        if !is_own_conflict(grammar, conflict) {
            return false;
        }
    }
    true
}

/// Whether the reductions of a conflict are by productions of the grammar.
pub fn is_own_conflict(grammar: &Grammar, conflict: &Lr1Conflict<'_>) -> bool
    requires { IsWellFormed grammar.now }
    ensures own { IsTrue result ↔ IsOwnConflict (productions grammar.now) conflict.now }
{
    let reduction = Action::Reduce(conflict.production);
    if !reduces_own(grammar, &reduction) {
        return false;
    }
    reduces_own(grammar, &conflict.action)
}
