//! Tests whether all items of states, and actions, are of productions of a grammar. A tracer of
//! lanes requires this.
ghost use Rattle.std.specs.Prelude.{◌↔◌, Contains, IsTrue};
ghost use Rattle.lalrpop_base.specs.Words.{EachItem, IsWellFormed, productions};
ghost use Rattle.lalrpop_lanes.specs.lanes.LaneTraces.{HaveOwnItems, ReducesOwn};

use lalrpop_base::exact::contains;
use lalrpop_base::lr1_core::item::Item;
use lalrpop_base::lr1_core::state::{Action, State};
use lalrpop_base::repr::Production;
use lalrpop_base::repr::grammar::Grammar;

/// Whether each item of the states is of a production of the grammar.
pub fn have_own_items<L>(grammar: &Grammar, states: &[State<'_, L>]) -> bool
    requires { IsWellFormed grammar.now }
    ensures own { IsTrue result ↔ HaveOwnItems (productions grammar.now) states.now }
{
    for state in states {
        if !are_own_items(grammar, &state.items.vec) {
            return false;
        }
    }
    true
}

/// Whether an action is a shift, or a reduction by a production of the grammar.
pub fn reduces_own(grammar: &Grammar, action: &Action<'_>) -> bool
    requires { IsWellFormed grammar.now }
    ensures own { IsTrue result ↔ ReducesOwn (productions grammar.now) action.now }
{
    match action {
        Action::Shift(..) => true,
        Action::Reduce(production) => is_own(grammar, production),
    }
}

// Whether each of the items is of a production of the grammar.
fn are_own_items<L>(grammar: &Grammar, items: &[Item<'_, L>]) -> bool
    requires { IsWellFormed grammar.now }
    ensures own { IsTrue result ↔
        EachItem (λ item. Contains (productions grammar.now) item.production) items.now }
{
    for item in items {
        if !is_own(grammar, item.production) {
            return false;
        }
    }
    true
}

// Whether a production is one of the grammar's.
fn is_own(grammar: &Grammar, production: &Production) -> bool
    requires { IsWellFormed grammar.now }
    ensures own { IsTrue result ↔ Contains (productions grammar.now) production.now }
{
    let _names = grammar.nonterminals.len();
    contains(grammar.productions_for(&production.nonterminal), production)
}
