//! The test whether states with the same dotted productions can be merged.
ghost use Rattle.std.specs.Prelude.{◌≡◌, ◌↔◌, IsTrue};
ghost use Rattle.lalrpop_collections.specs.lists.Each.{EachItem};
ghost use Rattle.lalrpop_states.specs.collapse.Collapsible.{dots_at, LeadAlike, LeadsAlike, IsAlikeTo, AreCollapsible};
ghost use Rattle.lalrpop_states.specs.states.Items.{dots};

use super::coherent::are_coherent;
use super::item::Item;
use super::state::{State, StateIndex};
use lalrpop_collections::exact::equal;
use std::collections::BTreeMap;

/// Whether the states are coherent, and whether states with the same list of dotted productions
/// lead by the same symbol to states with the same list.
///
/// The order in a list counts. Each two states are compared, so that nothing is allocated. The time
/// is quadratic in the number of states.
pub fn are_collapsible<'grammar, L>(states: &[State<'grammar, L>]) -> bool
    ensures { IsTrue result ↔ AreCollapsible states.now }
{
    are_coherent(states) && are_all_alike(states)
}

// Whether each two states lead alike if they list the same dotted productions.
fn are_all_alike<'grammar, L>(states: &[State<'grammar, L>]) -> bool
    ensures { IsTrue result ↔ EachItem (λ a. EachItem (IsAlikeTo states.now a) states.now)
        states.now }
{
    for state in states {
        if !is_alike_to_all(states, state) {
            return false;
        }
    }
    true
}

// Whether a state and each other one lead alike if they list the same dotted productions.
fn is_alike_to_all<'grammar, L>(states: &[State<'grammar, L>], state: &State<'grammar, L>) -> bool
    ensures { IsTrue result ↔ EachItem (IsAlikeTo states.now state.now) states.now }
{
    for other in states {
        if !are_alike(states, state, other) {
            return false;
        }
    }
    true
}

// Whether two states lead alike if they list the same dotted productions.
fn are_alike<'grammar, L>(
    states: &[State<'grammar, L>],
    a: &State<'grammar, L>,
    b: &State<'grammar, L>,
) -> bool
    ensures { IsTrue result ↔ IsAlikeTo states.now a.now b.now }
{
    if !have_same_dots(&a.items.vec, &b.items.vec) {
        return true;
    }
    lead_alike(states, &a.shifts, &b.shifts) && lead_alike(states, &a.gotos, &b.gotos)
}

// Whether each key that both maps have leads to the same dotted productions in both.
fn lead_alike<'grammar, K: Ord, L>(
    states: &[State<'grammar, L>],
    edges: &BTreeMap<K, StateIndex>,
    others: &BTreeMap<K, StateIndex>,
) -> bool
    ensures { IsTrue result ↔ LeadAlike K.cmp states.now edges.now.entries others.now }
{
    for (key, target) in edges.iter() {
        if !leads_alike(states, key, *target, others) {
            return false;
        }
    }
    true
}

// Whether a key leads to the same dotted productions as in the other map, if that has the key.
fn leads_alike<'grammar, K: Ord, L>(
    states: &[State<'grammar, L>],
    key: &K,
    target: StateIndex,
    others: &BTreeMap<K, StateIndex>,
) -> bool
    ensures { IsTrue result ↔ LeadsAlike K.cmp states.now others.now key.now target }
{
    match others.get(key) {
        Some(other) => are_same_at(states, target.0, other.0),
        None => true,
    }
}

// Whether the states with two numbers have the same dotted productions.
fn are_same_at<'grammar, L>(states: &[State<'grammar, L>], a: usize, b: usize) -> bool
    ensures { IsTrue result ↔ (dots_at states.now a ≡ dots_at states.now b) }
{
    have_same_dots(items_at(states, a), items_at(states, b))
}

// The items of the state with a number, or none if there is no such state.
fn items_at<'states, 'grammar, L>(
    states: &'states [State<'grammar, L>],
    number: usize,
) -> &'states [Item<'grammar, L>]
    ensures { dots result.now ≡ dots_at states.now number }
{
    if number < states.len() {
        &states[number].items.vec
    } else {
        &[]
    }
}

// Whether two lists of items have the same dotted productions in the same order.
fn have_same_dots<'grammar, L>(a: &[Item<'grammar, L>], b: &[Item<'grammar, L>]) -> bool
    ensures { IsTrue result ↔ (dots a.now ≡ dots b.now) }
{
    if a.len() != b.len() {
        return false;
    }
    for place in 0..a.len() {
        if !is_same_dot(&a[place], &b[place]) {
            return false;
        }
    }
    true
}

// Whether two items have the same dotted production.
fn is_same_dot<'grammar, L>(a: &Item<'grammar, L>, b: &Item<'grammar, L>) -> bool
    ensures { IsTrue result ↔
        ((a.now.production ≡ b.now.production) × (a.now.index ≡ b.now.index)) }
{
    a.index == b.index && equal(a.production, b.production)
}
