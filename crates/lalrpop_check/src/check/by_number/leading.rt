//! Tests whether the symbols after dots lead to states that list the moved items.
ghost use Rattle.std.specs.Prelude.{◌≡◌, ◌<◌, ℕ, length, slice_get, Some, Contains, IsTrue};
ghost use Rattle.lalrpop_check.specs.check.ByNumber.{AllItemsLeadOn, ItemsLeadOn, LeadsOnByNumber};
ghost use Rattle.lalrpop_construction.specs.states.NumberedStates.{EdgesAscend};
ghost use Rattle.lalrpop_construction.specs.declared.construction.numbered_state.NumberedState.{NumberedState as ByNumbers};

use lalrpop_base::numbers::Numbers;
use lalrpop_construction::construction::numbered_state::NumberedState;
use lalrpop_follow_sets::follow_sets::edges::place_of;

// Whether binary search finds a number. The search may miss a number if the list does not rise.
fn has_number(list: &[usize], number: usize) -> bool
    ensures { IsTrue result → Contains list.now number }
{
    let mut low = 0;
    let mut high = list.len();
    while low < high {
        let middle = low + (high - low) / 2;
        if list[middle] < number {
            low = middle + 1;
        } else {
            high = middle;
        }
    }
    low < list.len() && list[low] == number
}

// Whether the symbol after the dot of an item leads to a state that lists the moved item. A dot at
// the end passes.
fn leads_on(
    numbers: &Numbers<'_>,
    states: &[NumberedState],
    edges: &[(usize, usize)],
    item: usize,
) -> bool
    requires ascend { EdgesAscend edges.now }
    requires known { item < length numbers.now.items.items }
    ensures { IsTrue result → LeadsOnByNumber numbers.now states.now edges.now item }
{
    let Some(symbol) = numbers.behind[item] else {
        return true;
    };
    let Some(place) = place_of(edges, symbol) else {
        return false;
    };
    let target = edges[place].1;
    if target >= states.len() {
        return false;
    }
    has_number(&states[target].items, item + 1)
}

// Whether the symbols after the dots of all items of a state lead to states that list the moved
// items.
fn lead_on(numbers: &Numbers<'_>, states: &[NumberedState], state: &NumberedState) -> bool
    requires { (k : ℕ) →
        Contains state.now.items.items k →
        k < length numbers.now.items.items }
    ensures { IsTrue result → ItemsLeadOn numbers.now states.now state.now }
{
    for item in &state.items {
        if !leads_on(numbers, states, &state.edges, *item) {
            return false;
        }
    }
    true
}

/// Whether the symbols after the dots of all items of all states lead to states that list the moved
/// items.
pub(super) fn all_lead_on(numbers: &Numbers<'_>, states: &[NumberedState]) -> bool
    requires { (s k : ℕ) (state : ByNumbers) →
        slice_get states.now s ≡ Some state →
        Contains state.items.items k →
        k < length numbers.now.items.items }
    ensures { IsTrue result → AllItemsLeadOn numbers.now states.now }
{
    for state in states {
        if !lead_on(numbers, states, state) {
            return false;
        }
    }
    true
}
