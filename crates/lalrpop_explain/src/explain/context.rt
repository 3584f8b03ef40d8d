//! The states and sets that examples are made from.
ghost use Rattle.std.specs.Prelude.{◌≡◌, slice_get};
ghost use Rattle.lalrpop_traces.specs.Words.{items_at};

use lalrpop_base::first::FirstSets;
use lalrpop_base::lr1_core::item::Lr1Item;
use lalrpop_base::lr1_core::state::{Lr1State, StateIndex};
use lalrpop_traces::trace::Tracer;

/// States, the FIRST sets of their grammar, and the tracer over the states.
#[derive(Drop)]
pub(crate) struct Context<'a, 'grammar> {
    pub(crate) states: &'a [Lr1State<'grammar>],
    pub(crate) first_sets: &'a FirstSets<'grammar>,
    pub(crate) tracer: Tracer<'a, 'grammar>,
    ghost traced_states: { tracer.context.states.now ≡ states.now },
    ghost traced_rules: { tracer.context.first_sets.now ≡ first_sets.now },
}

/// The items of a state. The list is empty if there is no such state.
pub(crate) fn items_in<'a, 'grammar>(
    states: &'a [Lr1State<'grammar>],
    state: StateIndex,
) -> &'a [Lr1Item<'grammar>]
    ensures { result.now ≡ items_at (slice_get states.now state.0) }
{
    if state.0 < states.len() {
        return states[state.0].items.vec.as_slice();
    }
    &[]
}
