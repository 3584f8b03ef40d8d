//! The graphs of reductions, each made once for all conflicts of the reduction in a state.
ghost use Rattle.std.specs.Prelude.{◌≡◌, List, true, false, [], Contains, IfSome};
ghost use Rattle.lalrpop_base.specs.Words.{Bits, Rules};
ghost use Rattle.lalrpop_explain.specs.explained.KeptGraphs.{AreKept, IsKeptGraph, IsLike, IsReductionGraph};
ghost use Rattle.lalrpop_states.specs.declared.lr1_core.state.State.{State};
ghost use Rattle.lalrpop_traces.specs.Words.{dotted, item_node, paths};

use lalrpop_base::exact::equal;
use lalrpop_base::lr1_core::item::Lr1Item;
use lalrpop_base::lr1_core::state::StateIndex;
use lalrpop_base::memory::OutOfMemory;
use lalrpop_base::repr::Production;
use lalrpop_traces::trace::TraceGraph;
use std::alloc::Global;
use std::collections::BTreeMap;

// How many graphs may be kept beside those of one state.
const MOST_KEPT: usize = 64;

/// The graph of how a state came to have an item that is reduced, the states in which the item
/// began, and whether a path of the graph leads back to an item.
#[derive(Drop)]
pub(crate) struct KeptGraph<'grammar> {
    pub(crate) state: StateIndex,
    pub(crate) production: &'grammar Production,
    pub(crate) index: usize,
    pub(crate) sources: Vec<StateIndex>,
    pub(crate) graph: TraceGraph<'grammar>,
    pub(crate) has_path: bool,
}

/// The graphs of reductions of a state, and some of earlier ones. The graph of a reduction is looked
/// up by the action of its production.
#[derive(Drop)]
pub struct KeptGraphs<'grammar> {
    alloc: Global,
    state: StateIndex,
    graphs: Vec<KeptGraph<'grammar>>,
    places: BTreeMap<usize, usize>,
}

impl<'grammar> KeptGraphs<'grammar> {
    /// No graph.
    pub fn new(alloc: Global) -> Self
        ensures none { (g : Rules) (states : List (State Bits)) → AreKept g states result }
    {
        KeptGraphs {
            alloc,
            state: StateIndex(0),
            graphs: Vec::new(alloc),
            places: BTreeMap::new(alloc),
        }
    }

    /// The graph of an item in a state, if it is kept.
    pub(crate) fn find(
        &self,
        state: StateIndex,
        item: &Lr1Item<'grammar>,
    ) -> Option<&KeptGraph<'grammar>>
        ensures found { IfSome result (λ one. (g : Rules) (states : List (State Bits)) →
            AreKept g states self.now →
            IsReductionGraph g states state (dotted item.now.production item.now.index)
            one.now.graph) }
        ensures paths { IfSome result (λ one. (g : Rules) (states : List (State Bits)) →
            AreKept g states self.now →
            one.now.has_path ≡ false →
            paths one.now.graph (item_node item.now) ≡ []) }
    {
        let place = *self.places.get(&item.production.action.index())?;
        if place >= self.graphs.len() {
            return None;
        }
        let kept = &self.graphs[place];
        if is_kept_for(kept, state, item) {
            return Some(kept);
        }
        None
    }

    /// A graph of which only the first edge differs from that of the item, which began in the
    /// states.
    pub(crate) fn find_like(
        &self,
        item: &Lr1Item<'grammar>,
        sources: &[StateIndex],
    ) -> Option<&KeptGraph<'grammar>>
        ensures like { IfSome result (λ kept. IsLike kept.now item.now sources.now) }
        ensures kept { IfSome result (λ kept. (g : Rules) (states : List (State Bits)) →
            AreKept g states self.now →
            IsKeptGraph g states kept.now) }
    {
        let kept = first_like(&self.graphs, item, sources)?;
        Some(kept)
    }

    /// Keeps a graph.
    pub(crate) fn keep(&mut self, one: KeptGraph<'grammar>) -> Result<(), OutOfMemory>
        ensures kept { (g : Rules) (states : List (State Bits)) →
            AreKept g states self.old →
            IsKeptGraph g states one.entry →
            AreKept g states self.new }
    {
        self.make_room(one.state);
        self.places
            .insert(one.production.action.index(), self.graphs.len())?;
        self.graphs.push(one)?;
        Ok(())
    }

    // Drops the graphs if they are many, and those of another state.
    fn make_room(&mut self, state: StateIndex)
        ensures kept { (g : Rules) (states : List (State Bits)) →
            AreKept g states self.old →
            AreKept g states self.new }
    {
        if self.state.0 != state.0 {
            self.state = state;
            if self.graphs.len() >= MOST_KEPT {
                self.graphs.clear();
            }
        }
    }
}

// Whether a graph is that of an item in a state.
fn is_kept_for(kept: &KeptGraph<'_>, state: StateIndex, item: &Lr1Item<'_>) -> bool
    ensures state { result ≡ true → kept.now.state ≡ state }
    ensures production { result ≡ true → kept.now.production.now ≡ item.now.production }
    ensures index { result ≡ true → kept.now.index ≡ item.now.index }
{
    if kept.state.0 != state.0 {
        return false;
    }
    if kept.index != item.index {
        return false;
    }
    equal(kept.production, item.production)
}

// The first graph of which only the first edge differs from that of an item, which began in the
// states.
fn first_like<'a, 'grammar>(
    graphs: &'a [KeptGraph<'grammar>],
    item: &Lr1Item<'grammar>,
    sources: &[StateIndex],
) -> Option<&'a KeptGraph<'grammar>>
    ensures like { IfSome result (λ kept. IsLike kept.now item.now sources.now) }
    ensures one { IfSome result (λ kept. Contains graphs.now kept.now) }
{
    for kept in graphs {
        if is_like(kept, item, sources) {
            return Some(kept);
        }
    }
    None
}

// Whether only the first edge of a graph differs from that of an item, which began in the states.
fn is_like(kept: &KeptGraph<'_>, item: &Lr1Item<'_>, sources: &[StateIndex]) -> bool
    ensures like { result ≡ true → IsLike kept.now item.now sources.now }
{
    if item.can_shift() {
        return false;
    }
    if kept.index < kept.production.symbols.len() {
        return false;
    }
    if !equal(&kept.production.nonterminal, &item.production.nonterminal) {
        return false;
    }
    are_same(&kept.sources, sources)
}

// Whether two lists of states are equal.
fn are_same(a: &[StateIndex], b: &[StateIndex]) -> bool
    ensures { result ≡ true → a.now ≡ b.now }
{
    a == b
}
