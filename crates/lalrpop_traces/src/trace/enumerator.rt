//! The paths from an item back to the first item that they meet, one by one.
ghost use Rattle.std.specs.Prelude.{◌≡◌, ◌⊎◌, ◌+◌, ◌<◌, ◌≤◌, ℕ, length, true, false, [], ◌∷◌, ◌++◌, Contains, IfSome, IsNone, IfOk, OnOk, OnErr, List, slice_get};
ghost use Rattle.std.specs.Iterator.{at_most};
ghost use Rattle.lalrpop_traces.specs.traces.Examples.{IsExampleOf, SpellsDerivation, CarryRightSides, path_of, following, suffixes};
ghost use Rattle.lalrpop_grammar.specs.declared.repr.Production.{Production};
ghost use Rattle.lalrpop_base.specs.Words.{IsFirstSet};
ghost use Rattle.lalrpop_traces.specs.traces.TraceGraphs.{AreKnownEdges, node_count};
ghost use Rattle.lalrpop_traces.specs.traces.Paths.{IsPath, comes_again, is_item, item_node, paths, source};
ghost use Rattle.lalrpop_traces.specs.traces.Walks.{frames, numbers_at, load, edge_weight, bound, IsEnded, remaining, to_come, paths_over, GoesTo, GivesNext, HasNoToken};

use super::can_meet::can_meet;
use super::ends::{can_end, has_passed};
use super::example::Example;
use super::node::TraceGraphNode;
use super::spelling::{example_of, first_of};
use super::trace_graph::TraceGraph;
use lalrpop_base::first::FirstSets;
use lalrpop_base::lookahead::token_set::TokenSet;
use lalrpop_base::lr1_core::item::Lr0Item;
use lalrpop_base::memory::OutOfMemory;
use std::alloc::Global;

/// The number of an edge that was taken, and how many of the edges to its target are left.
#[derive(Drop)]
pub(crate) struct EnumeratorState {
    pub(crate) number: usize,
    pub(crate) left: usize,
}

/// A walk backwards over the edges of a graph, the newest first. It has a current path from an item
/// back to the first item, or is at its end. A path passes no nonterminal twice. The iterator gives
/// the examples of the paths.
#[derive(Drop)]
pub struct PathEnumerator<'graph, 'grammar> {
    alloc: Global,
    graph: &'graph TraceGraph<'grammar>,
    start: TraceGraphNode<'grammar>,
    left: usize,
    stack: Vec<EnumeratorState>,
    // how many edges were taken since the last path
    steps: usize,
    refused: bool,
}

impl<'graph, 'grammar> PathEnumerator<'graph, 'grammar> {
    pub(crate) fn new(
        alloc: Global,
        graph: &'graph TraceGraph<'grammar>,
        item: Lr0Item<'grammar>,
    ) -> Result<Self, OutOfMemory>
        ensures graph { IfOk result (λ walk. walk.graph.now ≡ graph.now) }
        ensures paths { IfOk result
            (λ walk. to_come walk ≡ paths graph.now (item_node item.entry)) }
        ensures refused { IfOk result (λ walk. walk.refused ≡ false) }
    {
        let start = TraceGraphNode::Item(item);
        let left = graph.numbers_to(&start).len();
        let mut walk = PathEnumerator {
            alloc,
            graph,
            start,
            left,
            stack: Vec::new(alloc),
            steps: 0,
            refused: false,
        };
        walk.advance()?;
        Ok(walk)
    }

    /// Goes on to the next path. The result is whether there is one. After an allocation failure
    /// the walk is at its end.
    pub fn advance(&mut self) -> Result<bool, OutOfMemory>
        ensures graph { self.new.graph.now ≡ self.old.graph.now }
        ensures start { self.new.start ≡ self.old.start }
        ensures refused { self.new.refused ≡ self.old.refused }
        ensures ended { IfOk result (λ found. found ≡ false → IsEnded self.new) }
        ensures standing { IfOk result (λ found. found ≡ true → IsEnded self.new → ⊥) }
        ensures next { OnOk result (to_come self.new ≡ remaining self.old) }
        ensures none { IfOk result (λ found. found ≡ false → remaining self.new ≡ []) }
        ensures falls { IfOk result (λ found. found ≡ true → load self.new < load self.old) }
        ensures err { OnErr result (IsEnded self.new) }
        ensures err_none { OnErr result (to_come self.new ≡ []) }
        ensures err_behind { OnErr result (remaining self.new ≡ []) }
    {
        while let Some(number) = self.next_edge() {
            if self.take(number)? {
                return Ok(true);
            }
        }
        self.stop();
        Ok(false)
    }

    /// Whether the walk has a current path.
    pub fn found_trace(&self) -> bool
        ensures ended { result ≡ false → IsEnded self.now }
        ensures standing { result ≡ true → IsEnded self.now → ⊥ }
    {
        !self.stack.is_empty()
    }

    // Whether the walk has a current path, and no allocation failure to report.
    pub(crate) fn can_skip(&self) -> bool
        ensures ready { result ≡ true → self.now.refused ≡ false }
        ensures standing { result ≡ true → IsEnded self.now → ⊥ }
        ensures neither { result ≡ false → (self.now.refused ≡ true) ⊎ IsEnded self.now }
    {
        if self.refused {
            return false;
        }
        self.found_trace()
    }

    /// The next edge that is left. Nodes to which no edge is left are popped.
    pub(crate) fn next_edge(&mut self) -> Option<usize>
        ensures graph { self.new.graph.now ≡ self.old.graph.now }
        ensures refused { self.new.refused ≡ self.old.refused }
        ensures start { self.new.start ≡ self.old.start }
        ensures taken { IfSome result
            (λ number. load self.new + edge_weight self.new number ≤ load self.old) }
        ensures paths { IfSome result
            (λ number. paths_over self.new number ++ remaining self.new ≡ remaining self.old) }
        ensures none { IsNone result → remaining self.old ≡ [] }
    {
        loop {
            if self.left > 0 {
                self.left -= 1;
                if let Some(number) = self.number() {
                    return Some(number);
                }
            } else {
                let state = self.stack.pop()?;
                self.left = state.left;
            }
        }
    }

    // The number of the edge to the newest node at the place `left`.
    fn number(&self) -> Option<usize>
        ensures { result ≡ slice_get
            (numbers_at self.now.graph.now self.now.start (frames self.now)) self.now.left }
    {
        match self.stack.last() {
            Some(state) => self.graph.number_from(state.number, self.left),
            None => self.graph.number_to(&self.start, self.left),
        }
    }

    /// Takes an edge. The result is whether the edge comes from an item, which completes a path. An
    /// edge from a nonterminal is not taken if that was passed, or if no path goes on over the edge.
    pub(crate) fn take(&mut self, number: usize) -> Result<bool, OutOfMemory>
        ensures graph { self.new.graph.now ≡ self.old.graph.now }
        ensures refused { self.new.refused ≡ self.old.refused }
        ensures start { self.new.start ≡ self.old.start }
        ensures falls { OnOk result (load self.new < load self.old + edge_weight self.old number) }
        ensures standing { IfOk result (λ found. found ≡ true → IsEnded self.new → ⊥) }
        ensures found { IfOk result (λ found. found ≡ true →
            paths_over self.old number ++ remaining self.old ≡ to_come self.new) }
        ensures on { IfOk result (λ found. found ≡ false →
            paths_over self.old number ++ remaining self.old ≡ remaining self.new) }
        ensures err { OnErr result (IsEnded self.new) }
        ensures err_none { OnErr result (to_come self.new ≡ []) }
        ensures err_behind { OnErr result (remaining self.new ≡ []) }
    {
        if self.graph.comes_from_item(number) {
            self.enter(number)?;
            self.steps = 0;
            return Ok(true);
        }
        if self.passes(number) {
            return Ok(false);
        }
        let Ok(leads) = self.leads_on(number) else {
            self.stop();
            return Err(OutOfMemory);
        };
        if !leads {
            return Ok(false);
        }
        self.enter(number)?;
        self.steps = self.steps.saturating_add(1);
        self.left = self.graph.count_from(number);
        Ok(false)
    }

    // Whether the path has passed the source of an edge, or as many nodes as the graph has.
    fn passes(&self, number: usize) -> bool
        ensures room { result ≡ false → length (frames self.now) < node_count self.now.graph.now }
        ensures new { result ≡ false →
            comes_again self.now.graph.now number (path_of (frames self.now)) ≡ false }
        ensures again { result ≡ true →
            (node_count self.now.graph.now ≤ length (frames self.now)) ⊎
            (comes_again self.now.graph.now number (path_of (frames self.now)) ≡ true) }
    {
        if self.stack.len() >= self.graph.len() {
            return true;
        }
        has_passed(self.graph, &self.stack, number)
    }

    // Whether a path can come to an end over an edge from a nonterminal. The search costs more than
    // a step. So it begins after as many steps without a path as there are edges.
    fn leads_on(&self, number: usize) -> Result<bool, OutOfMemory>
        requires nonterminal { is_item (source self.now.graph.now number) ≡ false }
        ensures none { IfOk result (λ leads. leads ≡ false → paths_over self.now number ≡ []) }
    {
        if self.steps < self.graph.edges().len() {
            return Ok(true);
        }
        let leads = can_end(self.alloc, self.graph, &self.stack, number)?;
        Ok(leads)
    }

    // Pushes an edge on the stack, with no edge left to its source. After an allocation failure the
    // walk is at its end.
    fn enter(&mut self, number: usize) -> Result<(), OutOfMemory>
        ensures graph { self.new.graph.now ≡ self.old.graph.now }
        ensures refused { self.new.refused ≡ self.old.refused }
        ensures start { self.new.start ≡ self.old.start }
        ensures frames { OnOk result
            (frames self.new ≡ record { number = number; left = self.old.left } ∷ frames self.old) }
        ensures left { self.new.left ≡ 0 }
        ensures err { OnErr result (IsEnded self.new) }
        ensures err_none { OnErr result (to_come self.new ≡ []) }
        ensures err_behind { OnErr result (remaining self.new ≡ []) }
    {
        let state = EnumeratorState {
            number,
            left: self.left,
        };
        if self.stack.push(state).is_err() {
            self.stop();
            return Err(OutOfMemory);
        }
        self.left = 0;
        Ok(())
    }

    /// Ends the walk: no path is left.
    pub(crate) fn stop(&mut self)
        ensures graph { self.new.graph.now ≡ self.old.graph.now }
        ensures start { self.new.start ≡ self.old.start }
        ensures left { self.new.left ≡ 0 }
        ensures refused { self.new.refused ≡ self.old.refused }
        ensures ended { IsEnded self.new }
        ensures none { to_come self.new ≡ [] }
        ensures behind { remaining self.new ≡ [] }
    {
        self.left = 0;
        self.stack.clear();
    }

    /// Whether a path that goes on over an edge can meet a lookahead after the path so far.
    pub(crate) fn can_meet(
        &self,
        first_sets: &FirstSets<'grammar>,
        lookahead: &TokenSet,
        number: usize,
    ) -> Result<bool, OutOfMemory>
        requires known { AreKnownEdges first_sets.now.terminals self.now.graph.now.edges }
        ensures none { IfOk result (λ can. can ≡ false → (rest : List ℕ) →
            Contains (paths_over self.now number) (path_of self.now.stack.items ++ rest) →
            HasNoToken first_sets.now lookahead.now (suffixes self.now.graph.now rest)) }
    {
        let can = can_meet(
            self.alloc,
            first_sets,
            lookahead,
            self.graph,
            &self.stack,
            number,
        )?;
        Ok(can)
    }

    /// How many edges the graph has.
    pub(crate) fn edge_count(&self) -> usize {
        self.graph.edges().len()
    }

    /// FIRST of the symbols from the cursor of the path's example on. The error is `OutOfMemory` if
    /// an allocation fails.
    pub fn first0(
        &self,
        alloc: Global,
        first_sets: &FirstSets<'grammar>,
    ) -> Result<TokenSet, OutOfMemory>
        requires known { AreKnownEdges first_sets.now.terminals self.now.graph.now.edges }
        ensures first { IfOk result (IsFirstSet first_sets.now
            (following self.now.graph.now (path_of self.now.stack.items))) }
    {
        first_of(alloc, first_sets, self.graph, &self.stack)
    }

    /// The example that the path spells. The error is `OutOfMemory` if an allocation fails.
    pub fn example(&self, alloc: Global) -> Result<Example, OutOfMemory>
        ensures spelled { IfOk result
            (IsExampleOf self.now.graph.now (path_of self.now.stack.items)) }
        ensures derivation { IfOk result (λ example. (productions : List Production) →
            CarryRightSides productions self.now.graph.now.edges →
            IsPath self.now.graph.now self.now.start (path_of self.now.stack.items) →
            SpellsDerivation productions example) }
    {
        example_of(alloc, self.graph, &self.stack)
    }

    /// The next example. An allocation failure is reported in the place of the first example that
    /// it kept from being made.
    pub(crate) fn next_example(&mut self) -> Option<Result<Example, OutOfMemory>>
        ensures graph { self.new.graph.now ≡ self.old.graph.now }
        ensures next { GivesNext self.old result self.new }
        ensures falls { IfSome result (λ _. bound self.new < bound self.old) }
    {
        if self.refused {
            self.refused = false;
            self.stop();
            return Some(Err(OutOfMemory));
        }
        if !self.found_trace() {
            self.stop();
            return None;
        }
        let example = self.example(self.alloc);
        if example.is_ok() {
            self.skip_path();
        } else {
            self.stop();
        }
        Some(example)
    }

    /// Goes on to the next path. An allocation failure is remembered, and reported later.
    pub(crate) fn skip_path(&mut self)
        requires ready { self.old.refused ≡ false }
        requires standing { IsEnded self.old → ⊥ }
        ensures graph { self.new.graph.now ≡ self.old.graph.now }
        ensures start { self.new.start ≡ self.old.start }
        ensures others { GoesTo (remaining self.old) self.new }
        ensures falls { bound self.new < bound self.old }
    {
        match self.advance() {
            Ok(_) => {}
            Err(OutOfMemory) => {
                self.refused = true;
            }
        }
    }
}

impl<'graph, 'grammar> Iterator for PathEnumerator<'graph, 'grammar> {
    type Item = Result<Example, OutOfMemory>;

    ghost next_gives = { λ old result new. (new.graph.now ≡ old.graph.now) × GivesNext old result
        new };

    ghost remaining = { λ walk. at_most (bound walk) };

    fn next(&mut self) -> Option<Result<Example, OutOfMemory>> {
        self.next_example()
    }
}
