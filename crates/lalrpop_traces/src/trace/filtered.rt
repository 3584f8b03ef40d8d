//! The paths whose examples can go on with one of some tokens.
ghost use Rattle.std.specs.Prelude.{◌≡◌, ◌<◌, ◌+◌, ◌++◌, false, true, IsTrue, IsFalse, IfOk, OnErr, OnOk};
ghost use Rattle.lalrpop_base.specs.Words.{Bits, IsFirstSet};
ghost use Rattle.std.specs.Iterator.{at_most};
ghost use Rattle.lalrpop_traces.specs.traces.TraceGraphs.{AreKnownEdges};
ghost use Rattle.lalrpop_traces.specs.traces.Examples.{following, path_of};
ghost use Rattle.lalrpop_traces.specs.traces.Paths.{item_node, paths};
ghost use Rattle.lalrpop_traces.specs.traces.Walks.{bound, edge_weight, load, paths_over, remaining, to_come, GivesNextMeeting, IsEnded, IsExhausted, IsSameFilter, LeavesOut, Meets, NoneMeets};

use super::enumerator::PathEnumerator;
use super::example::Example;
use super::trace_graph::TraceGraph;
use lalrpop_base::first::FirstSets;
use lalrpop_base::lookahead::token_set::TokenSet;
use lalrpop_base::lr1_core::item::Lr1Item;
use lalrpop_base::memory::OutOfMemory;
use std::alloc::Global;

/// The examples that can go on, from their cursor, with a token of a lookahead.
#[derive(Drop)]
pub struct FilteredPathEnumerator<'graph, 'grammar> {
    alloc: Global,
    base: PathEnumerator<'graph, 'grammar>,
    first_sets: &'graph FirstSets<'grammar>,
    lookahead: TokenSet,
    misses: usize,
}

impl<'graph, 'grammar> FilteredPathEnumerator<'graph, 'grammar> {
    pub(crate) fn new(
        alloc: Global,
        first_sets: &'graph FirstSets<'grammar>,
        graph: &'graph TraceGraph<'grammar>,
        item: &Lr1Item<'grammar>,
    ) -> Result<Self, OutOfMemory>
        requires known { AreKnownEdges first_sets.now.terminals graph.now.edges }
        ensures known { IfOk result
            (λ it. AreKnownEdges it.first_sets.now.terminals it.base.graph.now.edges) }
        ensures graph { IfOk result (λ it. it.base.graph.now ≡ graph.now) }
        ensures first_sets { IfOk result (λ it. it.first_sets.now ≡ first_sets.now) }
        ensures lookahead { IfOk result (λ it. it.lookahead ≡ item.now.lookahead) }
        ensures paths { IfOk result (λ it. to_come it.base ≡ paths graph.now (item_node item.now)) }
        ensures refused { IfOk result (λ it. it.base.refused ≡ false) }
    {
        Ok(FilteredPathEnumerator {
            alloc,
            base: PathEnumerator::new(alloc, graph, item.to_lr0())?,
            first_sets,
            lookahead: item.lookahead.clone(alloc)?,
            misses: 0,
        })
    }

    // Whether the example of the current path can go on with a token of the lookahead.
    fn fits(&self) -> Result<bool, OutOfMemory>
        requires known { AreKnownEdges self.now.first_sets.now.terminals
            self.now.base.graph.now.edges }
        ensures yes { IfOk result
            (λ fits. IsTrue fits → Meets self.now (path_of self.now.base.stack.items)) }
        ensures no { IfOk result
            (λ fits. IsFalse fits → ¬ Meets self.now (path_of self.now.base.stack.items)) }
        ensures set { IfOk result (λ _. (first : Bits) × IsFirstSet self.now.first_sets.now
            (following self.now.base.graph.now (path_of self.now.base.stack.items)) first) }
    {
        let first = self.base.first0(self.alloc, self.first_sets)?;
        Ok(first.is_intersecting(&self.lookahead))
    }

    // Goes on to a next path. The search for paths that meet the lookahead costs more than to look
    // at a path. So it begins after as many paths that did not as there are edges.
    fn pass_over(&mut self) -> Result<(), OutOfMemory>
        requires known { AreKnownEdges self.old.first_sets.now.terminals
            self.old.base.graph.now.edges }
        requires ready { self.old.base.refused ≡ false }
        requires standing { IsEnded self.old.base → ⊥ }
        ensures same { IsSameFilter self.old self.new }
        ensures refused { self.new.base.refused ≡ false }
        ensures left { OnOk result
            (LeavesOut self.old (remaining self.old.base) (to_come self.new.base)) }
        ensures falls { OnOk result (bound self.new.base < bound self.old.base) }
        ensures err { OnErr result (IsExhausted self.new.base) }
    {
        if self.misses < self.base.edge_count() {
            self.misses += 1;
            self.base.advance()?;
            return Ok(());
        }
        self.advance_meeting()?;
        Ok(())
    }

    // Goes on to a next path, and leaves out edges over which no path meets the lookahead. The
    // result is whether there is a next path. After an allocation failure the walk is at its end.
    fn advance_meeting(&mut self) -> Result<bool, OutOfMemory>
        requires known { AreKnownEdges self.old.first_sets.now.terminals
            self.old.base.graph.now.edges }
        ensures same { IsSameFilter self.old self.new }
        ensures refused { self.new.base.refused ≡ self.old.base.refused }
        ensures left { OnOk result
            (LeavesOut self.old (remaining self.old.base) (to_come self.new.base)) }
        ensures ended { IfOk result (λ found. found ≡ false → IsEnded self.new.base) }
        ensures falls { IfOk result
            (λ found. found ≡ true → load self.new.base < load self.old.base) }
        ensures err { OnErr result (IsExhausted self.new.base) }
    {
        while let Some(number) = self.base.next_edge() {
            if self.goes_on_to(number)? {
                return Ok(true);
            }
        }
        self.base.stop();
        Ok(false)
    }

    // Takes an edge, if a path over it may meet the lookahead. The result is whether this completes
    // a path. After an allocation failure the walk is at its end.
    fn goes_on_to(&mut self, number: usize) -> Result<bool, OutOfMemory>
        requires known { AreKnownEdges self.old.first_sets.now.terminals
            self.old.base.graph.now.edges }
        ensures same { IsSameFilter self.old self.new }
        ensures refused { self.new.base.refused ≡ self.old.base.refused }
        ensures falls { OnOk result
            (load self.new.base < load self.old.base + edge_weight self.old.base number) }
        ensures found { IfOk result (λ found. found ≡ true → LeavesOut self.old
            (paths_over self.old.base number ++ remaining self.old.base)
            (to_come self.new.base)) }
        ensures on { IfOk result (λ found. found ≡ false → LeavesOut self.old
            (paths_over self.old.base number ++ remaining self.old.base)
            (remaining self.new.base)) }
        ensures err { OnErr result (IsExhausted self.new.base) }
    {
        let Ok(may) = self.may_meet_over(number) else {
            self.base.stop();
            return Err(OutOfMemory);
        };
        if !may {
            return Ok(false);
        }
        let base = &mut self.base;
        base.take(number)
    }

    // Whether a path that goes on over an edge may meet the lookahead.
    fn may_meet_over(&self, number: usize) -> Result<bool, OutOfMemory>
        requires known { AreKnownEdges self.now.first_sets.now.terminals
            self.now.base.graph.now.edges }
        ensures none { IfOk result
            (λ may. may ≡ false → NoneMeets self.now (paths_over self.now.base number)) }
    {
        if !self.base.found_trace() {
            return Ok(true);
        }
        if self.fits()? {
            return Ok(true);
        }
        let may = self
            .base
            .can_meet(self.first_sets, &self.lookahead, number)?;
        Ok(may)
    }
}

impl<'graph, 'grammar> Iterator for FilteredPathEnumerator<'graph, 'grammar> {
    type Item = Result<Example, OutOfMemory>;

    ghost can_next = { λ it. AreKnownEdges it.first_sets.now.terminals it.base.graph.now.edges };

    ghost next_gives = { λ old result new. IsSameFilter old new × GivesNextMeeting old result new };

    ghost remaining = { λ it. at_most (bound it.base) };

    fn next(&mut self) -> Option<Result<Example, OutOfMemory>> {
        while self.base.can_skip() {
            match self.fits() {
                Ok(true) => return self.base.next_example(),
                Ok(false) => match self.pass_over() {
                    Ok(()) => {}
                    Err(error) => return Some(Err(error)),
                },
                Err(error) => {
                    self.base.stop();
                    return Some(Err(error));
                }
            }
        }
        self.base.next_example()
    }
}
