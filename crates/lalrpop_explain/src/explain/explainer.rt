//! The explanation of one conflict.
ghost use Rattle.std.specs.Prelude.{◌≡◌, Contains, IfOk};
ghost use Rattle.lalrpop_explain.specs.explained.ExplainedConflicts.{AreExplainedBy, IsExplained, IsExplainedAlone, IsExplainedReduction};
ghost use Rattle.lalrpop_explain.specs.explained.KeptGraphs.{AreKept};
ghost use Rattle.lalrpop_explain.specs.explained.OwnErrors.{AreOwnStates, IsOwnConflict};
ghost use Rattle.lalrpop_lanes.specs.Words.{ReducesOwn};

use super::context::Context;
use super::examples::reduce_examples;
use super::items::explained_shifts;
use super::kept::KeptGraphs;
use super::{ExplainedConflict, ExplainedItem};
use lalrpop_base::first::FirstSets;
use lalrpop_base::lr1_core::item::Item;
use lalrpop_base::lr1_core::state::{Action, Lr1Conflict, Lr1State};
use lalrpop_base::memory::OutOfMemory;
use lalrpop_base::repr::Production;
use lalrpop_traces::trace::Tracer;
use std::alloc::Global;

/// Explains conflicts of states.
#[derive(Drop)]
pub struct Explainer<'a, 'grammar> {
    context: Context<'a, 'grammar>,
}

impl<'a, 'grammar> Explainer<'a, 'grammar> {
    /// An explainer for all conflicts of the states, given the FIRST sets of their grammar. The
    /// error is `OutOfMemory` if an allocation fails.
    pub fn new(
        alloc: Global,
        first_sets: &'a FirstSets<'grammar>,
        states: &'a [Lr1State<'grammar>],
    ) -> Result<Self, OutOfMemory>
        ensures states { IfOk result (λ explainer. explainer.context.states.now ≡ states.now) }
        ensures rules { IfOk result
            (λ explainer. explainer.context.first_sets.now ≡ first_sets.now) }
    {
        let tracer = Tracer::new(alloc, first_sets, states)?;
        Ok(Explainer {
            context: Context {
                states,
                first_sets,
                tracer,
            },
        })
    }

    /// The explanation of a conflict of the states, with at most `most` examples of each item. The
    /// states and the conflict are over the productions of the grammar. The error is `OutOfMemory`
    /// if an allocation fails.
    pub fn explain<'error>(
        &self,
        alloc: Global,
        conflict: &'error Lr1Conflict<'grammar>,
        most: usize,
    ) -> Result<ExplainedConflict<'error, 'grammar>, OutOfMemory>
        requires states { AreOwnStates self.now.context.first_sets.now self.now.context.states.now }
        requires conflict { IsOwnConflict self.now.context.first_sets.now.productions conflict.now }
        ensures explained { IfOk result (IsExplained self.now.context.first_sets.now
            self.now.context.states.now most conflict.now) }
    {
        let mut kept = KeptGraphs::new(alloc);
        self.explain_next(alloc, &mut kept, conflict, most)
    }

    /// As `explain`, with the graphs of reductions that earlier calls of the same explainer made.
    /// So conflicts of one state should come one after another.
    pub fn explain_next<'error>(
        &self,
        alloc: Global,
        kept: &mut KeptGraphs<'grammar>,
        conflict: &'error Lr1Conflict<'grammar>,
        most: usize,
    ) -> Result<ExplainedConflict<'error, 'grammar>, OutOfMemory>
        requires states { AreOwnStates self.now.context.first_sets.now self.now.context.states.now }
        requires conflict { IsOwnConflict self.now.context.first_sets.now.productions conflict.now }
        requires kept { AreKept self.now.context.first_sets.now self.now.context.states.now
            kept.old }
        ensures explained { IfOk result (IsExplained self.now.context.first_sets.now
            self.now.context.states.now most conflict.now) }
        ensures kept { AreKept self.now.context.first_sets.now self.now.context.states.now
            kept.new }
    {
        let reduction = explained_reduction(
            alloc,
            &self.context,
            kept,
            conflict,
            conflict.production,
            most,
        )?;
        let others = explained_action(alloc, &self.context, kept, conflict, most)?;
        Ok(ExplainedConflict {
            conflict,
            reduction,
            others,
        })
    }
}

// The finished item of a reduction of a conflict, with examples that can go on with a token of the
// conflict.
fn explained_reduction<'grammar>(
    alloc: Global,
    context: &Context<'_, 'grammar>,
    kept: &mut KeptGraphs<'grammar>,
    conflict: &Lr1Conflict<'grammar>,
    production: &'grammar Production,
    most: usize,
) -> Result<ExplainedItem<'grammar>, OutOfMemory>
    requires states { AreOwnStates context.now.first_sets.now context.now.states.now }
    requires production { Contains context.now.first_sets.now.productions production.now }
    requires kept { AreKept context.now.first_sets.now context.now.states.now kept.old }
    ensures explained { IfOk result (IsExplainedReduction context.now.first_sets.now
        context.now.states.now most conflict.now.state conflict.now.lookahead production.now) }
    ensures kept { AreKept context.now.first_sets.now context.now.states.now kept.new }
{
    let item = Item {
        production,
        index: production.symbols.len(),
        lookahead: conflict.lookahead.clone(alloc)?,
    };
    let examples = reduce_examples(alloc, context, kept, conflict.state, &item, most)?;
    Ok(ExplainedItem {
        production,
        index: production.symbols.len(),
        examples,
    })
}

// The items of the other action of a conflict, with examples.
fn explained_action<'grammar>(
    alloc: Global,
    context: &Context<'_, 'grammar>,
    kept: &mut KeptGraphs<'grammar>,
    conflict: &Lr1Conflict<'grammar>,
    most: usize,
) -> Result<Vec<ExplainedItem<'grammar>>, OutOfMemory>
    requires states { AreOwnStates context.now.first_sets.now context.now.states.now }
    requires action { ReducesOwn context.now.first_sets.now.productions conflict.now.action }
    requires kept { AreKept context.now.first_sets.now context.now.states.now kept.old }
    ensures explained { IfOk result (λ list. AreExplainedBy context.now.first_sets.now
        context.now.states.now most conflict.now.state conflict.now.lookahead conflict.now.action
        list.items) }
    ensures kept { AreKept context.now.first_sets.now context.now.states.now kept.new }
{
    match &conflict.action {
        Action::Shift(terminal, _) => {
            explained_shifts(alloc, context, conflict.state, terminal, most)
        }
        Action::Reduce(production) => {
            lone_reduction(alloc, context, kept, conflict, *production, most)
        }
    }
}

// A list of the finished item of a reduction of a conflict alone, with examples.
fn lone_reduction<'grammar>(
    alloc: Global,
    context: &Context<'_, 'grammar>,
    kept: &mut KeptGraphs<'grammar>,
    conflict: &Lr1Conflict<'grammar>,
    production: &'grammar Production,
    most: usize,
) -> Result<Vec<ExplainedItem<'grammar>>, OutOfMemory>
    requires states { AreOwnStates context.now.first_sets.now context.now.states.now }
    requires production { Contains context.now.first_sets.now.productions production.now }
    requires kept { AreKept context.now.first_sets.now context.now.states.now kept.old }
    ensures explained { IfOk result (λ list. IsExplainedAlone context.now.first_sets.now
        context.now.states.now
        most conflict.now.state conflict.now.lookahead production.now list.items) }
    ensures kept { AreKept context.now.first_sets.now context.now.states.now kept.new }
{
    let item = explained_reduction(alloc, context, kept, conflict, production, most)?;
    let mut list = Vec::new(alloc);
    list.push(item)?;
    Ok(list)
}
