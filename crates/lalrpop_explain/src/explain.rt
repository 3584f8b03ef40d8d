//! The explanation of conflicts: the items of their actions, with examples of input.
mod context;
mod examples;
pub mod explainer;
mod items;
mod kept;
mod own;

ghost use Rattle.std.specs.Prelude.{IfOk};
ghost use Rattle.lalrpop_base.specs.Words.{IsWellFormed, rules_of};
ghost use Rattle.lalrpop_explain.specs.explained.ExplainedConflicts.{AreExplained};
ghost use Rattle.lalrpop_explain.specs.explained.OwnErrors.{AreOwnConflicts, AreOwnStates, IsOwnError};

pub use explainer::Explainer;
pub use kept::KeptGraphs;
use lalrpop_base::first::FirstSets;
use lalrpop_base::lr1_core::state::{Lr1Conflict, Lr1TableConstructionError};
use lalrpop_base::memory::OutOfMemory;
use lalrpop_base::repr::Production;
use lalrpop_base::repr::grammar::Grammar;
use lalrpop_traces::trace::Example;
pub use own::{are_own_states, is_own_conflict, is_own_error};
use std::alloc::Global;

/// An item of an action, by its production and the index of its dot. It has the first examples of
/// input that lead to the item.
#[derive(Debug, Drop)]
pub struct ExplainedItem<'grammar> {
    pub production: &'grammar Production,
    pub index: usize,
    pub examples: Vec<Example>,
}

/// A conflict, the finished item of its reduction, and the items of its other action. For a shift
/// these are the items of the state that shift the terminal. For a reduction it is the finished
/// item.
#[derive(Debug, Drop)]
pub struct ExplainedConflict<'error, 'grammar> {
    pub conflict: &'error Lr1Conflict<'grammar>,
    pub reduction: ExplainedItem<'grammar>,
    pub others: Vec<ExplainedItem<'grammar>>,
}

/// The explanations of the conflicts of an error, in their order, with at most `most` examples of
/// each item. The error is one of the grammar. The result is `OutOfMemory` if an allocation fails.
pub fn explain<'error, 'grammar>(
    alloc: Global,
    grammar: &'grammar Grammar,
    error: &'error Lr1TableConstructionError<'grammar>,
    most: usize,
) -> Result<Vec<ExplainedConflict<'error, 'grammar>>, OutOfMemory>
    requires well_formed { IsWellFormed grammar.now }
    requires own { IsOwnError (rules_of grammar.now) error.now }
    ensures explained { IfOk result (λ list. AreExplained (rules_of grammar.now)
        error.now.states.items most error.now.conflicts.items list.items) }
{
    let first_sets = FirstSets::new(alloc, grammar)?;
    let explainer = Explainer::new(alloc, &first_sets, &error.states)?;
    explained_conflicts(alloc, &explainer, &error.conflicts, most)
}

// The explanations of conflicts, in their order.
fn explained_conflicts<'error, 'grammar>(
    alloc: Global,
    explainer: &Explainer<'_, 'grammar>,
    conflicts: &'error [Lr1Conflict<'grammar>],
    most: usize,
) -> Result<Vec<ExplainedConflict<'error, 'grammar>>, OutOfMemory>
    requires states { AreOwnStates explainer.now.context.first_sets.now
        explainer.now.context.states.now }
    requires conflicts { AreOwnConflicts explainer.now.context.first_sets.now.productions
        conflicts.now }
    ensures { IfOk result (λ list. AreExplained explainer.now.context.first_sets.now
        explainer.now.context.states.now most conflicts.now list.items) }
{
    let mut list = Vec::new(alloc);
    let mut kept = KeptGraphs::new(alloc);
    for conflict in conflicts {
        list.push(explainer.explain_next(alloc, &mut kept, conflict, most)?)?;
    }
    Ok(list)
}
