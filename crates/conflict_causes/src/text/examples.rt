//! Examples of input for a conflict of which no witness of ambiguity was found.
ghost use Rattle.std.specs.Prelude.{◌≡◌, ◌++◌, OnOk, string_bytes};
ghost use Rattle.std.specs.List.{flat_map};
ghost use Rattle.lalrpop_grammar.specs.grammars.WellFormed.{IsWellFormed, rules_of};
ghost use Rattle.conflict_causes.specs.ExampleTexts.{AppendsBy, IsAfterSearch, IsExamplesText, KnowsOwn, action_name, example_line, explained_text, item_examples};

use lalrpop_ambiguity::search::Search;
use lalrpop_base::lr1_core::state::{Action, Lr1Conflict};
use lalrpop_base::memory::OutOfMemory;
use lalrpop_base::repr::grammar::Grammar;
use lalrpop_explain::explain::{ExplainedConflict, ExplainedItem, Explainer, is_own_conflict};
use lalrpop_traces::trace::Example;
use std::alloc::Global;

/// What makes examples: a grammar, the explainer of its states, and whether the states are over the
/// productions of the grammar.
#[derive(Drop)]
pub(super) struct Examples<'a, 'grammar> {
    pub(super) grammar: &'grammar Grammar,
    pub(super) explainer: &'a Explainer<'a, 'grammar>,
    pub(super) are_own: bool,
    ghost of_grammar: { explainer.now.context.first_sets.now ≡ rules_of grammar.now },
}

/// Appends the examples of a conflict, unless a search found a witness.
pub(super) fn push_examples<'grammar>(
    alloc: Global,
    text: &mut String,
    examples: &Examples<'_, 'grammar>,
    conflict: &Lr1Conflict<'grammar>,
    search: &Search<'_>,
) -> Result<(), OutOfMemory>
    requires well_formed { IsWellFormed examples.now.grammar.now }
    requires own { KnowsOwn examples.now.are_own examples.now.explainer.now }
    ensures { OnOk result (AppendsBy (IsAfterSearch (rules_of examples.now.grammar.now)
        examples.now.explainer.now.context.states.now conflict.now search.now)
        (string_bytes text.old) (string_bytes text.new)) }
{
    match search {
        Search::Found(_) => Ok(()),
        Search::Exhausted => push_own_examples(alloc, text, examples, conflict),
        Search::Cut => push_own_examples(alloc, text, examples, conflict),
    }
}

// Appends the examples of a conflict, if the states and the conflict are over the productions of the
// grammar.
fn push_own_examples<'grammar>(
    alloc: Global,
    text: &mut String,
    examples: &Examples<'_, 'grammar>,
    conflict: &Lr1Conflict<'grammar>,
) -> Result<(), OutOfMemory>
    requires well_formed { IsWellFormed examples.now.grammar.now }
    requires own { KnowsOwn examples.now.are_own examples.now.explainer.now }
    ensures { OnOk result (AppendsBy (IsExamplesText (rules_of examples.now.grammar.now)
        examples.now.explainer.now.context.states.now conflict.now)
        (string_bytes text.old) (string_bytes text.new)) }
{
    if !examples.are_own {
        return Ok(());
    }
    if !is_own_conflict(examples.grammar, conflict) {
        return Ok(());
    }
    let explained = examples.explainer.explain(alloc, conflict, 1)?;
    push_explained(text, &explained)?;
    Ok(())
}

// Appends the first example of each item of the actions of a conflict.
fn push_explained(
    text: &mut String,
    explained: &ExplainedConflict<'_, '_>,
) -> Result<(), OutOfMemory>
    ensures { OnOk result
        (string_bytes text.new ≡ string_bytes text.old ++ explained_text explained.now) }
{
    text.push_str("  an input for each action:\n")?;
    push_items(
        text,
        action_name(&explained.conflict.action),
        &explained.others,
    )?;
    push_item(text, "reduce", &explained.reduction)?;
    Ok(())
}

// The name of an action.
fn action_name(action: &Action<'_>) -> &'static str
    ensures { result.now ≡ action_name action.now }
{
    match action {
        Action::Shift(_, _) => "shift ",
        Action::Reduce(_) => "reduce",
    }
}

// Appends the examples of items.
fn push_items(
    text: &mut String,
    action: &str,
    items: &[ExplainedItem<'_>],
) -> Result<(), OutOfMemory>
    ensures { OnOk result (string_bytes text.new
        ≡ string_bytes text.old ++ flat_map (item_examples action.now) items.now) }
{
    for item in items {
        push_item(text, action, item)?;
    }
    Ok(())
}

// Appends the examples of an item.
fn push_item(text: &mut String, action: &str, item: &ExplainedItem<'_>) -> Result<(), OutOfMemory>
    ensures { OnOk result
        (string_bytes text.new ≡ string_bytes text.old ++ item_examples action.now item.now) }
{
    for example in &item.examples {
        push_example(text, action, example)?;
    }
    Ok(())
}

// Appends the line of an example.
fn push_example(text: &mut String, action: &str, example: &Example) -> Result<(), OutOfMemory>
    ensures { OnOk result
        (string_bytes text.new ≡ string_bytes text.old ++ example_line action.now example.now) }
{
    write!(text, "    {action}  {example}\n")?;
    Ok(())
}
