//! The explanation of conflicts: how the actions of each come about, by examples of input.
mod lines;

ghost use Rattle.std.specs.Prelude.{◌≡◌, ◌++◌, IfOk, OnOk, codes, string_bytes};
ghost use Rattle.std.specs.List.{flat_map};
ghost use Rattle.lalrpop_base.specs.Words.{IsWellFormed, rules_of, terminal_text};
ghost use Rattle.lalrpop_lr1.specs.Words.{AreOwnConflicts, AreOwnStates, IsOwnError};
ghost use Rattle.lrtab_run.specs.Explained.{IsExplanation};
ghost use Rattle.lrtab_run.specs.Explaining.{AppendsText, action_text, conflict_text, example_line, example_lines, reduction_text};

use self::lines::{push_example, push_head, push_production};
use lalrpop_base::first::FirstSets;
use lalrpop_base::lr1_core::state::{Action, Lr1Conflict, Lr1TableConstructionError};
use lalrpop_base::memory::OutOfMemory;
use lalrpop_base::repr::TerminalString;
use lalrpop_base::repr::grammar::Grammar;
use lalrpop_base::repr::terminals::TerminalSet;
use lalrpop_lr1::explain::{ExplainedConflict, ExplainedItem, Explainer, KeptGraphs};
use lalrpop_lr1::trace::Example;
use std::alloc::Global;

// The greatest number of examples that are shown of an item.
const MOST: usize = 3;

/// The explanation of the conflicts of a grammar, as text. `OutOfMemory` if an allocation fails.
pub fn explanation<'grammar>(
    alloc: Global,
    grammar: &'grammar Grammar,
    error: &Lr1TableConstructionError<'grammar>,
) -> Result<String, OutOfMemory>
    requires well_formed { IsWellFormed grammar.now }
    requires own { IsOwnError (rules_of grammar.now) error.now }
    ensures { IfOk result (λ text. IsExplanation (rules_of grammar.now) error.now.states.items
        error.now.conflicts.items (string_bytes text)) }
{
    let first_sets = FirstSets::new(alloc, grammar)?;
    let explainer = Explainer::new(alloc, &first_sets, &error.states)?;
    let mut text = String::new(alloc);
    push_conflicts(
        alloc,
        &mut text,
        &explainer,
        &grammar.terminals,
        &error.conflicts,
    )?;
    Ok(text)
}

// Appends the parts of the conflicts, which are numbered from 1. Each is explained by itself, so
// that the examples of one conflict are held at a time.
fn push_conflicts<'grammar>(
    alloc: Global,
    text: &mut String,
    explainer: &Explainer<'_, 'grammar>,
    terminals: &TerminalSet,
    conflicts: &[Lr1Conflict<'grammar>],
) -> Result<(), OutOfMemory>
    requires states { AreOwnStates explainer.now.context.first_sets.now
        explainer.now.context.states.now }
    requires conflicts { AreOwnConflicts explainer.now.context.first_sets.now.productions
        conflicts.now }
    requires numbered { terminals.now ≡ explainer.now.context.first_sets.now.terminals }
    ensures { OnOk result (AppendsText
        (IsExplanation explainer.now.context.first_sets.now explainer.now.context.states.now
        conflicts.now) (string_bytes text.old) (string_bytes text.new)) }
{
    let mut kept = KeptGraphs::new(alloc);
    for (place, conflict) in conflicts.iter().enumerate() {
        let explained = explainer.explain_next(alloc, &mut kept, conflict, MOST)?;
        push_conflict(text, place + 1, &explained, terminals)?;
    }
    Ok(())
}

// Appends the part of a conflict: its head, its reduction and its other action.
fn push_conflict(
    text: &mut String,
    number: usize,
    explained: &ExplainedConflict<'_, '_>,
    terminals: &TerminalSet,
) -> Result<(), OutOfMemory>
    ensures { OnOk result (string_bytes text.new ≡ string_bytes text.old ++ conflict_text
        terminals.now number explained.now) }
{
    push_head(text, number, explained.conflict, terminals)?;
    push_reduction(text, &explained.reduction)?;
    push_action(text, &explained.conflict.action, &explained.others)?;
    Ok(())
}

// Appends the part of the other action of a conflict.
fn push_action(
    text: &mut String,
    action: &Action<'_>,
    items: &[ExplainedItem<'_>],
) -> Result<(), OutOfMemory>
    ensures { OnOk result
        (string_bytes text.new ≡ string_bytes text.old ++ action_text action.now items.now) }
{
    match action {
        Action::Shift(terminal, _) => push_shift(text, terminal, items),
        Action::Reduce(_) => push_reductions(text, items),
    }
}

// Appends the part of a shift: its terminal, and the examples of each item.
fn push_shift(
    text: &mut String,
    terminal: &TerminalString,
    items: &[ExplainedItem<'_>],
) -> Result<(), OutOfMemory>
    ensures { OnOk result (string_bytes text.new ≡ string_bytes text.old ++ (codes "  shift " ++
        (terminal_text terminal.now ++ (codes "\n" ++ flat_map example_lines items.now)))) }
{
    write!(text, "  shift {terminal}\n")?;
    push_items(text, items)?;
    Ok(())
}

// Appends the examples of each item.
fn push_items(text: &mut String, items: &[ExplainedItem<'_>]) -> Result<(), OutOfMemory>
    ensures { OnOk result
        (string_bytes text.new ≡ string_bytes text.old ++ flat_map example_lines items.now) }
{
    for item in items {
        push_examples(text, &item.examples)?;
    }
    Ok(())
}

// Appends the part of each reduction.
fn push_reductions(text: &mut String, items: &[ExplainedItem<'_>]) -> Result<(), OutOfMemory>
    ensures { OnOk result
        (string_bytes text.new ≡ string_bytes text.old ++ flat_map reduction_text items.now) }
{
    for item in items {
        push_reduction(text, item)?;
    }
    Ok(())
}

// Appends the part of a reduction: its production and its examples.
fn push_reduction(text: &mut String, item: &ExplainedItem<'_>) -> Result<(), OutOfMemory>
    ensures { OnOk result
        (string_bytes text.new ≡ string_bytes text.old ++ reduction_text item.now) }
{
    text.push_str("  reduce ")?;
    push_production(text, item.production)?;
    push_examples(text, &item.examples)?;
    Ok(())
}

// Appends the lines of examples.
fn push_examples(text: &mut String, examples: &[Example]) -> Result<(), OutOfMemory>
    ensures { OnOk result
        (string_bytes text.new ≡ string_bytes text.old ++ flat_map example_line examples.now) }
{
    for example in examples {
        push_example(text, example)?;
    }
    Ok(())
}
