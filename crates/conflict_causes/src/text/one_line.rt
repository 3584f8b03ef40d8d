//! The causes of conflicts, each in one line.
ghost use Rattle.std.specs.Prelude.{◌≡◌, ◌<◌, ◌++◌, ℕ, IfOk, OnOk, Contains, codes, length, map, string_bytes};
ghost use Rattle.std.specs.List.{flat_map};
ghost use Rattle.conflict_causes.specs.Causes.{AreCauses};
ghost use Rattle.conflict_causes.specs.CauseTexts.{rule_text};
ghost use Rattle.conflict_causes.specs.CauseLines.{AreCauseLines, AreLinesOf, IsCauseLine, choice_text, extent_text, line_view, other_choice, shift_choice};

use super::conflict_at;
use super::lines::{kind_of, plural, push_item, push_numbers, push_rule, push_tokens};
use crate::causes::key::items_of_action;
use crate::causes::{Cause, causes};
use lalrpop_base::lookahead::token_set::TokenSet;
use lalrpop_base::lr1_core::item::Lr0Item;
use lalrpop_base::lr1_core::state::{Action, Lr1Conflict, Lr1State};
use lalrpop_base::memory::OutOfMemory;
use lalrpop_base::repr::Production;
use lalrpop_base::repr::terminals::TerminalSet;
use std::alloc::Global;
use std::collections::BTreeSet;

/// A cause of conflicts in one line.
#[derive(Drop)]
pub struct CauseLine<'grammar> {
    /// The production of the reduction.
    pub reduced: &'grammar Production,
    /// The kind, the tokens, the states, and both actions.
    pub text: String,
}

/// The causes of conflicts, each in one line, in the order of `causes`. The error is `OutOfMemory`
/// if an allocation fails.
pub fn cause_lines<'grammar>(
    alloc: Global,
    terminals: &TerminalSet,
    states: &[Lr1State<'grammar>],
    conflicts: &[Lr1Conflict<'grammar>],
) -> Result<Vec<CauseLine<'grammar>>, OutOfMemory>
    ensures lines { IfOk result (λ lines.
        AreCauseLines terminals.now states.now conflicts.now (map line_view lines.items)) }
{
    let causes = causes(alloc, states, conflicts)?;
    let lines = lines_of(alloc, terminals, states, conflicts, &causes)?;
    Ok(lines)
}

// The lines of causes.
fn lines_of<'grammar>(
    alloc: Global,
    terminals: &TerminalSet,
    states: &[Lr1State<'grammar>],
    conflicts: &[Lr1Conflict<'grammar>],
    causes: &[Cause],
) -> Result<Vec<CauseLine<'grammar>>, OutOfMemory>
    requires { AreCauses states.now conflicts.now causes.now }
    ensures { IfOk result (λ lines. AreLinesOf terminals.now states.now conflicts.now causes.now
        (map line_view lines.items)) }
{
    let mut lines = Vec::new(alloc);
    for cause in causes {
        lines.push(cause_line(alloc, terminals, states, conflicts, cause)?)?;
    }
    Ok(lines)
}

// The line of a cause.
fn cause_line<'grammar>(
    alloc: Global,
    terminals: &TerminalSet,
    states: &[Lr1State<'grammar>],
    conflicts: &[Lr1Conflict<'grammar>],
    cause: &Cause,
) -> Result<CauseLine<'grammar>, OutOfMemory>
    requires some { 0 < length cause.now }
    requires within { (i : ℕ) → Contains cause.now i → i < length conflicts.now }
    ensures { IfOk result (λ line.
        IsCauseLine terminals.now states.now conflicts.now cause.now (line_view line)) }
{
    let numbers = cause.conflicts();
    let first = conflict_at(conflicts, numbers[0]);
    let tokens = cause.tokens(alloc, conflicts)?;
    let set = cause.states(alloc, conflicts)?;
    let items = items_of_action(alloc, states, first.state, &first.action)?;
    let mut text = String::new(alloc);
    push_extent(&mut text, &first.action, &tokens, terminals, &set)?;
    push_choice(&mut text, first.production, &first.action, &items)?;
    Ok(CauseLine {
        reduced: first.production,
        text,
    })
}

// Appends the kind of a cause, its tokens and its states.
fn push_extent(
    text: &mut String,
    action: &Action<'_>,
    tokens: &TokenSet,
    terminals: &TerminalSet,
    states: &BTreeSet<usize>,
) -> Result<(), OutOfMemory>
    ensures { OnOk result (string_bytes text.new ≡ string_bytes text.old
        ++ extent_text action.now terminals.now tokens.now states.now.keys) }
{
    text.push_str(kind_of(action))?;
    text.push_str(" conflict on")?;
    push_tokens(text, tokens, terminals)?;
    text.push_str(" in state")?;
    text.push_str(plural(states.len()))?;
    push_numbers(text, states)?;
    Ok(())
}

// Appends the reduction and the other action of a cause.
fn push_choice(
    text: &mut String,
    production: &Production,
    action: &Action<'_>,
    items: &BTreeSet<Lr0Item<'_>>,
) -> Result<(), OutOfMemory>
    ensures { OnOk result (string_bytes text.new ≡ string_bytes text.old
        ++ choice_text production.now action.now items.now.keys) }
{
    text.push_str(": reduce ")?;
    push_rule(text, production)?;
    push_other(text, action, items)?;
    Ok(())
}

// Appends the action that is not the reduction of a cause.
fn push_other(
    text: &mut String,
    action: &Action<'_>,
    items: &BTreeSet<Lr0Item<'_>>,
) -> Result<(), OutOfMemory>
    ensures { OnOk result (string_bytes text.new ≡ string_bytes text.old
        ++ other_choice action.now items.now.keys) }
{
    match action {
        Action::Shift(_, _) => push_shift_choices(text, items),
        Action::Reduce(production) => push_reduction_choice(text, *production),
    }
}

// Appends the items by which a state may shift.
fn push_shift_choices(text: &mut String, items: &BTreeSet<Lr0Item<'_>>) -> Result<(), OutOfMemory>
    ensures { OnOk result
        (string_bytes text.new ≡ string_bytes text.old ++ flat_map shift_choice items.now.keys) }
{
    for item in items.iter() {
        push_shift_choice(text, item)?;
    }
    Ok(())
}

// Appends an item by which a state may shift.
fn push_shift_choice(text: &mut String, item: &Lr0Item<'_>) -> Result<(), OutOfMemory>
    ensures { OnOk result (string_bytes text.new ≡ string_bytes text.old ++ shift_choice item.now) }
{
    text.push_str(", or shift by ")?;
    push_item(text, item)?;
    Ok(())
}

// Appends the other reduction.
fn push_reduction_choice(text: &mut String, production: &Production) -> Result<(), OutOfMemory>
    ensures { OnOk result (string_bytes text.new ≡ string_bytes text.old
        ++ (codes ", or reduce " ++ rule_text production.now)) }
{
    text.push_str(", or reduce ")?;
    push_rule(text, production)?;
    Ok(())
}
