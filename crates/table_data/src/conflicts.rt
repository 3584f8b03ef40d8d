//! Conflicts as JSON: their tokens and their actions, with examples.
ghost use Rattle.std.specs.Prelude.{◌≡◌, ◌++◌, OnOk, string_bytes};
ghost use Rattle.table_data.specs.Conflicts.{action_json, conflict_json, reduce_json, shift_json};

use super::examples::ShownItem;
use super::lists::push_array;
use super::naming::Naming;
use super::to_json::{ToJson, push_number};
use lalrpop_base::lr1_core::state::{Action, Lr1Conflict, StateIndex};
use lalrpop_base::memory::OutOfMemory;
use lalrpop_base::repr::{Production, TerminalString};
use std::alloc::Global;

/// A conflict, and the items of its reduction and of its other action, with examples of how these
/// come about.
#[derive(Drop)]
pub(crate) struct ShownConflict<'conflicts, 'grammar> {
    pub(crate) conflict: &'conflicts Lr1Conflict<'grammar>,
    pub(crate) reduction: Vec<ShownItem>,
    pub(crate) other: Vec<ShownItem>,
}

impl<'conflicts, 'grammar> ToJson for ShownConflict<'conflicts, 'grammar> {
    ghost json = { λ naming shown. conflict_json naming.sets shown };

    fn push_json(
        &self,
        alloc: Global,
        text: &mut String,
        naming: &Naming<'_>,
    ) -> Result<(), OutOfMemory> {
        push_number(text, "{\"state\":", self.conflict.state.0)?;
        let set = naming.sets.number_of(&self.conflict.lookahead);
        push_number(text, ",\"lookahead\":", set)?;
        text.push_str(",\"actions\":[")?;
        push_reduce(
            alloc,
            text,
            self.conflict.production,
            &self.reduction,
            naming,
        )?;
        text.push_str(",")?;
        push_action(alloc, text, &self.conflict.action, &self.other, naming)?;
        text.push_str("]}")?;
        Ok(())
    }
}

// Appends an action of a conflict, with its items.
fn push_action(
    alloc: Global,
    text: &mut String,
    action: &Action<'_>,
    shown: &[ShownItem],
    naming: &Naming<'_>,
) -> Result<(), OutOfMemory>
    ensures { OnOk result
        (string_bytes text.new ≡ string_bytes text.old ++ action_json action.now shown.now) }
{
    match action {
        Action::Shift(terminal, target) => {
            push_shift(alloc, text, terminal, *target, shown, naming)
        }
        Action::Reduce(production) => push_reduce(alloc, text, *production, shown, naming),
    }
}

// Appends a reduction: the number of its production, and its items.
fn push_reduce(
    alloc: Global,
    text: &mut String,
    production: &Production,
    shown: &[ShownItem],
    naming: &Naming<'_>,
) -> Result<(), OutOfMemory>
    ensures { OnOk result
        (string_bytes text.new ≡ string_bytes text.old ++ reduce_json production.now shown.now) }
{
    push_number(text, "{\"reduce\":", production.action.index())?;
    text.push_str(",\"items\":")?;
    push_array(alloc, text, ",", shown, naming)?;
    text.push_str("}")?;
    Ok(())
}

// Appends a shift: its terminal, the state to which it leads, and its items.
fn push_shift(
    alloc: Global,
    text: &mut String,
    terminal: &TerminalString,
    target: StateIndex,
    shown: &[ShownItem],
    naming: &Naming<'_>,
) -> Result<(), OutOfMemory>
    ensures { OnOk result (string_bytes text.new ≡ string_bytes text.old ++ shift_json
        terminal.now target shown.now) }
{
    text.push_str("{\"shift\":")?;
    terminal.push_json(alloc, text, naming)?;
    push_number(text, ",\"state\":", target.0)?;
    text.push_str(",\"items\":")?;
    push_array(alloc, text, ",", shown, naming)?;
    text.push_str("}")?;
    Ok(())
}
