//! The blocks of conflicts in a report.
ghost use Rattle.std.specs.Prelude.{◌≡◌, ◌++◌, OnOk, string_bytes, slice_get};
ghost use Rattle.std.specs.List.{flat_map};
ghost use Rattle.lalrpop_report.specs.reports.ReportStates.{shift_reduce_lines, reduce_reduce_lines, actions_lines, conflict_block, block_at};

use super::lines::{push_filled, push_production};
use super::lookahead_lines::LookaheadLines;
use super::printer::LookaheadPrinter;
use lalrpop_base::lr1_core::state::{Action, Conflict, StateIndex};
use lalrpop_base::memory::OutOfMemory;
use lalrpop_base::repr::{Production, TerminalString};
use std::alloc::Global;
use text_pieces::TextPieces;

// Appends the lines of a conflict between a reduction and a shift.
fn push_shift_action(
    alloc: Global,
    text: &mut String,
    production: &Production,
    terminal: &TerminalString,
    target: StateIndex,
) -> Result<(), OutOfMemory>
    ensures { OnOk result (string_bytes text.new ≡ string_bytes text.old ++ shift_reduce_lines
        production.now terminal.now target) }
{
    let width = terminal
        .display_len()
        .max(production.nonterminal.display_len());
    let shown = format!(in alloc; "{terminal}")?;
    text.push_str("    shift/reduce conflict\n        reduction ")?;
    push_production(text, production)?;
    text.push_str("        shift     ")?;
    push_filled(text, shown.as_str(), width)?;
    write!(text, "    shift and goto {target}\n")?;
    Ok(())
}

// Appends the lines of a conflict between two reductions.
fn push_reduce_action(
    text: &mut String,
    production: &Production,
    other: &Production,
) -> Result<(), OutOfMemory>
    ensures { OnOk result (string_bytes text.new ≡ string_bytes text.old ++ reduce_reduce_lines
        production.now other.now) }
{
    text.push_str("    reduce/reduce conflict\n        reduction ")?;
    push_production(text, production)?;
    text.push_str("        reduction ")?;
    push_production(text, other)?;
    Ok(())
}

// Appends the lines of the two actions of a conflict.
fn push_actions(
    alloc: Global,
    text: &mut String,
    production: &Production,
    action: &Action<'_>,
) -> Result<(), OutOfMemory>
    ensures { OnOk result
        (string_bytes text.new ≡ string_bytes text.old ++ actions_lines production.now action.now) }
{
    match action {
        Action::Shift(terminal, target) => {
            push_shift_action(alloc, text, production, terminal, *target)?;
            Ok(())
        }
        Action::Reduce(other) => {
            push_reduce_action(text, production, other)?;
            Ok(())
        }
    }
}

// Appends the block of a conflict.
fn push_conflict<L: LookaheadPrinter<String>>(
    alloc: Global,
    text: &mut TextPieces,
    conflict: &Conflict<'_, L>,
    lines: &LookaheadLines<'_, L>,
) -> Result<(), OutOfMemory>
    ensures { OnOk result (text.new ≡ text.old ++ conflict_block L.meaning
        lines.now conflict.now) }
{
    let mut own = String::from_str(alloc, "\n")?;
    push_actions(alloc, &mut own, conflict.production, &conflict.action)?;
    lines.push_line(alloc, text, own, &conflict.lookahead)
}

// Appends the block of the conflict at a place, if there is one.
fn push_conflict_at<L: LookaheadPrinter<String>>(
    alloc: Global,
    text: &mut TextPieces,
    conflicts: &[Conflict<'_, L>],
    place: usize,
    lines: &LookaheadLines<'_, L>,
) -> Result<(), OutOfMemory>
    ensures { OnOk result (text.new ≡ text.old ++ block_at L.meaning
        lines.now (slice_get conflicts.now place)) }
{
    if place < conflicts.len() {
        push_conflict(alloc, text, &conflicts[place], lines)?;
    }
    Ok(())
}

/// Appends the blocks of the conflicts at places.
pub(crate) fn push_conflicts_at<L: LookaheadPrinter<String>>(
    alloc: Global,
    text: &mut TextPieces,
    conflicts: &[Conflict<'_, L>],
    places: &[usize],
    lines: &LookaheadLines<'_, L>,
) -> Result<(), OutOfMemory>
    ensures { OnOk result (text.new ≡ text.old ++ flat_map
        (λ place. block_at L.meaning lines.now (slice_get conflicts.now place)) places.now) }
{
    for place in places {
        push_conflict_at(alloc, text, conflicts, *place, lines)?;
    }
    Ok(())
}
