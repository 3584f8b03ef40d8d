//! The block of a state in a report.
ghost use Rattle.std.specs.Prelude.{◌≡◌, ◌++◌, IfOk, OnOk, string_bytes, map, List, Some, slice_get};
ghost use Rattle.std.specs.List.{flat_map};
ghost use Rattle.lalrpop_base.specs.Words.{Dotted, nonterminal_text};
ghost use Rattle.lalrpop_states.specs.declared.lr1_core.state.Conflict.{Conflict};
ghost use Rattle.lalrpop_report.specs.reports.ReportLines.{longest, reduction_lines, shift_line, goto_line};
ghost use Rattle.lalrpop_report.specs.reports.ReportStates.{items_block, reductions_block, edges_lines, state_block};

use super::conflicts::push_conflicts_at;
use super::lines::{push_goto, push_item, push_reduction, push_shift};
use super::lookahead_lines::LookaheadLines;
use super::printer::{HasDisplayLen, LookaheadPrinter};
use lalrpop_base::lr1_core::item::Item;
use lalrpop_base::lr1_core::state::{Conflict, State, StateIndex};
use lalrpop_base::memory::OutOfMemory;
use lalrpop_base::repr::{NonterminalString, Production, TerminalString};
use std::alloc::Global;
use std::collections::BTreeMap;
use text_pieces::TextPieces;

// The length in bytes of the longest nonterminal of the items, or 0 if there are none.
fn widest_nonterminal<L>(items: &[Item<'_, L>]) -> usize
    ensures { result ≡ longest
        (map (λ (i : Dotted L). nonterminal_text i.production.nonterminal) items.now) }
{
    let mut width = 0;
    for item in items {
        width = width.max(HasDisplayLen::display_len(&item.production.nonterminal));
    }
    width
}

// The length in bytes of the longest key, or 0 if there are none.
fn widest_key<K: Ord + HasDisplayLen, V>(edges: &BTreeMap<K, V>) -> usize
    ensures { result ≡ longest (map (λ (e : K × V). K.shown e.0) edges.now.entries) }
{
    let mut width = 0;
    for (key, _value) in edges.iter() {
        width = width.max(key.display_len());
    }
    width
}

// Appends the items of a state, their nonterminals padded to one width.
fn push_items<L: LookaheadPrinter<String>>(
    alloc: Global,
    text: &mut TextPieces,
    items: &[Item<'_, L>],
    lines: &LookaheadLines<'_, L>,
) -> Result<(), OutOfMemory>
    ensures { OnOk result (text.new ≡ text.old ++ items_block L.meaning
        lines.now items.now) }
{
    let width = widest_nonterminal(items);
    for item in items {
        push_item(alloc, text, item, width, lines)?;
    }
    Ok(())
}

// Appends the lines of reductions.
fn push_each_reduction<L: LookaheadPrinter<String>>(
    alloc: Global,
    text: &mut TextPieces,
    reductions: &[(L, &Production)],
    lines: &LookaheadLines<'_, L>,
) -> Result<(), OutOfMemory>
    ensures { OnOk result (text.new ≡ text.old ++ flat_map
        (reduction_lines L.meaning lines.now) reductions.now) }
{
    for reduction in reductions {
        push_reduction(alloc, text, reduction, lines)?;
    }
    Ok(())
}

// Appends an empty line and the reductions, if there are some.
fn push_reductions<L: LookaheadPrinter<String>>(
    alloc: Global,
    text: &mut TextPieces,
    reductions: &[(L, &Production)],
    lines: &LookaheadLines<'_, L>,
) -> Result<(), OutOfMemory>
    ensures { OnOk result (text.new ≡ text.old ++ reductions_block
        L.meaning lines.now reductions.now) }
{
    if reductions.is_empty() {
        return Ok(());
    }
    text.push_str(alloc, "\n")?;
    push_each_reduction(alloc, text, reductions, lines)?;
    Ok(())
}

// Appends the lines of shifts.
fn push_shifts(
    alloc: Global,
    text: &mut String,
    shifts: &BTreeMap<TerminalString, StateIndex>,
    width: usize,
) -> Result<(), OutOfMemory>
    ensures { OnOk result (string_bytes text.new ≡ string_bytes text.old ++ flat_map
        (shift_line width) shifts.now.entries) }
{
    for (terminal, target) in shifts.iter() {
        push_shift(alloc, text, terminal, *target, width)?;
    }
    Ok(())
}

// Appends the lines of gotos.
fn push_gotos(
    text: &mut String,
    gotos: &BTreeMap<NonterminalString, StateIndex>,
    width: usize,
) -> Result<(), OutOfMemory>
    ensures { OnOk result (string_bytes text.new ≡ string_bytes text.old ++ flat_map
        (goto_line width) gotos.now.entries) }
{
    for (nonterminal, target) in gotos.iter() {
        push_goto(text, nonterminal, *target, width)?;
    }
    Ok(())
}

// The lines of the shifts and the gotos, each part after an empty line, with all symbols in one
// width.
fn edges_text(
    alloc: Global,
    shifts: &BTreeMap<TerminalString, StateIndex>,
    gotos: &BTreeMap<NonterminalString, StateIndex>,
) -> Result<String, OutOfMemory>
    ensures { IfOk result (λ text. string_bytes text ≡ edges_lines shifts.now.entries
        gotos.now.entries) }
{
    let width = widest_key(shifts).max(widest_key(gotos));
    let mut text = String::from_str(alloc, "\n")?;
    push_shifts(alloc, &mut text, shifts, width)?;
    text.push_str("\n")?;
    push_gotos(&mut text, gotos, width)?;
    Ok(text)
}

/// Appends the block of a state, with the conflicts at the places of the list.
pub(crate) fn push_state<L: LookaheadPrinter<String>>(
    alloc: Global,
    text: &mut TextPieces,
    state: &State<'_, L>,
    conflicts: &[Conflict<'_, L>],
    places: &[usize],
    lines: &LookaheadLines<'_, L>,
) -> Result<(), OutOfMemory>
    ensures { (own : List (Conflict L)) →
        map (slice_get conflicts.now) places.now ≡ map (λ (c : Conflict L). Some c) own →
        OnOk result (text.new ≡ text.old ++ state_block L.meaning lines.now own state.now) }
{
    text.push_own(alloc, format!(in alloc; "State {} {{\n", state.index)?)?;
    push_items(alloc, text, &state.items.vec, lines)?;
    push_reductions(alloc, text, &state.reductions, lines)?;
    text.push_own(alloc, edges_text(alloc, &state.shifts, &state.gotos)?)?;
    push_conflicts_at(alloc, text, conflicts, places, lines)?;
    text.push_str(alloc, "}\n")?;
    Ok(())
}
