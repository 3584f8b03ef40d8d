//! The lines of a report.
ghost use Rattle.std.specs.Prelude.{◌≡◌, ◌++◌, OnOk, string_bytes};
ghost use Rattle.lalrpop_base.specs.Words.{symbols_text};
ghost use Rattle.lalrpop_report.specs.reports.ReportLines.{filled, production_line, lookahead_line, item_lines, reduction_lines, shift_line, goto_line};

use super::lookahead_lines::LookaheadLines;
use super::printer::LookaheadPrinter;
use lalrpop_base::lr1_core::item::Item;
use lalrpop_base::lr1_core::state::StateIndex;
use lalrpop_base::memory::OutOfMemory;
use lalrpop_base::repr::terminals::TerminalSet;
use lalrpop_base::repr::{NonterminalString, Production, Symbol, TerminalString};
use std::alloc::Global;
use text_pieces::TextPieces;

/// Appends a text, and then spaces until there are `width` characters. A longer text is not cut.
pub(crate) fn push_filled(text: &mut String, shown: &str, width: usize) -> Result<(), OutOfMemory>
    ensures { OnOk result
        (string_bytes text.new ≡ string_bytes text.old ++ filled width shown.now) }
{
    let _length = shown.len();
    write!(text, "{shown:width$}")?;
    Ok(())
}

// Appends symbols, each after a space.
fn push_symbols(text: &mut String, symbols: &[Symbol]) -> Result<(), OutOfMemory>
    ensures { OnOk result
        (string_bytes text.new ≡ string_bytes text.old ++ symbols_text symbols.now) }
{
    for symbol in symbols {
        write!(text, " {symbol}")?;
    }
    Ok(())
}

/// Appends the line of a production.
pub(crate) fn push_production(text: &mut String, production: &Production) -> Result<(), OutOfMemory>
    ensures { OnOk result
        (string_bytes text.new ≡ string_bytes text.old ++ production_line production.now) }
{
    write!(text, "{production}\n")?;
    Ok(())
}

/// Appends the line of the tokens of a lookahead, if it has a token.
pub(crate) fn push_lookahead<L: LookaheadPrinter<String>>(
    text: &mut String,
    lookahead: &L,
    terminals: &TerminalSet,
) -> Result<(), OutOfMemory>
    ensures { OnOk result (string_bytes text.new ≡ string_bytes text.old ++ lookahead_line L.meaning
        terminals.now lookahead.now) }
{
    if !lookahead.has_anything_to_print() {
        return Ok(());
    }
    text.push_str("        lookahead")?;
    if lookahead.print(terminals, text).is_err() {
        return Err(OutOfMemory);
    }
    text.push_str("\n")?;
    Ok(())
}

/// Appends an empty line and the lines of an item. Its nonterminal is padded to `width` characters.
pub(crate) fn push_item<L: LookaheadPrinter<String>>(
    alloc: Global,
    text: &mut TextPieces,
    item: &Item<'_, L>,
    width: usize,
    lines: &LookaheadLines<'_, L>,
) -> Result<(), OutOfMemory>
    ensures { OnOk result
        (text.new ≡ text.old ++ item_lines L.meaning lines.now width item.now) }
{
    let mut own = String::new(alloc);
    own.push_str("\n    ")?;
    push_filled(&mut own, item.production.nonterminal.text.as_str(), width)?;
    own.push_str(" ->")?;
    push_symbols(&mut own, item.prefix())?;
    own.push_str(" .")?;
    push_symbols(&mut own, item.rest())?;
    own.push_str("\n")?;
    lines.push_line(alloc, text, own, &item.lookahead)
}

/// Appends an empty line and the lines of a reduction.
pub(crate) fn push_reduction<L: LookaheadPrinter<String>>(
    alloc: Global,
    text: &mut TextPieces,
    reduction: &(L, &Production),
    lines: &LookaheadLines<'_, L>,
) -> Result<(), OutOfMemory>
    ensures { OnOk result
        (text.new ≡ text.old ++ reduction_lines L.meaning lines.now reduction.now) }
{
    let mut own = String::new(alloc);
    own.push_str("\n    reduction ")?;
    push_production(&mut own, reduction.1)?;
    lines.push_line(alloc, text, own, &reduction.0)
}

/// Appends the line of a shift. Its terminal is padded to `width` characters.
pub(crate) fn push_shift(
    alloc: Global,
    text: &mut String,
    terminal: &TerminalString,
    target: StateIndex,
    width: usize,
) -> Result<(), OutOfMemory>
    ensures { OnOk result
        (string_bytes text.new ≡ string_bytes text.old ++ shift_line width (terminal.now, target)) }
{
    let shown = format!(in alloc; "{terminal}")?;
    text.push_str("    ")?;
    push_filled(text, shown.as_str(), width)?;
    write!(text, " shift and goto {target}\n")?;
    Ok(())
}

/// Appends the line of a goto. Its nonterminal is padded to `width` characters.
pub(crate) fn push_goto(
    text: &mut String,
    nonterminal: &NonterminalString,
    target: StateIndex,
    width: usize,
) -> Result<(), OutOfMemory>
    ensures { OnOk result (string_bytes text.new ≡ string_bytes text.old ++ goto_line width
        (nonterminal.now, target)) }
{
    text.push_str("    ")?;
    push_filled(text, nonterminal.text.as_str(), width)?;
    write!(text, " goto {target}\n")?;
    Ok(())
}
