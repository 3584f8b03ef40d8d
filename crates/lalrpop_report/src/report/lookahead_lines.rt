//! The lines of lookaheads, each made once.
ghost use Rattle.std.specs.Prelude.{◌≡◌, ◌++◌, IfOk, IfSome, OnOk, string_bytes};
ghost use Rattle.lalrpop_report.specs.reports.ReportLines.{lookahead_line};

use super::lines::push_lookahead;
use super::printer::LookaheadPrinter;
use lalrpop_base::lr1_core::state::{Conflict, State};
use lalrpop_base::memory::OutOfMemory;
use lalrpop_base::repr::terminals::TerminalSet;
use lalrpop_base::text::Text;
use std::alloc::Global;
use std::collections::BTreeMap;
use std::marker::Model;
use text_pieces::TextPieces;

/// Lookaheads with their lines in a report. A lane table's items all have one lookahead, with all
/// tokens. So its line is copied, and not made for each item.
#[derive(Drop)]
pub(crate) struct LookaheadLines<'a, L: LookaheadPrinter<String>> {
    terminals: &'a TerminalSet,
    lines: Vec<(L, Text)>,
    places: BTreeMap<L, usize>,
}

impl<'a, L: LookaheadPrinter<String>> Model for LookaheadLines<'a, L> {
    ghost use Rattle.std.specs.Prelude.{List};
    ghost use Rattle.lalrpop_grammar.specs.declared.repr.TerminalString.{TerminalString};
    ghost use Rattle.lalrpop_report.specs.reports.ReportLines.{AreLines};

    ghost Value = { List TerminalString };

    ghost view = { λ s. s.terminals.now };

    ghost invariant = { λ s. AreLines L.meaning s.terminals.now s.lines.items };
}

impl<'a, L: LookaheadPrinter<String>> LookaheadLines<'a, L> {
    // No lines yet.
    fn new(alloc: Global, terminals: &'a TerminalSet) -> Self
        ensures { result ≡ terminals.now }
    {
        LookaheadLines {
            terminals,
            lines: Vec::new(alloc),
            places: BTreeMap::new(alloc),
        }
    }

    // The line of a lookahead, if it was made.
    fn find(&self, lookahead: &L) -> Option<&Text>
        ensures { IfSome result
            (λ line. line.now ≡ lookahead_line L.meaning self.now lookahead.now) }
    {
        let place = *self.places.get(lookahead)?;
        if place >= self.lines.len() {
            return None;
        }
        let (known, line) = &self.lines[place];
        if known.is_printed_as(lookahead) {
            return Some(line);
        }
        None
    }

    // Makes the line of a lookahead, unless it is there.
    fn add(&mut self, alloc: Global, lookahead: &L) -> Result<(), OutOfMemory>
        ensures { self.new ≡ self.old }
    {
        if self.find(lookahead).is_some() {
            return Ok(());
        }
        let line = line_of(alloc, lookahead, self.terminals)?;
        let place = self.lines.len();
        self.lines.push((lookahead.copy(alloc)?, line))?;
        let _known = self.places.insert(lookahead.copy(alloc)?, place)?;
        Ok(())
    }

    // The line of a lookahead, or no bytes if it has no token. If the line was made, this is a copy.
    fn line(&self, alloc: Global, lookahead: &L) -> Result<Text, OutOfMemory>
        ensures { IfOk result
            (λ line. line ≡ lookahead_line L.meaning self.now lookahead.now) }
    {
        match self.find(lookahead) {
            Some(line) => line.clone(alloc),
            None => line_of(alloc, lookahead, self.terminals),
        }
    }

    /// Appends a string and the line of a lookahead, if it has a token.
    pub(crate) fn push_line(
        &self,
        alloc: Global,
        text: &mut TextPieces,
        own: String,
        lookahead: &L,
    ) -> Result<(), OutOfMemory>
        ensures { OnOk result (text.new ≡ text.old ++ (string_bytes own ++ lookahead_line L.meaning
            self.now lookahead.now)) }
    {
        text.push(own, self.line(alloc, lookahead)?)
    }
}

// The line of a lookahead, or no bytes if it has no token.
fn line_of<L: LookaheadPrinter<String>>(
    alloc: Global,
    lookahead: &L,
    terminals: &TerminalSet,
) -> Result<Text, OutOfMemory>
    ensures { IfOk result
        (λ line. line ≡ lookahead_line L.meaning terminals.now lookahead.now) }
{
    let mut line = String::new(alloc);
    push_lookahead(&mut line, lookahead, terminals)?;
    Text::from_string(alloc, line)
}

/// The lines of the lookaheads of states and of conflicts.
pub(crate) fn lines_of<'a, L: LookaheadPrinter<String>>(
    alloc: Global,
    terminals: &'a TerminalSet,
    states: &[State<'_, L>],
    conflicts: &[Conflict<'_, L>],
) -> Result<LookaheadLines<'a, L>, OutOfMemory>
    ensures { IfOk result (λ lines. lines ≡ terminals.now) }
{
    let mut lines = LookaheadLines::new(alloc, terminals);
    for state in states {
        add_lines_of_state(alloc, state, &mut lines)?;
    }
    add_lines_of_conflicts(alloc, conflicts, &mut lines)?;
    Ok(lines)
}

// Adds the lines of the items and of the reductions of a state.
fn add_lines_of_state<L: LookaheadPrinter<String>>(
    alloc: Global,
    state: &State<'_, L>,
    lines: &mut LookaheadLines<'_, L>,
) -> Result<(), OutOfMemory>
    ensures { lines.new ≡ lines.old }
{
    add_lines_of_items(alloc, state, lines)?;
    add_lines_of_reductions(alloc, state, lines)
}

// Adds the lines of the items of a state.
fn add_lines_of_items<L: LookaheadPrinter<String>>(
    alloc: Global,
    state: &State<'_, L>,
    lines: &mut LookaheadLines<'_, L>,
) -> Result<(), OutOfMemory>
    ensures { lines.new ≡ lines.old }
{
    for item in &state.items.vec {
        lines.add(alloc, &item.lookahead)?;
    }
    Ok(())
}

// Adds the lines of the reductions of a state.
fn add_lines_of_reductions<L: LookaheadPrinter<String>>(
    alloc: Global,
    state: &State<'_, L>,
    lines: &mut LookaheadLines<'_, L>,
) -> Result<(), OutOfMemory>
    ensures { lines.new ≡ lines.old }
{
    for reduction in &state.reductions {
        lines.add(alloc, &reduction.0)?;
    }
    Ok(())
}

// Adds the lines of conflicts.
fn add_lines_of_conflicts<L: LookaheadPrinter<String>>(
    alloc: Global,
    conflicts: &[Conflict<'_, L>],
    lines: &mut LookaheadLines<'_, L>,
) -> Result<(), OutOfMemory>
    ensures { lines.new ≡ lines.old }
{
    for conflict in conflicts {
        lines.add(alloc, &conflict.lookahead)?;
    }
    Ok(())
}
