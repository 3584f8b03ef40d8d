//! The whole text of a report.
ghost use Rattle.std.specs.Prelude.{◌≡◌, ◌++◌, IfOk, IfErr, OnOk, string_bytes, Some};
ghost use Rattle.std.specs.List.{flat_map};
ghost use Rattle.std.specs.Ordering.{nat_cmp};
ghost use Rattle.lalrpop_base.specs.Words.{collection_at};
ghost use Rattle.lalrpop_report.specs.reports.Report.{next_state, states_section, tables_report, failure_report, error_report, report_text};
ghost use Rattle.lalrpop_report.specs.reports.ReportPlaces.{places_of, ArePlacesOf};
ghost use Rattle.lalrpop_report.specs.reports.ReportSinks.{IfWriteFault, TellsOfText};

use super::error::ReportError;
use super::lookahead_lines::{LookaheadLines, lines_of};
use super::printer::LookaheadPrinter;
use super::states::push_state;
use super::summary::{push_conflicts_summary, push_opening, push_section_header, push_states_line};
use lalrpop_base::collections::multimap::Multimap;
use lalrpop_base::lr1_core::state::{BuildError, Conflict, LrResult, State};
use lalrpop_base::memory::OutOfMemory;
use lalrpop_base::repr::terminals::TerminalSet;
use std::alloc::Global;
use text_pieces::TextPieces;

// For the number of a state, the places of its conflicts in the list.
type Places = Multimap<usize, Vec<usize>>;

// The places of the conflicts of each state.
fn places_by_state<L>(alloc: Global, conflicts: &[Conflict<'_, L>]) -> Result<Places, OutOfMemory>
    ensures { IfOk result (λ places. ArePlacesOf conflicts.now conflicts.now places) }
{
    let mut places = Multimap::new(alloc);
    for (place, conflict) in conflicts.iter().enumerate() {
        Multimap::push(&mut places, conflict.state.0, place)?;
    }
    Ok(places)
}

// The places for the number of a state. There are none if the map does not have the number.
fn places_in(places: &Places, number: usize) -> &[usize]
    ensures { result.now ≡ places_of (collection_at nat_cmp places.now number) }
{
    match places.get(&number) {
        Some(list) => list.as_slice(),
        None => &[],
    }
}

// Appends an empty line and the block of a state with its conflicts.
fn push_next_state<L: LookaheadPrinter<String>>(
    alloc: Global,
    text: &mut TextPieces,
    state: &State<'_, L>,
    conflicts: &[Conflict<'_, L>],
    places: &Places,
    lines: &LookaheadLines<'_, L>,
) -> Result<(), OutOfMemory>
    requires { ArePlacesOf conflicts.now conflicts.now places.now }
    ensures { OnOk result (text.new ≡ text.old ++ next_state L.meaning
        lines.now conflicts.now state.now) }
{
    text.push_str(alloc, "\n")?;
    let own = places_in(places, state.index.0);
    push_state(alloc, text, state, conflicts, own, lines)?;
    Ok(())
}

// Appends the blocks of states with their conflicts.
fn push_states<L: LookaheadPrinter<String>>(
    alloc: Global,
    text: &mut TextPieces,
    states: &[State<'_, L>],
    conflicts: &[Conflict<'_, L>],
    places: &Places,
    lines: &LookaheadLines<'_, L>,
) -> Result<(), OutOfMemory>
    requires { ArePlacesOf conflicts.now conflicts.now places.now }
    ensures { OnOk result (text.new ≡ text.old ++ flat_map
        (next_state L.meaning lines.now conflicts.now) states.now) }
{
    for state in states {
        push_next_state(alloc, text, state, conflicts, places, lines)?;
    }
    Ok(())
}

// A report from its summary on: the summary, which is given, and the section of the states.
fn with_states<L: LookaheadPrinter<String>>(
    alloc: Global,
    mut summary: String,
    states: &[State<'_, L>],
    conflicts: &[Conflict<'_, L>],
    terminals: &TerminalSet,
) -> Result<TextPieces, OutOfMemory>
    ensures { IfOk result (λ text. text ≡ string_bytes summary ++ states_section L.meaning
        terminals.now conflicts.now states.now) }
{
    let places = places_by_state(alloc, conflicts)?;
    let lines = lines_of(alloc, terminals, states, conflicts)?;
    push_section_header(&mut summary, "State Table")?;
    let mut text = TextPieces::of(alloc, summary)?;
    push_states(alloc, &mut text, states, conflicts, &places, &lines)?;
    Ok(text)
}

// The report of tables.
fn tables_text<'grammar, L: LookaheadPrinter<String>>(
    alloc: Global,
    terminals: &TerminalSet,
    states: &[State<'grammar, L>],
) -> Result<TextPieces, OutOfMemory>
    ensures { IfOk result
        (λ text. text ≡ tables_report L.meaning terminals.now states.now) }
{
    let conflicts: Vec<Conflict<'grammar, L>> = Vec::new(alloc);
    let mut summary = String::new(alloc);
    push_opening(&mut summary)?;
    push_states_line(&mut summary, states.len())?;
    with_states(alloc, summary, states, &conflicts, terminals)
}

// The report of conflicts.
fn failure_text<L: LookaheadPrinter<String>>(
    alloc: Global,
    terminals: &TerminalSet,
    states: &[State<'_, L>],
    conflicts: &[Conflict<'_, L>],
) -> Result<TextPieces, OutOfMemory>
    ensures { IfOk result (λ text. text ≡ failure_report L.meaning terminals.now
        states.now conflicts.now) }
{
    let mut summary = String::new(alloc);
    push_opening(&mut summary)?;
    summary.push_str("Failure\n")?;
    push_states_line(&mut summary, states.len())?;
    push_conflicts_summary(alloc, &mut summary, conflicts)?;
    with_states(alloc, summary, states, conflicts, terminals)
}

// The text of the report of an error. The error is `NoTables` for an allocation failure.
fn error_text<L: LookaheadPrinter<String>>(
    alloc: Global,
    terminals: &TerminalSet,
    error: &BuildError<'_, L>,
) -> Result<TextPieces, ReportError>
    ensures text { IfOk result
        (λ text. error_report L.meaning terminals.now error.now ≡ Some text) }
    ensures offered { IfErr result (λ e. IfWriteFault e ⊥) }
    ensures tables { IfErr result (TellsOfText (error_report L.meaning terminals.now error.now)) }
{
    match error {
        BuildError::Conflicts(error) => Ok(failure_text(
            alloc,
            terminals,
            &error.states,
            &error.conflicts,
        )?),
        BuildError::Memory => Err(ReportError::NoTables),
    }
}

/// The text of the report of the result of a construction, in pieces: a line of a lookahead that
/// stands many times is kept once. The error is `NoTables` if that result is an allocation failure,
/// or `Memory` if an allocation fails here.
pub fn report_pieces<L: LookaheadPrinter<String>>(
    alloc: Global,
    terminals: &TerminalSet,
    outcome: &LrResult<'_, L>,
) -> Result<TextPieces, ReportError>
    ensures text { IfOk result
        (λ text. report_text L.meaning terminals.now outcome.now ≡ Some text) }
    ensures offered { IfErr result (λ e. IfWriteFault e ⊥) }
    ensures tables { IfErr result (TellsOfText (report_text L.meaning terminals.now outcome.now)) }
{
    match outcome {
        Ok(states) => Ok(tables_text(alloc, terminals, states)?),
        Err(error) => {
            let text = error_text(alloc, terminals, error)?;
            Ok(text)
        }
    }
}

/// The text of the report of the result of a construction, as one string. The error is `NoTables` if
/// that result is an allocation failure, or `Memory` if an allocation fails here.
pub fn report_text<L: LookaheadPrinter<String>>(
    alloc: Global,
    terminals: &TerminalSet,
    outcome: &LrResult<'_, L>,
) -> Result<String, ReportError>
    ensures text { IfOk result
        (λ text. report_text L.meaning terminals.now outcome.now ≡ Some (string_bytes text)) }
    ensures offered { IfErr result (λ e. IfWriteFault e ⊥) }
    ensures tables { IfErr result (TellsOfText (report_text L.meaning terminals.now outcome.now)) }
{
    let pieces = report_pieces(alloc, terminals, outcome)?;
    Ok(pieces.to_string(alloc)?)
}
