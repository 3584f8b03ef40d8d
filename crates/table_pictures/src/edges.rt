//! The edges of a graph. Each leads from a state to a state, by the symbol of the node there.
ghost use Rattle.std.specs.Prelude.{◌≡◌, ◌++◌, OnOk, string_bytes};
ghost use Rattle.std.specs.List.{flat_map, list_any};
ghost use Rattle.table_pictures.specs.Edges.{graph_edges, graph_goto_line, is_shift_conflict, graph_shift_line, shown_edge, shown_goto, shown_shift, shows_edge};

use crate::rounds::flag_at;
use lalrpop_base::lr1_core::state::{Action, Lr1Conflict, Lr1State, StateIndex};
use lalrpop_base::memory::OutOfMemory;
use lalrpop_base::repr::{NonterminalString, TerminalString};
use std::collections::BTreeMap;

/// The states and edges that are shown.
#[derive(Drop)]
pub enum ShownStates {
    /// All states, and all edges.
    All,
    /// The state with a number and its neighbours, and the edges that begin or end at that state.
    Around(usize),
    /// The states whose numbers have flags that are set, and the edges between these states.
    Only(Vec<bool>),
}

impl ShownStates {
    /// Whether an edge from one state to another is shown.
    pub(crate) fn has_edge(&self, from: usize, to: usize) -> bool
        ensures { result ≡ shows_edge self.now from to }
    {
        match self {
            ShownStates::All => true,
            ShownStates::Around(number) => from == *number || to == *number,
            ShownStates::Only(flags) => flag_at(flags, from, false) && flag_at(flags, to, false),
        }
    }
}

/// Appends the edges of a state: those of terminals, and dashed ones of nonterminals.
pub(crate) fn push_edges(
    text: &mut String,
    state: &Lr1State<'_>,
    conflicts: &[Lr1Conflict<'_>],
    shown: &ShownStates,
) -> Result<(), OutOfMemory>
    ensures { OnOk result
        (string_bytes text.new ≡
        string_bytes text.old ++ graph_edges conflicts.now shown.now state.now) }
{
    push_shifts(text, state.index, &state.shifts, conflicts, shown)?;
    push_gotos(text, state.index, &state.gotos, shown)?;
    Ok(())
}

// Appends the shifts of a state that are shown.
fn push_shifts(
    text: &mut String,
    from: StateIndex,
    shifts: &BTreeMap<TerminalString, StateIndex>,
    conflicts: &[Lr1Conflict<'_>],
    shown: &ShownStates,
) -> Result<(), OutOfMemory>
    ensures { OnOk result (string_bytes text.new ≡ string_bytes text.old ++ flat_map
        (shown_shift conflicts.now shown.now from.0) shifts.now.entries) }
{
    for (terminal, target) in shifts.iter() {
        push_shown_shift(text, from, terminal, *target, conflicts, shown)?;
    }
    Ok(())
}

// Appends the edge of a shift, if the edge is shown.
fn push_shown_shift(
    text: &mut String,
    from: StateIndex,
    terminal: &TerminalString,
    target: StateIndex,
    conflicts: &[Lr1Conflict<'_>],
    shown: &ShownStates,
) -> Result<(), OutOfMemory>
    ensures { OnOk result (string_bytes text.new ≡ string_bytes text.old ++ shown_shift
        conflicts.now shown.now from.0 (terminal.now, target)) }
{
    if !shown.has_edge(from.0, target.0) {
        return Ok(());
    }
    let is_red = is_in_conflict(conflicts, from, terminal);
    push_shift(text, from, target, is_red)?;
    Ok(())
}

// Whether the shift of a terminal in a state is an action of a conflict.
fn is_in_conflict(
    conflicts: &[Lr1Conflict<'_>],
    state: StateIndex,
    terminal: &TerminalString,
) -> bool
    ensures { result ≡ list_any (is_shift_conflict state.0 terminal.now) conflicts.now }
{
    conflicts.iter().any(|c| is_of_shift(c, state, terminal))
}

// Whether a conflict has the shift of a terminal in a state as its other action.
fn is_of_shift(conflict: &Lr1Conflict<'_>, state: StateIndex, terminal: &TerminalString) -> bool
    ensures { result ≡ is_shift_conflict state.0 terminal.now conflict.now }
{
    match &conflict.action {
        Action::Shift(other, _) => other == terminal && conflict.state.0 == state.0,
        Action::Reduce(_) => false,
    }
}

// Appends the edge of a shift, red if the shift is in a conflict.
fn push_shift(
    text: &mut String,
    from: StateIndex,
    target: StateIndex,
    is_red: bool,
) -> Result<(), OutOfMemory>
    ensures { OnOk result
        (string_bytes text.new ≡ string_bytes text.old ++ graph_shift_line is_red from.0 target.0) }
{
    if is_red {
        write!(text, "  {from} -> {target} [color=red];\n")?;
        return Ok(());
    }
    write!(text, "  {from} -> {target};\n")?;
    Ok(())
}

// Appends the gotos of a state that are shown.
fn push_gotos(
    text: &mut String,
    from: StateIndex,
    gotos: &BTreeMap<NonterminalString, StateIndex>,
    shown: &ShownStates,
) -> Result<(), OutOfMemory>
    ensures { OnOk result (string_bytes text.new ≡ string_bytes text.old ++ flat_map
        (shown_goto shown.now from.0) gotos.now.entries) }
{
    for (_, target) in gotos.iter() {
        push_shown_goto(text, from, *target, shown)?;
    }
    Ok(())
}

// Appends the edge of a goto, if the edge is shown.
fn push_shown_goto(
    text: &mut String,
    from: StateIndex,
    target: StateIndex,
    shown: &ShownStates,
) -> Result<(), OutOfMemory>
    ensures { OnOk result
        (string_bytes text.new ≡ string_bytes text.old ++ shown_edge shown.now from.0 target) }
{
    if !shown.has_edge(from.0, target.0) {
        return Ok(());
    }
    push_goto(text, from, target)?;
    Ok(())
}

// Appends the edge of a goto.
fn push_goto(text: &mut String, from: StateIndex, target: StateIndex) -> Result<(), OutOfMemory>
    ensures { OnOk result
        (string_bytes text.new ≡ string_bytes text.old ++ graph_goto_line from.0 target.0) }
{
    write!(text, "  {from} -> {target} [style=dashed];\n")?;
    Ok(())
}
