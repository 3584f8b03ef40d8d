//! States, conflicts, and results of constructions.
use super::words::{ShownLookahead, push_item, push_production};
use lalrpop_base::lookahead::token::Token;
use lalrpop_base::lr1_core::ActionEntry;
use lalrpop_base::lr1_core::state::{Action, BuildError, Conflict, LrResult, State};
use lalrpop_base::memory::OutOfMemory;
use lalrpop_base::repr::terminals::TerminalSet;

/// Appends the result of a construction: tables, or states with conflicts.
pub fn push_result<L: ShownLookahead>(
    text: &mut String,
    answer: &LrResult<'_, L>,
    terminals: &TerminalSet,
) -> Result<(), OutOfMemory> {
    push_counts(text, answer)?;
    match answer {
        Ok(states) => push_states(text, states, terminals),
        Err(BuildError::Conflicts(error)) => {
            push_states(text, &error.states, terminals)?;
            push_conflicts(text, &error.conflicts, terminals)
        }
        Err(BuildError::Memory) => Err(OutOfMemory),
    }
}

/// Appends the numbers of states and conflicts.
pub fn push_counts<L>(text: &mut String, answer: &LrResult<'_, L>) -> Result<(), OutOfMemory> {
    match answer {
        Ok(states) => write!(text, "tables: {} states\n", states.len())?,
        Err(BuildError::Conflicts(error)) => {
            let count = error.conflicts.len();
            write!(text, "conflicts: {count}, {} states\n", error.states.len())?
        }
        Err(BuildError::Memory) => return Err(OutOfMemory),
    }
    Ok(())
}

/// Appends states.
pub fn push_states<L: ShownLookahead>(
    text: &mut String,
    states: &[State<'_, L>],
    terminals: &TerminalSet,
) -> Result<(), OutOfMemory> {
    for state in states {
        push_state(text, state, terminals)?;
    }
    Ok(())
}

// Appends a state: its items, shifts, gotos and reductions.
fn push_state<L: ShownLookahead>(
    text: &mut String,
    state: &State<'_, L>,
    terminals: &TerminalSet,
) -> Result<(), OutOfMemory> {
    write!(text, "state {}\n", state.index)?;
    push_items(text, state, terminals)?;
    push_edges(text, state)?;
    push_reductions(text, state, terminals)
}

// Appends the items of a state.
fn push_items<L: ShownLookahead>(
    text: &mut String,
    state: &State<'_, L>,
    terminals: &TerminalSet,
) -> Result<(), OutOfMemory> {
    for item in &state.items.vec {
        text.push_str("  ")?;
        push_item(text, item, terminals)?;
        text.push_str("\n")?;
    }
    Ok(())
}

// Appends the shifts and gotos of a state.
fn push_edges<L>(text: &mut String, state: &State<'_, L>) -> Result<(), OutOfMemory> {
    for (terminal, target) in state.shifts.iter() {
        write!(text, "  shift {terminal} to {target}\n")?;
    }
    for (name, target) in state.gotos.iter() {
        write!(text, "  goto {name} to {target}\n")?;
    }
    Ok(())
}

// Appends the reductions of a state.
fn push_reductions<L: ShownLookahead>(
    text: &mut String,
    state: &State<'_, L>,
    terminals: &TerminalSet,
) -> Result<(), OutOfMemory> {
    for (lookahead, production) in &state.reductions {
        text.push_str("  reduce ")?;
        push_production(text, production)?;
        lookahead.push_on(text, terminals)?;
        text.push_str("\n")?;
    }
    Ok(())
}

/// Appends conflicts.
pub fn push_conflicts<L: ShownLookahead>(
    text: &mut String,
    conflicts: &[Conflict<'_, L>],
    terminals: &TerminalSet,
) -> Result<(), OutOfMemory> {
    for conflict in conflicts {
        write!(text, "conflict in state {}", conflict.state)?;
        conflict.lookahead.push_on(text, terminals)?;
        text.push_str(", reduce ")?;
        push_production(text, conflict.production)?;
        push_action(text, &conflict.action)?;
        text.push_str("\n")?;
    }
    Ok(())
}

// Appends the other action of a conflict.
fn push_action(text: &mut String, action: &Action<'_>) -> Result<(), OutOfMemory> {
    match action {
        Action::Shift(terminal, target) => write!(text, ", shift {terminal} to {target}")?,
        Action::Reduce(production) => {
            text.push_str(", reduce ")?;
            push_production(text, production)?;
        }
    }
    Ok(())
}

/// Appends the action of a state on a token, or a hyphen if there is none.
pub fn push_entry(
    text: &mut String,
    token: &Token,
    entry: Option<ActionEntry<'_>>,
) -> Result<(), OutOfMemory> {
    write!(text, "  {token} ")?;
    match entry {
        Some(ActionEntry::Shift(target)) => write!(text, "shift to {target}\n")?,
        Some(ActionEntry::Reduce(production)) => {
            text.push_str("reduce ")?;
            push_production(text, production)?;
            text.push_str("\n")?;
        }
        None => text.push_str("-\n")?,
    }
    Ok(())
}
