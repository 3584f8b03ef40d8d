//! Questions on the entries of states: actions, gotos and edges, and numbers of conflicts.
ghost use Rattle.lalrpop_base.specs.Words.{IsWellFormed};

use super::arguments::{method_at, options_from};
use super::checks::states_by;
use super::states::start_of;
use case_files::question::{Question, QuestionError};
use case_files::show::states::{push_counts, push_entry};
use lalrpop_base::lookahead::token::Token;
use lalrpop_base::lr1_core::conflict_count;
use lalrpop_base::lr1_core::state::Lr1State;
use lalrpop_base::memory::OutOfMemory;
use lalrpop_base::repr::grammar::Grammar;
use lalrpop_base::repr::terminals::TerminalSet;
use lalrpop_tables::lr1::build_states;
use std::alloc::Global;

/// Appends the result of a question on entries. Returns `false` if the call has another name.
pub fn answer(
    alloc: Global,
    text: &mut String,
    question: &Question<'_>,
    grammar: &Grammar,
) -> Result<bool, QuestionError>
    requires { IsWellFormed grammar.now }
{
    match question.call {
        "action" | "goto" | "edges" => entries(alloc, text, question, grammar)?,
        "conflict_count" => counts(alloc, text, question, grammar)?,
        _ => return Ok(false),
    }
    Ok(true)
}

// Appends the entries of the tables of a grammar, or the number of its conflicts.
fn entries(
    alloc: Global,
    text: &mut String,
    question: &Question<'_>,
    grammar: &Grammar,
) -> Result<(), QuestionError>
    requires { IsWellFormed grammar.now }
{
    let start = start_of(alloc, question, 1)?;
    let options = options_from(question, 3, method_at(question, 2)?)?;
    let built = build_states(alloc, grammar, start, &options);
    match &built {
        Ok(states) => Ok(push_all_entries(alloc, text, question, grammar, states)?),
        Err(_) => Ok(push_counts(text, &built)?),
    }
}

// Appends the entries of states, state by state.
fn push_all_entries(
    alloc: Global,
    text: &mut String,
    question: &Question<'_>,
    grammar: &Grammar,
    states: &[Lr1State<'_>],
) -> Result<(), OutOfMemory> {
    for state in states {
        push_entries(alloc, text, question, grammar, state)?;
    }
    Ok(())
}

// Appends the number of conflicts of each canonical state of a grammar.
fn counts(
    alloc: Global,
    text: &mut String,
    question: &Question<'_>,
    grammar: &Grammar,
) -> Result<(), QuestionError>
    requires { IsWellFormed grammar.now }
{
    let start = start_of(alloc, question, 1)?;
    let states = states_by(alloc, grammar, start, "canonical")?;
    Ok(push_conflict_counts(text, &states, &grammar.terminals)?)
}

// Appends the number of conflicts of each state.
fn push_conflict_counts(
    text: &mut String,
    states: &[Lr1State<'_>],
    terminals: &TerminalSet,
) -> Result<(), OutOfMemory> {
    for state in states {
        match conflict_count(state, terminals) {
            Some(count) => write!(text, "state {}: {count}\n", state.index)?,
            None => write!(text, "state {}: too many\n", state.index)?,
        }
    }
    Ok(())
}

// Appends the entries of a state that the question asks for.
fn push_entries(
    alloc: Global,
    text: &mut String,
    question: &Question<'_>,
    grammar: &Grammar,
    state: &Lr1State<'_>,
) -> Result<(), OutOfMemory> {
    write!(text, "state {}\n", state.index)?;
    match question.call {
        "action" => push_actions(alloc, text, grammar, state),
        "goto" => push_gotos(text, grammar, state),
        _ => push_edges(text, state),
    }
}

// Appends the actions of the state on each terminal, on `Eof` and on `Error`.
fn push_actions(
    alloc: Global,
    text: &mut String,
    grammar: &Grammar,
    state: &Lr1State<'_>,
) -> Result<(), OutOfMemory> {
    for terminal in grammar.terminals.all() {
        let token = Token::Terminal(terminal.clone(alloc)?);
        push_entry(text, &token, state.action(&token, &grammar.terminals))?;
    }
    push_entry(
        text,
        &Token::Eof,
        state.action(&Token::Eof, &grammar.terminals),
    )?;
    push_entry(
        text,
        &Token::Error,
        state.action(&Token::Error, &grammar.terminals),
    )
}

// Appends the state to which each nonterminal of the grammar leads.
fn push_gotos(
    text: &mut String,
    grammar: &Grammar,
    state: &Lr1State<'_>,
) -> Result<(), OutOfMemory> {
    for (name, _entry) in grammar.nonterminals.iter() {
        match state.goto(name) {
            Some(target) => write!(text, "  {name} to {target}\n")?,
            None => write!(text, "  {name} -\n")?,
        }
    }
    Ok(())
}

// Appends the edges of the state.
fn push_edges(text: &mut String, state: &Lr1State<'_>) -> Result<(), OutOfMemory> {
    for (symbol, target) in state.edges() {
        write!(text, "  {symbol} to {target}\n")?;
    }
    Ok(())
}
