//! Questions on the checks of tables.
ghost use Rattle.lalrpop_base.specs.Words.{IsWellFormed};

use super::changes::change_states;
use super::states::start_of;
use case_files::question::{Question, QuestionError};
use lalrpop_base::lr1_core::coherent::are_coherent;
use lalrpop_base::lr1_core::collapsible::are_collapsible;
use lalrpop_base::lr1_core::state::{BuildError, Lr1Result, Lr1State, TableConstructionError};
use lalrpop_base::memory::OutOfMemory;
use lalrpop_base::repr::NonterminalString;
use lalrpop_base::repr::grammar::Grammar;
use lalrpop_tables::build::build_lr1_states;
use lalrpop_tables::build::options::{Method, Options};
use lalrpop_tables::build_lalr::build_lalr_states;
use lalrpop_tables::check::check_tables;
use lalrpop_tables::lane_table::build_lane_table_states;
use std::alloc::Global;

/// Appends the result of a question on checks. Returns `false` if the call has another name.
pub fn answer(
    alloc: Global,
    text: &mut String,
    question: &Question<'_>,
    grammar: &Grammar,
) -> Result<bool, QuestionError>
    requires { IsWellFormed grammar.now }
{
    match question.call {
        "check_tables" => check(alloc, text, question, grammar)?,
        "are_collapsible" => collapsible(alloc, text, question, grammar)?,
        _ => return Ok(false),
    }
    Ok(true)
}

// Appends whether the canonical states are coherent and collapsible. Arguments can change the states
// first.
fn collapsible(
    alloc: Global,
    text: &mut String,
    question: &Question<'_>,
    grammar: &Grammar,
) -> Result<(), QuestionError>
    requires { IsWellFormed grammar.now }
{
    let start = start_of(alloc, question, 1)?;
    let mut states = states_by(alloc, grammar, start, "canonical")?;
    change_states(alloc, question, 2, &mut states, &grammar.terminals)?;
    push_kinds(text, &states)
}

// Appends whether states are coherent and collapsible.
fn push_kinds(text: &mut String, states: &[Lr1State<'_>]) -> Result<(), QuestionError> {
    write!(text, "are_coherent {}\n", are_coherent(states))?;
    write!(text, "are_collapsible {}\n", are_collapsible(states))?;
    Ok(())
}

// Appends whether the states of a construction pass the check.
fn check(
    alloc: Global,
    text: &mut String,
    question: &Question<'_>,
    grammar: &Grammar,
) -> Result<(), QuestionError>
    requires { IsWellFormed grammar.now }
{
    let start = start_of(alloc, question, 1)?;
    let way = question.argument(2)?;
    let mut states = states_by(alloc, grammar, start, way)?;
    check_changed(alloc, text, question, grammar, &mut states)
}

// Appends whether states pass the check after the changes that arguments name.
fn check_changed<'grammar>(
    alloc: Global,
    text: &mut String,
    question: &Question<'_>,
    grammar: &'grammar Grammar,
    states: &mut Vec<Lr1State<'grammar>>,
) -> Result<(), QuestionError>
    requires { IsWellFormed grammar.now }
{
    let (start, from) = start_asked(alloc, question)?;
    change_states(alloc, question, from, states, &grammar.terminals)?;
    match passes(alloc, grammar, start, states.as_slice())? {
        Some(yes) => write!(text, "{yes}\n")?,
        None => text.push_str("not coherent\n")?,
    }
    Ok(())
}

// The start symbol for the check, and the number of the first argument after it. It is the start
// symbol of the tables, or another one if the third argument is `for`.
fn start_asked(
    alloc: Global,
    question: &Question<'_>,
) -> Result<(NonterminalString, usize), QuestionError> {
    if question.is(3, "for") {
        return Ok((start_of(alloc, question, 4)?, 5));
    }
    Ok((start_of(alloc, question, 1)?, 3))
}

// Whether the states pass the check. `None` if they are not coherent or if there are none.
fn passes<'grammar>(
    alloc: Global,
    grammar: &'grammar Grammar,
    start: NonterminalString,
    states: &[Lr1State<'grammar>],
) -> Result<Option<bool>, OutOfMemory>
    requires { IsWellFormed grammar.now }
{
    if !are_coherent(states) {
        return Ok(None);
    }
    if states.is_empty() {
        return Ok(None);
    }
    Ok(Some(check_tables(alloc, grammar, start, states)?))
}

/// The states that a way of construction makes, also if they have conflicts. An error names the way
/// as the second argument.
pub fn states_by<'grammar>(
    alloc: Global,
    grammar: &'grammar Grammar,
    start: NonterminalString,
    way: &str,
) -> Result<Vec<Lr1State<'grammar>>, QuestionError>
    requires { IsWellFormed grammar.now }
{
    let lane = Options::default();
    let canonical = Options {
        method: Method::Canonical,
        ..lane
    };
    let built = match way {
        "canonical" => build_lr1_states(alloc, grammar, start, &canonical),
        "collapsed" => build_lalr_states(alloc, grammar, start, &canonical),
        "lane" => build_lane_table_states(alloc, grammar, start, lane.max_copies),
        "fallback" => build_lr1_states(alloc, grammar, start, &lane),
        _ => return Err(QuestionError::Argument(2)),
    };
    states_of(built)
}

/// The states of a construction, also if they have conflicts.
pub fn states_of(built: Lr1Result<'_>) -> Result<Vec<Lr1State<'_>>, QuestionError> {
    match built {
        Ok(states) => Ok(states),
        Err(BuildError::Conflicts(error)) => {
            let TableConstructionError { states, .. } = error;
            Ok(states)
        }
        Err(BuildError::Memory) => Err(QuestionError::Memory),
    }
}
