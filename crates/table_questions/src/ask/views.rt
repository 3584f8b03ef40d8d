//! Questions on the views of states: the prefix that a state has read, and what it pops, pushes and
//! produces.
ghost use Rattle.lalrpop_base.specs.Words.{IsWellFormed};

use super::checks::states_by;
use super::graphs::lr0_states;
use super::states::start_of;
use case_files::question::{Question, QuestionError};
use case_files::show::words::push_list;
use lalrpop_base::lr1_core::state::State;
use lalrpop_base::repr::grammar::Grammar;
use std::alloc::Global;

/// Appends the views of states: of the canonical states if the second argument is `canonical`, and
/// else of the LR(0) states. Returns `false` if the call has another name.
pub fn answer(
    alloc: Global,
    text: &mut String,
    question: &Question<'_>,
    grammar: &Grammar,
) -> Result<bool, QuestionError>
    requires { IsWellFormed grammar.now }
{
    if question.call != "views" {
        return Ok(false);
    }
    let start = start_of(alloc, question, 1)?;
    if question.is(2, "canonical") {
        let states = states_by(alloc, grammar, start, "canonical")?;
        push_all(alloc, text, &states)?;
    } else {
        let states = lr0_states(alloc, grammar, start)?;
        push_all(alloc, text, &states)?;
    }
    Ok(true)
}

// Appends the views of states.
fn push_all<L>(
    alloc: Global,
    text: &mut String,
    states: &[State<'_, L>],
) -> Result<(), QuestionError> {
    for state in states {
        push_views(alloc, text, state)?;
    }
    Ok(())
}

// Appends the views of a state.
fn push_views<L>(
    alloc: Global,
    text: &mut String,
    state: &State<'_, L>,
) -> Result<(), QuestionError> {
    write!(text, "state {}\n  max_prefix", state.index)?;
    if state.items.vec.is_empty() {
        text.push_str(" -")?;
    } else {
        push_list(text, state.max_prefix())?;
    }
    text.push_str("\n  will_pop")?;
    push_list(text, state.will_pop())?;
    text.push_str("\n  will_push")?;
    push_list(text, state.will_push())?;
    match state.will_produce(alloc)? {
        Some(name) => write!(text, "\n  will_produce {name}\n")?,
        None => text.push_str("\n  will_produce -\n")?,
    }
    Ok(())
}
