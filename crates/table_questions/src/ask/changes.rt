//! Changes of LR(1) states that arguments name.
use super::arguments::{known_symbol, piece_end, tokens_between};
use case_files::question::{Question, QuestionError};
use lalrpop_base::lookahead::token_set::TokenSet;
use lalrpop_base::lr1_core::state::{Items, Lr1State, State, StateIndex};
use lalrpop_base::memory::OutOfMemory;
use lalrpop_base::repr::Symbol;
use lalrpop_base::repr::terminals::TerminalSet;
use std::alloc::Global;
use std::collections::BTreeMap;

/// Makes the changes that the arguments from a number on name, one after the other. A comma is
/// between two changes. A comma after the last one is an error.
pub fn change_states(
    alloc: Global,
    question: &Question<'_>,
    from: usize,
    states: &mut Vec<Lr1State<'_>>,
    terminals: &TerminalSet,
) -> Result<(), QuestionError> {
    let after = question.arguments.len().saturating_add(1);
    let mut begin = from;
    for number in from..after {
        if number == begin {
            let end = piece_end(question, begin, after);
            change(alloc, question, begin, end, states, terminals)?;
            begin = end.saturating_add(1);
        }
    }
    if from < begin && begin == after {
        return Err(QuestionError::Argument(after));
    }
    Ok(())
}

// Makes the change that the arguments `from..to` name.
fn change(
    alloc: Global,
    question: &Question<'_>,
    from: usize,
    to: usize,
    states: &mut Vec<Lr1State<'_>>,
    terminals: &TerminalSet,
) -> Result<(), QuestionError> {
    let end = match question.argument(from)? {
        "add_state" | "add_items" | "add_copy" => add(alloc, question, from, states)?,
        "edge" | "no_edge" => change_edge(alloc, question, from, states, terminals)?,
        "no_reductions" | "reductions_twice" | "no_last_item" | "items_twice" => {
            change_list(alloc, question, from, states)?
        }
        _ => change_tokens(alloc, question, from, to, states, terminals)?,
    };
    if end < to {
        return Err(QuestionError::Argument(end));
    }
    Ok(())
}

// The state whose number an argument gives.
fn state_at<'states, 'grammar>(
    question: &Question<'_>,
    number: usize,
    states: &'states mut [Lr1State<'grammar>],
) -> Result<&'states mut Lr1State<'grammar>, QuestionError> {
    match states.get_mut(question.number(number)?) {
        Some(state) => Ok(state),
        None => Err(QuestionError::Argument(number)),
    }
}

// Adds an empty state, one with the items of another, or a copy of another. It returns the number
// of the argument after the change, as do the functions below.
fn add(
    alloc: Global,
    question: &Question<'_>,
    from: usize,
    states: &mut Vec<Lr1State<'_>>,
) -> Result<usize, QuestionError> {
    let second = from.saturating_add(1);
    let index = StateIndex(states.len());
    let word = question.argument(from)?;
    if word == "add_state" {
        states.push(State {
            index,
            items: Items {
                vec: Vec::new(alloc),
            },
            shifts: BTreeMap::new(alloc),
            reductions: Vec::new(alloc),
            gotos: BTreeMap::new(alloc),
        })?;
        return Ok(second);
    }
    let mut added = state_at(question, second, states)?.clone(alloc)?;
    added.index = index;
    if word == "add_items" {
        leave_items(&mut added);
    }
    states.push(added)?;
    Ok(second.saturating_add(1))
}

// Leaves a state nothing but its items.
fn leave_items(state: &mut Lr1State<'_>) {
    state.shifts.clear();
    state.reductions.clear();
    state.gotos.clear();
}

// Adds an edge from a state by a symbol to a state, or removes such an edge.
fn change_edge(
    alloc: Global,
    question: &Question<'_>,
    from: usize,
    states: &mut [Lr1State<'_>],
    terminals: &TerminalSet,
) -> Result<usize, QuestionError> {
    let third = from.saturating_add(2);
    let fourth = from.saturating_add(3);
    let symbol = known_symbol(alloc, question, third, terminals)?;
    let state = state_at(question, from.saturating_add(1), states)?;
    if question.argument(from)? == "edge" {
        let target = StateIndex(question.number(fourth)?);
        add_edge(state, symbol, target)?;
        return Ok(fourth.saturating_add(1));
    }
    if !remove_edge(state, &symbol) {
        return Err(QuestionError::Argument(third));
    }
    Ok(fourth)
}

// Adds an edge by a symbol.
fn add_edge(
    state: &mut Lr1State<'_>,
    symbol: Symbol,
    target: StateIndex,
) -> Result<(), OutOfMemory> {
    match symbol {
        Symbol::Terminal(terminal) => state.shifts.insert(terminal, target)?,
        Symbol::Nonterminal(name) => state.gotos.insert(name, target)?,
    };
    Ok(())
}

// Removes the edge by a symbol, and returns whether there was one.
fn remove_edge(state: &mut Lr1State<'_>, symbol: &Symbol) -> bool {
    let old = match symbol {
        Symbol::Terminal(terminal) => state.shifts.remove(terminal),
        Symbol::Nonterminal(name) => state.gotos.remove(name),
    };
    old.is_some()
}

// Removes the reductions or the last item of a state, or doubles its reductions or its items. It is
// an error if there are none.
fn change_list(
    alloc: Global,
    question: &Question<'_>,
    from: usize,
    states: &mut [Lr1State<'_>],
) -> Result<usize, QuestionError> {
    let second = from.saturating_add(1);
    let state = state_at(question, second, states)?;
    let is_empty = match question.argument(from)? {
        "no_reductions" => {
            let is_empty = state.reductions.is_empty();
            state.reductions.clear();
            is_empty
        }
        "reductions_twice" => {
            double_reductions(alloc, state)?;
            state.reductions.is_empty()
        }
        "no_last_item" => state.items.vec.pop().is_none(),
        _ => {
            double_items(alloc, state)?;
            state.items.vec.is_empty()
        }
    };
    if is_empty {
        return Err(QuestionError::Argument(second));
    }
    Ok(second.saturating_add(1))
}

// Lists the reductions of a state twice.
fn double_reductions(alloc: Global, state: &mut Lr1State<'_>) -> Result<(), OutOfMemory> {
    let mut copy = state.clone(alloc)?;
    state.reductions.append(&mut copy.reductions)?;
    Ok(())
}

// Lists the items of a state twice.
fn double_items(alloc: Global, state: &mut Lr1State<'_>) -> Result<(), OutOfMemory> {
    let mut copy = state.clone(alloc)?;
    state.items.vec.append(&mut copy.items.vec)?;
    Ok(())
}

// Changes the tokens of a reduction of a state.
fn change_tokens(
    alloc: Global,
    question: &Question<'_>,
    from: usize,
    to: usize,
    states: &mut [Lr1State<'_>],
    terminals: &TerminalSet,
) -> Result<usize, QuestionError> {
    let second = from.saturating_add(1);
    let third = from.saturating_add(2);
    let fourth = from.saturating_add(3);
    let state = state_at(question, from, states)?;
    let Some(reduction) = state.reductions.get_mut(question.number(second)?) else {
        return Err(QuestionError::Argument(second));
    };
    match question.argument(third)? {
        "emptied" => reduction.0 = TokenSet::new(alloc, terminals),
        "full" => reduction.0 = TokenSet::all(alloc, terminals)?,
        "with" => {
            let more = tokens_between(alloc, question, fourth, to, terminals)?;
            reduction.0.union_with(&more)?;
            return Ok(to);
        }
        _ => return Err(QuestionError::Argument(third)),
    }
    Ok(fourth)
}
