//! The LR(1) tables of a grammar, as a parser generator would print them. They have a row for each
//! state, with a column for each terminal and the end of input, or for each nonterminal. An action
//! n > 0 shifts and goes to state n. An action -1 - p reduces by the production with action p. The
//! number 0 is no action.
use lalrpop_base::lookahead::token::Token;
use lalrpop_base::lr1_core::ActionEntry;
use lalrpop_base::lr1_core::state::Lr1State;
use lalrpop_base::memory::OutOfMemory;
use lalrpop_base::repr::grammar::Grammar;
use lalrpop_base::repr::terminals::TerminalSet;
use std::alloc::Global;

/// Prints the actions of all states.
pub fn print_actions(
    rt: &HostRuntime,
    grammar: &Grammar,
    states: &[Lr1State<'_>],
) -> anyhow::Result<()> {
    let alloc = rt.alloc();
    let tokens = tokens_of(alloc, &grammar.terminals)?;
    let (count, width) = (states.len(), tokens.len());
    println!(rt; "static ACTIONS: [[i32; {width}]; {count}] = [")?;
    for state in states {
        let row = actions(alloc, state, &tokens, &grammar.terminals)?;
        println!(rt; "    {row:?},")?;
    }
    println!(rt; "];")?;
    Ok(())
}

/// Prints the gotos of all states.
pub fn print_gotos(
    rt: &HostRuntime,
    grammar: &Grammar,
    states: &[Lr1State<'_>],
) -> anyhow::Result<()> {
    let (count, width) = (states.len(), grammar.nonterminals.len());
    println!(rt; "static GOTOS: [[usize; {width}]; {count}] = [")?;
    for state in states {
        let row = gotos(rt.alloc(), state, grammar)?;
        println!(rt; "    {row:?},")?;
    }
    println!(rt; "];")?;
    Ok(())
}

// The terminals, and then the end of input.
fn tokens_of(alloc: Global, terminals: &TerminalSet) -> Result<Vec<Token>, OutOfMemory> {
    let mut tokens = Vec::new(alloc);
    for terminal in terminals.all() {
        tokens.push(Token::Terminal(terminal.clone(alloc)?))?;
    }
    tokens.push(Token::Eof)?;
    Ok(tokens)
}

// The row of a state in ACTIONS.
fn actions(
    alloc: Global,
    state: &Lr1State<'_>,
    tokens: &[Token],
    terminals: &TerminalSet,
) -> anyhow::Result<Vec<i32>> {
    let mut row = Vec::new(alloc);
    for token in tokens {
        row.push(action(state, token, terminals)?)?;
    }
    Ok(row)
}

// The action of a state on a token, as a number.
fn action(state: &Lr1State<'_>, token: &Token, terminals: &TerminalSet) -> anyhow::Result<i32> {
    match state.action(token, terminals) {
        Some(ActionEntry::Shift(target)) => Ok(i32::try_from(target.0)?),
        Some(ActionEntry::Reduce(production)) => Ok(!i32::try_from(production.action.index())?),
        None => Ok(0),
    }
}

// The row of a state in GOTOS.
fn gotos(
    alloc: Global,
    state: &Lr1State<'_>,
    grammar: &Grammar,
) -> Result<Vec<usize>, OutOfMemory> {
    let mut row = Vec::new(alloc);
    for (name, _) in grammar.nonterminals.iter() {
        match state.goto(name) {
            Some(target) => row.push(target.0)?,
            None => row.push(0)?,
        }
    }
    Ok(row)
}
