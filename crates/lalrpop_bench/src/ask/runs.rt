//! Questions on runs: trees, stacks and refusals.
ghost use Rattle.std.specs.Prelude.{◌<◌, length};
ghost use Rattle.lalrpop_base.specs.Words.{AreCoherent, IsWellFormed};

use grammar_text::symbols::unquoted;
use lalrpop_base::lr1_core::coherent::are_coherent;
use lalrpop_base::lr1_core::state::{BuildError, State, StateIndex};
use lalrpop_base::memory::OutOfMemory;
use lalrpop_base::repr::TerminalString;
use lalrpop_base::repr::grammar::Grammar;
use lalrpop_base::repr::terminals::TerminalSet;
use lalrpop_base::text::Text;
use lalrpop_lr1::headline::by_tables::parse_by_tables;
use lalrpop_lr1::headline::{ParseError, parse};
use lalrpop_lr1::interpret::{
    InterpretError, LookaheadInterpret, ParseTree, interpret, interpret_partial,
};
use lalrpop_tables::lr1::build_states;
use std::alloc::Global;
use table_questions::ask::arguments::{is_option, method_at, options_among};
use table_questions::ask::graphs::lr0_states;
use table_questions::ask::states::start_of;
use table_questions::question::{Question, QuestionError};
use table_questions::show::states::push_counts;

/// Terminals for a parse, those for a second parse, and a limit on the number of steps.
#[derive(Drop)]
pub(super) struct Input {
    pub(super) tokens: Vec<TerminalString>,
    others: Vec<TerminalString>,
    pub(super) limit: usize,
}

/// Appends the result of a question on runs. Returns `false` if the call has another name.
pub(crate) fn answer(
    alloc: Global,
    text: &mut String,
    question: &Question<'_>,
    grammar: &Grammar,
) -> Result<bool, QuestionError>
    requires { IsWellFormed grammar.now }
{
    match question.call {
        "headline" => push_parsed(alloc, text, question, grammar)?,
        "parse_by_tables" => parsed_by_tables(alloc, text, question, grammar)?,
        "interpret" | "interpret_partial" | "tree" => match question.argument(2)? {
            "lr0" => run_without_lookahead(alloc, text, question, grammar)?,
            _ => run_by_tables(alloc, text, question, grammar)?,
        },
        _ => return Ok(false),
    }
    Ok(true)
}

/// The input of a question. The arguments after the limit are the terminals: those before a comma
/// for the first parse, and those after it for the second. Options are passed over.
pub(super) fn input_of(alloc: Global, question: &Question<'_>) -> Result<Input, QuestionError> {
    let mut input = Input {
        tokens: Vec::new(alloc),
        others: Vec::new(alloc),
        limit: question.number(3)?,
    };
    add_terminals(alloc, question.from(4), &mut input)?;
    Ok(input)
}

// Adds the terminals that words name to an input.
fn add_terminals(alloc: Global, words: &[&str], input: &mut Input) -> Result<(), QuestionError> {
    let mut is_behind = false;
    for word in words {
        match unquoted(word) {
            Some(text) => {
                let terminal = TerminalString::Literal(Text::new(alloc, text)?);
                if is_behind {
                    input.others.push(terminal)?;
                } else {
                    input.tokens.push(terminal)?;
                }
            }
            None if *word == "," => is_behind = true,
            None if is_option(word) => {}
            None => return Err(QuestionError::Argument(4)),
        }
    }
    Ok(())
}

// Appends the result of a parse from a grammar.
fn push_parsed(
    alloc: Global,
    text: &mut String,
    question: &Question<'_>,
    grammar: &Grammar,
) -> Result<(), QuestionError>
    requires { IsWellFormed grammar.now }
{
    let start = start_of(alloc, question, 1)?;
    let options = options_among(question, 4, method_at(question, 2)?);
    let input = input_of(alloc, question)?;
    let parsed = parse(alloc, grammar, start, &options, input.tokens, input.limit);
    push_shown(text, parsed)
}

// Appends the result of a parse by tables of a grammar.
fn parsed_by_tables(
    alloc: Global,
    text: &mut String,
    question: &Question<'_>,
    grammar: &Grammar,
) -> Result<(), QuestionError>
    requires { IsWellFormed grammar.now }
{
    let start = start_of(alloc, question, 1)?;
    let options = options_among(question, 4, method_at(question, 2)?);
    let input = input_of(alloc, question)?;
    let first = start.clone(alloc)?;
    match build_states(alloc, grammar, first, &options) {
        Ok(states) => {
            let (tokens, limit) = (input.tokens, input.limit);
            match parse_by_tables(alloc, grammar, &start, &states, tokens, limit) {
                Ok(tree) => Ok(write!(text, "{tree}\n")?),
                Err(error) => Ok(push_failure(text, error)?),
            }
        }
        Err(error) => Ok(push_counts(text, &Err(error))?),
    }
}

/// Appends the result of a call that parses from a grammar.
pub(super) fn push_shown(
    text: &mut String,
    answer: Result<ParseTree, ParseError<'_>>,
) -> Result<(), QuestionError> {
    match answer {
        Ok(tree) => Ok(write!(text, "{tree}\n")?),
        Err(ParseError::Conflicts(error)) => {
            Ok(push_counts(text, &Err(BuildError::Conflicts(error)))?)
        }
        Err(ParseError::Memory) => Err(QuestionError::Memory),
        Err(error) => Ok(write!(text, "{error}\n")?),
    }
}

// Appends the result of a question on runs over LR(0) states, with or without conflicts.
fn run_without_lookahead(
    alloc: Global,
    text: &mut String,
    question: &Question<'_>,
    grammar: &Grammar,
) -> Result<(), QuestionError>
    requires { IsWellFormed grammar.now }
{
    let start = start_of(alloc, question, 1)?;
    let states = lr0_states(alloc, grammar, start)?;
    run_over(alloc, text, question, &grammar.terminals, &states)
}

// Appends the result of a question on runs over tables, or the number of conflicts if there are no
// tables.
fn run_by_tables(
    alloc: Global,
    text: &mut String,
    question: &Question<'_>,
    grammar: &Grammar,
) -> Result<(), QuestionError>
    requires { IsWellFormed grammar.now }
{
    let start = start_of(alloc, question, 1)?;
    let options = options_among(question, 4, method_at(question, 2)?);
    let built = build_states(alloc, grammar, start, &options);
    match &built {
        Ok(states) => run_over(alloc, text, question, &grammar.terminals, states),
        Err(_) => Ok(push_counts(text, &built)?),
    }
}

// Appends the result of a question on runs over states.
fn run_over<'grammar, L: LookaheadInterpret>(
    alloc: Global,
    text: &mut String,
    question: &Question<'_>,
    terminals: &TerminalSet,
    states: &[State<'grammar, L>],
) -> Result<(), QuestionError> {
    let input = input_of(alloc, question)?;
    if !are_coherent(states) {
        return Ok(text.push_str("not coherent\n")?);
    }
    if states.is_empty() {
        return Ok(text.push_str("no states\n")?);
    }
    if question.call == "interpret_partial" {
        push_partial(alloc, text, terminals, states, input)
    } else {
        let is_alone = question.call == "interpret";
        push_run(alloc, text, terminals, states, input, is_alone)
    }
}

// Appends the stack after a partial run.
fn push_partial<'grammar, L: LookaheadInterpret>(
    alloc: Global,
    text: &mut String,
    terminals: &TerminalSet,
    states: &[State<'grammar, L>],
    input: Input,
) -> Result<(), QuestionError>
    requires coherent { AreCoherent states.now }
    requires some { 0 < length states.now }
{
    match interpret_partial(alloc, states, terminals, input.tokens, input.limit) {
        Ok(stack) => Ok(push_stack(text, &stack)?),
        Err(error) => Ok(push_failure(text, error)?),
    }
}

// The tree of a list of terminals.
fn tree_by<'a, 'grammar, L: LookaheadInterpret>(
    alloc: Global,
    terminals: &TerminalSet,
    states: &'a [State<'grammar, L>],
    tokens: Vec<TerminalString>,
    limit: usize,
) -> Result<ParseTree, InterpretError<'a, 'grammar, L>>
    requires coherent { AreCoherent states.now }
    requires some { 0 < length states.now }
{
    interpret(alloc, states, terminals, tokens, limit)
}

// Appends the tree of an input if it is asked alone, and else what calls show of it beside the tree
// of the other terminals.
fn push_run<'grammar, L: LookaheadInterpret>(
    alloc: Global,
    text: &mut String,
    terminals: &TerminalSet,
    states: &[State<'grammar, L>],
    input: Input,
    is_alone: bool,
) -> Result<(), QuestionError>
    requires coherent { AreCoherent states.now }
    requires some { 0 < length states.now }
{
    let Input {
        tokens,
        others,
        limit,
    } = input;
    match tree_by(alloc, terminals, states, tokens, limit) {
        Ok(tree) if is_alone => Ok(write!(text, "{tree}\n")?),
        Ok(tree) => match tree_by(alloc, terminals, states, others, limit) {
            Ok(other) => Ok(push_trees(alloc, text, &tree, &other)?),
            Err(error) => Ok(push_failure(text, error)?),
        },
        Err(error) => Ok(push_failure(text, error)?),
    }
}

// Appends the reason why there is no tree or stack. An allocation failure is an error.
fn push_failure<L>(text: &mut String, error: InterpretError<'_, '_, L>) -> Result<(), OutOfMemory> {
    match error {
        InterpretError::Refused(state, token) => {
            write!(text, "refused in state {} at {token}\n", state.index)?;
            Ok(())
        }
        InterpretError::Limit => {
            text.push_str("limit\n")?;
            Ok(())
        }
        InterpretError::Memory => Err(OutOfMemory),
    }
}

// Appends the states of a stack. The top of the stack is last.
fn push_stack(text: &mut String, stack: &[StateIndex]) -> Result<(), OutOfMemory> {
    text.push_str("stack")?;
    for state in stack {
        write!(text, " {state}")?;
    }
    text.push_str("\n")?;
    Ok(())
}

// Appends a copy of a tree, its leaves, and whether it equals another tree.
fn push_trees(
    alloc: Global,
    text: &mut String,
    tree: &ParseTree,
    other: &ParseTree,
) -> Result<(), OutOfMemory> {
    write!(text, "tree {:?}\nterminals", tree.clone(alloc)?)?;
    let leaves = tree.terminals(alloc)?;
    if leaves.is_empty() {
        text.push_str(" -")?;
    }
    for leaf in &leaves {
        write!(text, " {leaf}")?;
    }
    write!(text, "\nequal {}\n", tree == other)?;
    Ok(())
}
