//! What is shown of a parse of tokens.
ghost use Rattle.std.specs.Prelude.{◌≡◌, ◌<◌, ◌++◌, [], IfOk, codes, length, map, string_bytes};
ghost use Rattle.std.specs.Fmt.{decimal};
ghost use Rattle.lalrpop_base.specs.Words.{AreCoherent, AreFaithful, IsWellFormed, contents, productions};
ghost use Rattle.lalrpop_lr1.specs.Words.{tree_of};
ghost use Rattle.parse_pictures.specs.NextTokens.{AreNext, IsEnding, IsShiftedCount};
ghost use Rattle.parse_pictures.specs.RefusalTexts.{refusal_words};
ghost use Rattle.table_pictures.specs.Escape.{pictured_text};
ghost use Rattle.program_answers.specs.Texts.{line};
ghost use Rattle.lrshow_check.specs.Output.{IsOutput};
ghost use Rattle.lrshow_run.specs.Trees.{IsParseDrawn, IsRefusalShown, IsRunDrawn, drawing};

use lalrpop_base::lr1_core::state::Lr1State;
use lalrpop_base::memory::OutOfMemory;
use lalrpop_base::repr::grammar::Grammar;
use lalrpop_base::repr::{NonterminalString, TerminalString};
use lalrpop_lr1::headline::by_tables::parse_by_tables;
use lalrpop_lr1::interpret::{InterpretError, ParseTree};
use lalrpop_tables::build::{Method, Options, TablesOrCount};
use lalrpop_tables::lr1::build_states_or_count;
use lrshow_check::lines::visible_lines;
use parse_pictures::expected::{expected_tokens, shifted_count};
use parse_pictures::graph::tree_graph;
use parse_pictures::lines::tree_text;
use parse_pictures::refusal::refusal_text;
use program_answers::answer::Shown;
use program_answers::words::tokens_of;
use std::alloc::Global;
use table_pictures::escape::push_visible;

// The limit of a parse. Each shift and each reduction is a step.
const MOST_STEPS: usize = 1_000_000;

/// What is shown of a parse of tokens by the tables of a grammar: a tree as lines or as a graph, or
/// why there is none. `OutOfMemory` if an allocation fails.
pub(crate) fn parse_shown(
    alloc: Global,
    grammar: &Grammar,
    start: NonterminalString,
    method: Method,
    words: &[String],
    is_graph: bool,
) -> Result<Shown, OutOfMemory>
    requires { IsWellFormed grammar.now }
    ensures { IfOk result
        (IsParseDrawn method grammar.now start (map string_bytes words.now) is_graph) }
{
    let options = Options {
        method,
        ..Options::default()
    };
    let tokens = tokens_of(alloc, words)?;
    let name = start.clone(alloc)?;
    match build_states_or_count(alloc, grammar, start, &options)? {
        TablesOrCount::Tables(states) => {
            run_shown(alloc, grammar, &name, &states, &tokens, is_graph)
        }
        TablesOrCount::Conflicts(count) => {
            remarked(alloc, format!(in alloc; "conflicts: {count}\n")?)
        }
    }
}

// What is shown of a parse by tables.
fn run_shown(
    alloc: Global,
    grammar: &Grammar,
    start: &NonterminalString,
    states: &[Lr1State<'_>],
    tokens: &[TerminalString],
    is_graph: bool,
) -> Result<Shown, OutOfMemory>
    requires coherent { AreCoherent states.now }
    requires some { 0 < length states.now }
    requires faithful { AreFaithful (productions grammar.now) start.now
        (contents grammar.now.terminals states.now) }
    ensures { IfOk result (IsRunDrawn grammar.now start.now
        (contents grammar.now.terminals states.now) tokens.now is_graph) }
{
    let copy = copies(alloc, tokens)?;
    match parse_by_tables(alloc, grammar, start, states, copy, MOST_STEPS) {
        Ok(tree) => tree_shown(alloc, &tree, is_graph),
        Err(InterpretError::Refused(_, _)) => refusal_shown(alloc, grammar, states, tokens),
        Err(InterpretError::Limit) => remarked(
            alloc,
            format!(in alloc; "no tree within {MOST_STEPS} steps\n")?,
        ),
        Err(InterpretError::Memory) => Err(OutOfMemory),
    }
}

// Copies of tokens.
fn copies(alloc: Global, tokens: &[TerminalString]) -> Result<Vec<TerminalString>, OutOfMemory>
    ensures { IfOk result (λ list. list.items ≡ tokens.now) }
{
    let mut list = Vec::new(alloc);
    for token in tokens {
        list.push(token.clone(alloc)?)?;
    }
    Ok(list)
}

// What is shown of a tree.
fn tree_shown(alloc: Global, tree: &ParseTree, is_graph: bool) -> Result<Shown, OutOfMemory>
    ensures { IfOk result (IsOutput 0 (drawing is_graph (tree_of tree.now)) []) }
{
    let text = drawing(alloc, tree, is_graph)?;
    Shown::of(alloc, 0, text, String::new(alloc))
}

// A tree as a graph, or as lines.
fn drawing(alloc: Global, tree: &ParseTree, is_graph: bool) -> Result<String, OutOfMemory>
    ensures { IfOk result (λ text. string_bytes text ≡ drawing is_graph (tree_of tree.now)) }
{
    if is_graph {
        return Ok(tree_graph(alloc, tree)?);
    }
    let text = tree_text(alloc, tree)?;
    visible_lines(alloc, text.as_str())
}

// What is shown of tokens of which one is wrong, or that end too early.
fn refusal_shown(
    alloc: Global,
    grammar: &Grammar,
    states: &[Lr1State<'_>],
    tokens: &[TerminalString],
) -> Result<Shown, OutOfMemory>
    requires coherent { AreCoherent states.now }
    requires some { 0 < length states.now }
    ensures { IfOk result (IsRefusalShown grammar.now.terminals
        (contents grammar.now.terminals states.now) tokens.now) }
{
    let terminals = &grammar.terminals;
    let count = shifted_count(alloc, states, terminals, tokens, MOST_STEPS)?;
    let expected = expected_tokens(alloc, states, terminals, &tokens[..count], MOST_STEPS)?;
    let message = refusal_text(alloc, tokens, count, &expected)?;
    refused(alloc, message.as_str())
}

// What is shown with the message on a refusal.
fn refused(alloc: Global, message: &str) -> Result<Shown, OutOfMemory>
    ensures { IfOk result (IsOutput 1 [] (line (pictured_text message.now))) }
{
    let mut remark = String::new(alloc);
    push_visible(&mut remark, message)?;
    remark.push_str("\n")?;
    remarked(alloc, remark)
}

// A remark with the status 1, without a text.
fn remarked(alloc: Global, remark: String) -> Result<Shown, OutOfMemory>
    ensures { IfOk result (IsOutput 1 [] (string_bytes remark)) }
{
    Shown::of(alloc, 1, String::new(alloc), remark)
}
