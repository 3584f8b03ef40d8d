//! What `lrtab` shows of a grammar.
ghost use Rattle.std.specs.Prelude.{◌≡◌, IfOk, map, string_bytes, false, is_ok, if◌then◌else◌};
ghost use Rattle.lalrpop_base.specs.Words.{IsWellFormed};
ghost use Rattle.lrtab_run.specs.Words.{Parse, Report, Explain, request_view};
ghost use Rattle.lrtab_run.specs.Shown.{IsCountText, IsShown, IsTaskShown, IsTextOf};
ghost use Rattle.lrtab_run.specs.Answers.{IsShownWhole};

use crate::answer::Shown;
use crate::ask::Ask;
use crate::explain::explanation;
use crate::words::{Request, Task, tokens_of};
use grammar_text::symbols::name_of;
use lalrpop_base::lookahead::token_set::TokenSet;
use lalrpop_base::lr1_core::state::{BuildError, Lr1Result};
use lalrpop_base::memory::OutOfMemory;
use lalrpop_base::repr::NonterminalString;
use lalrpop_base::repr::grammar::Grammar;
use lalrpop_lr1::headline::by_tables::parse_by_tables;
use lalrpop_lr1::interpret::{InterpretError, ParseTree};
use lalrpop_lr1::report::report_pieces;
use lalrpop_tables::build::{Method, Options, TablesOrCount};
use lalrpop_tables::lr1::{build_states, build_states_or_count};
use std::alloc::Global;
use text_pieces::TextPieces;

impl Ask for Request<'_> {
    ghost IsShown = { λ request method g s. IsShownWhole method g (request_view request) s };

    fn shown(
        &self,
        alloc: Global,
        method: Method,
        grammar: &Grammar,
    ) -> Result<Shown, OutOfMemory> {
        let (status, text) = shown(alloc, self, method, grammar)?;
        Ok(Shown {
            status,
            text,
            remark: String::new(alloc),
        })
    }
}

// The exit status, and the text that a request shows of a grammar.
fn shown(
    alloc: Global,
    request: &Request<'_>,
    method: Method,
    grammar: &Grammar,
) -> Result<(u8, TextPieces), OutOfMemory>
    requires well_formed { IsWellFormed grammar.now }
    requires canonical { grammar.now.algorithm.lalr ≡ false }
    ensures { IfOk result
        (λ o. IsShown method grammar.now (request_view request.now) o.0 o.1) }
{
    let start = name_of(alloc, request.start)?;
    let options = Options {
        method,
        ..Options::default()
    };
    match request.task {
        Task::Parse(limit, tokens) => {
            let parsed = parse(alloc, limit, tokens, start, &options, grammar)?;
            in_one_piece(alloc, parsed)
        }
        Task::Report => report(alloc, start, &options, grammar),
        Task::Explain => {
            let explained = explain(alloc, start, &options, grammar)?;
            in_one_piece(alloc, explained)
        }
    }
}

// An exit status, and a text in one piece.
fn in_one_piece(alloc: Global, shown: (u8, String)) -> Result<(u8, TextPieces), OutOfMemory>
    ensures status { IfOk result (λ o. o.0 ≡ shown.0) }
    ensures text { IfOk result (λ o. o.1 ≡ string_bytes shown.1) }
{
    let (status, text) = shown;
    Ok((status, TextPieces::of(alloc, text)?))
}

// The exit status and the text of a parse by the tables of a grammar. If it has no tables, the text
// has the number of its conflicts.
fn parse(
    alloc: Global,
    limit: usize,
    words: &[String],
    start: NonterminalString,
    options: &Options,
    grammar: &Grammar,
) -> Result<(u8, String), OutOfMemory>
    requires well_formed { IsWellFormed grammar.now }
    ensures { IfOk result (λ o. IsTaskShown options.now.method options.now.max_copies
        grammar.now start (Parse limit (map string_bytes words.now)) o.0 (string_bytes o.1)) }
{
    let tokens = tokens_of(alloc, words)?;
    let name = start.clone(alloc)?;
    match build_states_or_count(alloc, grammar, start, options)? {
        TablesOrCount::Tables(states) => {
            let answer = parse_by_tables(alloc, grammar, &name, &states, tokens, limit);
            text_of_answer(alloc, answer)
        }
        TablesOrCount::Conflicts(count) => text_of_count(alloc, count),
    }
}

// The exit status, and the report of the tables of a grammar or of its conflicts.
fn report(
    alloc: Global,
    start: NonterminalString,
    options: &Options,
    grammar: &Grammar,
) -> Result<(u8, TextPieces), OutOfMemory>
    requires well_formed { IsWellFormed grammar.now }
    requires canonical { grammar.now.algorithm.lalr ≡ false }
    requires whole { options.now.stop_after ≡ 0 }
    ensures { IfOk result (λ o. IsTaskShown options.now.method options.now.max_copies
        grammar.now start Report o.0 o.1) }
{
    let outcome = build_states(alloc, grammar, start, options);
    let status = status_of(&outcome);
    match report_pieces(alloc, &grammar.terminals, &outcome) {
        Ok(text) => Ok((status, text)),
        Err(_) => Err(OutOfMemory),
    }
}

// The exit status of a report: 0 for tables, 1 for conflicts.
fn status_of(outcome: &Lr1Result<'_>) -> u8
    ensures { result ≡ (if is_ok outcome.now then 0 else 1) }
{
    if outcome.is_ok() { 0 } else { 1 }
}

// The exit status, and the explanation of the conflicts of a grammar, or that it has none.
fn explain(
    alloc: Global,
    start: NonterminalString,
    options: &Options,
    grammar: &Grammar,
) -> Result<(u8, String), OutOfMemory>
    requires well_formed { IsWellFormed grammar.now }
    requires canonical { grammar.now.algorithm.lalr ≡ false }
    requires whole { options.now.stop_after ≡ 0 }
    ensures { IfOk result (λ o. IsTaskShown options.now.method options.now.max_copies
        grammar.now start Explain o.0 (string_bytes o.1)) }
{
    match build_states(alloc, grammar, start, options) {
        Ok(_) => Ok((0, String::from_str(alloc, "no conflicts\n")?)),
        Err(BuildError::Conflicts(error)) => Ok((1, explanation(alloc, grammar, &error)?)),
        Err(BuildError::Memory) => Err(OutOfMemory),
    }
}

// The exit status and the text of the result of a parse.
fn text_of_answer(
    alloc: Global,
    answer: Result<ParseTree, InterpretError<'_, '_, TokenSet>>,
) -> Result<(u8, String), OutOfMemory>
    ensures { IfOk result (λ o. IsTextOf answer.entry o.0 (string_bytes o.1)) }
{
    match answer {
        Ok(tree) => Ok((0, format!(in alloc; "{tree}\n")?)),
        Err(InterpretError::Refused(_, token)) => {
            Ok((1, format!(in alloc; "refused at {token}\n")?))
        }
        Err(InterpretError::Limit) => Ok((1, String::from_str(alloc, "limit\n")?)),
        Err(InterpretError::Memory) => Err(OutOfMemory),
    }
}

// The exit status and the text for a number of conflicts.
fn text_of_count(alloc: Global, count: usize) -> Result<(u8, String), OutOfMemory>
    ensures { IfOk result (λ o. IsCountText count o.0 (string_bytes o.1)) }
{
    Ok((1, format!(in alloc; "conflicts: {count}\n")?))
}
