//! The file of a parser, or why there is none.
ghost use Rattle.std.specs.Prelude.{◌≡◌, [], IfOk, string_bytes};
ghost use Rattle.lrshow_arguments.specs.Words.{parser_view};
ghost use Rattle.lrshow_check.specs.Output.{IsOutput};
ghost use Rattle.lrshow_parser.specs.Parsers.{IsFileOrReason, IsNoFileRemarked};
ghost use Rattle.parser_text.specs.Hidden.{hidden_now};

use crate::file::{FileError, file_of};
use lalrpop_base::lr1_core::state::Lr1State;
use lalrpop_base::memory::OutOfMemory;
use lalrpop_base::repr::NonterminalString;
use lalrpop_base::repr::grammar::Grammar;
use lalrpop_tables::build::Method;
use lrshow_arguments::words::Parser;
use program_answers::answer::Shown;
use std::alloc::Global;

/// The file of a grammar is shown, or why there is none. The states are those of a grammar that has
/// one more nonterminal, which is hidden, or of the same grammar.
pub(crate) fn file_shown(
    alloc: Global,
    grammar: &Grammar,
    start: &NonterminalString,
    augmented: &Grammar,
    hidden: Option<&NonterminalString>,
    states: &[Lr1State<'_>],
    method: Method,
    parser: Parser<'_>,
) -> Result<Shown, OutOfMemory>
    ensures { IfOk result (IsFileOrReason (parser_view parser.entry) method grammar.now start.now
        augmented.now (hidden_now hidden.entry) states.now) }
{
    let file = file_of(
        alloc, grammar, start, augmented, hidden, states, method, parser,
    );
    match file {
        Ok(text) => Shown::of(alloc, 0, text, String::new(alloc)),
        Err(FileError::Memory) => Err(OutOfMemory),
        Err(error) => no_file(alloc, &error),
    }
}

/// What is shown if there is no file.
pub(crate) fn no_file(alloc: Global, error: &FileError) -> Result<Shown, OutOfMemory>
    ensures { IfOk result IsNoFileRemarked }
{
    wrong_request(alloc, format!(in alloc; "no file: {error}\n")?)
}

/// What is shown if there is nothing but a remark, with status 2.
pub(crate) fn wrong_request(alloc: Global, remark: String) -> Result<Shown, OutOfMemory>
    ensures { IfOk result (IsOutput 2 [] (string_bytes remark)) }
{
    Shown::of(alloc, 2, String::new(alloc), remark)
}
