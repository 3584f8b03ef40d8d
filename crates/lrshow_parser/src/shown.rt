//! What is shown if a parser is asked for: a file that parses by the tables of a grammar.
ghost use Rattle.std.specs.Prelude.{IfOk};
ghost use Rattle.lalrpop_base.specs.Words.{IsWellFormed};
ghost use Rattle.lrshow_arguments.specs.Words.{parser_view};
ghost use Rattle.lrshow_parser.specs.Parsers.{IsParserShown};

use crate::augmented::augmented_shown;
use crate::plain::plain_shown;
use lalrpop_base::memory::OutOfMemory;
use lalrpop_base::repr::NonterminalString;
use lalrpop_base::repr::grammar::Grammar;
use lalrpop_tables::build::Method;
use lrshow_arguments::words::Parser;
use program_answers::answer::Shown;
use std::alloc::Global;

/// What is shown if a parser is asked for: its file, or why there is none. The names in one for C
/// begin with the prefix. `OutOfMemory` if an allocation fails.
pub fn parser_shown(
    alloc: Global,
    grammar: &Grammar,
    start: NonterminalString,
    method: Method,
    parser: Parser<'_>,
) -> Result<Shown, OutOfMemory>
    requires { IsWellFormed grammar.now }
    ensures { IfOk result
        (IsParserShown (parser_view parser.entry) method grammar.now start) }
{
    if parser.is_augmented {
        return augmented_shown(alloc, grammar, start, method, parser);
    }
    plain_shown(alloc, grammar, start, method, parser)
}
