//! What is shown if a parser of a grammar as it is is asked for.
ghost use Rattle.std.specs.Prelude.{◌≡◌, [], IfOk};
ghost use Rattle.lalrpop_base.specs.Words.{IsWellFormed};
ghost use Rattle.lrshow_arguments.specs.Words.{parser_view};
ghost use Rattle.lrshow_check.specs.Output.{IsOutput};
ghost use Rattle.lrshow_parser.specs.Parsers.{IsPlainShown, conflicts_remark, right_side_remark};

use crate::reasons::{file_shown, wrong_request};
use lalrpop_base::memory::OutOfMemory;
use lalrpop_base::repr::grammar::Grammar;
use lalrpop_base::repr::{NonterminalString, is_on_no_right_side};
use lalrpop_tables::build::{Method, Options, TablesOrCount};
use lalrpop_tables::lr1::build_states_or_count;
use lrshow_arguments::words::Parser;
use program_answers::answer::Shown;
use std::alloc::Global;

/// What is shown of the grammar as it is. `OutOfMemory` if an allocation fails.
pub(crate) fn plain_shown(
    alloc: Global,
    grammar: &Grammar,
    start: NonterminalString,
    method: Method,
    parser: Parser<'_>,
) -> Result<Shown, OutOfMemory>
    requires { IsWellFormed grammar.now }
    ensures { IfOk result (IsPlainShown (parser_view parser.entry) method grammar.now start) }
{
    let options = Options {
        method,
        ..Options::default()
    };
    let name = start.clone(alloc)?;
    match build_states_or_count(alloc, grammar, start, &options)? {
        TablesOrCount::Tables(states) => {
            if !is_on_no_right_side(grammar, &name) {
                return on_right_side(alloc, &name);
            }
            file_shown(
                alloc, grammar, &name, grammar, None, &states, method, parser,
            )
        }
        TablesOrCount::Conflicts(count) => conflicts_remarked(alloc, &name, count),
    }
}

// What is shown if there are so many conflicts.
fn conflicts_remarked(
    alloc: Global,
    start: &NonterminalString,
    count: usize,
) -> Result<Shown, OutOfMemory>
    ensures { IfOk result (IsOutput 1 [] (conflicts_remark start.now count)) }
{
    let remark = format!(in alloc; "conflicts: {count}; see `lrshow FILE {start} conflicts`\n")?;
    Shown::of(alloc, 1, String::new(alloc), remark)
}

// What is shown if the start symbol is on a right side.
fn on_right_side(alloc: Global, start: &NonterminalString) -> Result<Shown, OutOfMemory>
    ensures { IfOk result (IsOutput 2 [] (right_side_remark start.now)) }
{
    wrong_request(
        alloc,
        format!(in alloc; "`{start}` is on a right side; `--augment` makes a new start symbol\n")?,
    )
}
