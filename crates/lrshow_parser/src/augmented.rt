//! What is shown if a parser with a new start symbol is asked for.
ghost use Rattle.std.specs.Prelude.{◌⊎◌, [], IfOk};
ghost use Rattle.lalrpop_base.specs.Words.{IsRefusedStart, IsWellFormed};
ghost use Rattle.lalrpop_grammar.specs.declared.repr.grammar.Grammar.{Grammar};
ghost use Rattle.lrshow_arguments.specs.Words.{parser_view};
ghost use Rattle.lrshow_check.specs.Output.{IsOutput};
ghost use Rattle.lrshow_parser.specs.Parsers.{AreAugmentedRemarked, IsFileOfAugmented, IsNewStartRefused, IsOfAugmented, augmented_remark};

use crate::file::FileError;
use crate::reasons::{file_shown, no_file};
use lalrpop_base::memory::OutOfMemory;
use lalrpop_base::repr::grammar::Grammar;
use lalrpop_base::repr::norm_error::NormError;
use lalrpop_base::repr::{NonterminalString, augment};
use lalrpop_tables::build::{Method, Options, TablesOrCount};
use lalrpop_tables::lr1::build_states_or_count;
use lrshow_arguments::words::Parser;
use program_answers::answer::Shown;
use std::alloc::Global;

/// What is shown of the augmented grammar. `OutOfMemory` if an allocation fails.
pub(crate) fn augmented_shown(
    alloc: Global,
    grammar: &Grammar,
    start: NonterminalString,
    method: Method,
    parser: Parser<'_>,
) -> Result<Shown, OutOfMemory>
    requires { IsWellFormed grammar.now }
    ensures { IfOk result (λ s. IsOfAugmented (parser_view parser.entry) method grammar.now start s
        ⊎ IsNewStartRefused grammar.now s) }
{
    let copy = grammar.clone(alloc)?;
    let name = start.clone(alloc)?;
    match augment(alloc, copy, start) {
        Ok((augmented, new_start)) => {
            tables_shown(alloc, grammar, &name, &augmented, new_start, method, parser)
        }
        Err(error) => not_augmented(alloc, error),
    }
}

// What is shown if there is no new start symbol.
fn not_augmented(alloc: Global, error: NormError) -> Result<Shown, OutOfMemory>
    ensures { (g : Grammar) → IsRefusedStart g error → IfOk result (IsNewStartRefused g) }
{
    match error {
        NormError::Memory => Err(OutOfMemory),
        _ => no_file(alloc, &FileError::TooManyActions),
    }
}

// What is shown of the tables of an augmented grammar.
fn tables_shown(
    alloc: Global,
    grammar: &Grammar,
    start: &NonterminalString,
    augmented: &Grammar,
    new_start: NonterminalString,
    method: Method,
    parser: Parser<'_>,
) -> Result<Shown, OutOfMemory>
    requires { IsWellFormed augmented.now }
    ensures { IfOk result (λ s. IsFileOfAugmented (parser_view parser.entry) method grammar.now
        start.now augmented.now new_start s
        ⊎ AreAugmentedRemarked start.now augmented.now new_start s) }
{
    let options = Options {
        method,
        ..Options::default()
    };
    let hidden = new_start.clone(alloc)?;
    match build_states_or_count(alloc, augmented, new_start, &options)? {
        TablesOrCount::Tables(states) => file_shown(
            alloc,
            grammar,
            start,
            augmented,
            Some(&hidden),
            &states,
            method,
            parser,
        ),
        TablesOrCount::Conflicts(count) => conflicts_remarked(alloc, start, &hidden, count),
    }
}

// What is shown if an augmented grammar has so many conflicts.
fn conflicts_remarked(
    alloc: Global,
    start: &NonterminalString,
    new_start: &NonterminalString,
    count: usize,
) -> Result<Shown, OutOfMemory>
    ensures { IfOk result (IsOutput 1 [] (augmented_remark start.now new_start.now count)) }
{
    let remark = format!(in alloc;
        "conflicts: {count}; add `{new_start} = {start}`, and see `lrshow FILE {new_start} conflicts`\n"
    )?;
    Shown::of(alloc, 1, String::new(alloc), remark)
}
