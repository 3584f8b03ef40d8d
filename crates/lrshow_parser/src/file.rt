//! The file of a parser by tables.
ghost use Rattle.std.specs.Prelude.{◌≡◌, IfOk, length, string_bytes};
ghost use Rattle.lrshow_arguments.specs.Words.{parser_view};
ghost use Rattle.lrshow_parser.specs.Parsers.{AreArraysFor, IsFileOf, IsParserText, method_name};
ghost use Rattle.parser_text.specs.Hidden.{hidden_now};
ghost use Rattle.lrshow_parser.specs.declared.file.FileError.TheVariants.{Memory, Table, Text};

use lalrpop_base::lr1_core::state::Lr1State;
use lalrpop_base::repr::NonterminalString;
use lalrpop_base::repr::grammar::Grammar;
use lalrpop_tables::build::Method;
use lrshow_arguments::words::{Language, Parser};
use packed_tables::packed::PackedTables;
use parse_tables::error::ParseTableError;
use parse_tables::table::ParseTable;
use parser_text::c::c_parser;
use parser_text::error::ParserTextError;
use parser_text::packing::pack_table;
use parser_text::python::python_parser;
use parser_text::rust::rust_parser;
use std::alloc::Global;
use thiserror::Error;

/// Why there is no file. `TooManyActions` means that a new start symbol has no action. `TooMany` means
/// that there are more states than numbers of 32 bits.
#[derive(Debug, Drop, Error)]
pub(crate) enum FileError {
    #[error("too many actions")]
    TooManyActions,
    #[error("{0}")]
    Table(ParseTableError),
    #[error("{0}")]
    Text(ParserTextError),
    #[error("there are more states than numbers of 32 bits")]
    TooMany,
    #[error("out of memory")]
    Memory,
}

impl From<ParseTableError> for FileError {
    fn from(error: ParseTableError) -> Self {
        match error {
            ParseTableError::Memory => FileError::Memory,
            other => FileError::Table(other),
        }
    }
}

impl From<ParserTextError> for FileError {
    fn from(error: ParserTextError) -> Self {
        match error {
            ParserTextError::Memory => FileError::Memory,
            other => FileError::Text(other),
        }
    }
}

/// The text of the file of a grammar, by the states of a grammar that has one more nonterminal, which
/// is hidden, or by its own states.
pub(crate) fn file_of(
    alloc: Global,
    grammar: &Grammar,
    start: &NonterminalString,
    augmented: &Grammar,
    hidden: Option<&NonterminalString>,
    states: &[Lr1State<'_>],
    method: Method,
    parser: Parser<'_>,
) -> Result<String, FileError>
    ensures { IfOk result (λ text. IsFileOf (parser_view parser.entry) method grammar.now start.now
        augmented.now (hidden_now hidden.entry) states.now (string_bytes text)) }
{
    let packed = packed_of(alloc, grammar, augmented, hidden, states)?;
    let text = parser_text(alloc, &packed, start, method, parser)?;
    Ok(text)
}

// The packed arrays of states, how many states there are, and a parse table that lists the symbols
// and productions of the file.
#[derive(Drop)]
struct Packed {
    listed: ParseTable,
    arrays: PackedTables,
    states: u32,
}

// The packed arrays of the states of a grammar, by the numbers in the list of another one.
fn packed_of(
    alloc: Global,
    grammar: &Grammar,
    augmented: &Grammar,
    hidden: Option<&NonterminalString>,
    states: &[Lr1State<'_>],
) -> Result<Packed, FileError>
    ensures counted { IfOk result (λ packed. packed.states ≡ length states.now) }
    ensures arrays { IfOk result (λ packed. AreArraysFor grammar.now augmented.now
        (hidden_now hidden.entry) states.now packed.listed packed.arrays) }
{
    let Ok(count) = u32::try_from(states.len()) else {
        return Err(FileError::TooMany);
    };
    let listed = ParseTable::new(alloc, grammar, &[])?;
    let table = ParseTable::new(alloc, augmented, states)?;
    let arrays = pack_table(alloc, &listed, &table, hidden, count)?;
    Ok(Packed {
        listed,
        arrays,
        states: count,
    })
}

// The text of the file with packed arrays.
fn parser_text(
    alloc: Global,
    packed: &Packed,
    start: &NonterminalString,
    method: Method,
    parser: Parser<'_>,
) -> Result<String, ParserTextError>
    ensures { IfOk result (λ text. IsParserText (parser_view parser.entry) packed.now.listed
        packed.now.arrays packed.now.states start.now method (string_bytes text)) }
{
    let (listed, arrays, states) = (&packed.listed, &packed.arrays, packed.states);
    let start = start.text.as_str();
    let method = method_name(method);
    match parser.language {
        Language::C => c_parser(alloc, listed, arrays, states, start, method, parser.prefix),
        Language::Rust => rust_parser(alloc, listed, arrays, states, start, method),
        Language::Python => python_parser(alloc, listed, arrays, states, start, method),
    }
}

// The name of a method.
fn method_name(method: Method) -> &'static str
    ensures { result.now ≡ method_name method }
{
    match method {
        Method::Lane => "lane",
        Method::Canonical => "canonical",
    }
}
