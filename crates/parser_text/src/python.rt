//! Parsers in Python.
ghost use Rattle.std.specs.Prelude.{◌≡◌, IfOk, string_bytes};
ghost use Rattle.parser_text.specs.Parsers.{IsPythonParser, python_heading};

use crate::error::ParserTextError;
use crate::parts::{TableParts, table_parts};
use packed_tables::packed::PackedTables;
use parse_tables::table::ParseTable;
use parser_in_python::file::push_file;
use parser_in_python::parts::file_of;
use std::alloc::{AllocError, Global};
use symbol_texts::heading::push_heading;

/// The file for Python with the symbols and productions of a table, and with the packed arrays of so
/// many states. The comment at its top has the start
/// symbol, and the method that made the tables.
pub fn python_parser(
    alloc: Global,
    table: &ParseTable,
    packed: &PackedTables,
    states: u32,
    start: &str,
    method: &str,
) -> Result<String, ParserTextError>
    ensures { IfOk result (λ text. IsPythonParser table.now packed.now states start.now
        method.now (string_bytes text)) }
{
    let TableParts {
        grammar,
        arrays,
        set_bytes,
    } = table_parts(alloc, true, table, packed)?;
    let heading = python_heading(alloc, start, method, states)?;
    let file = file_of(alloc, &grammar, heading, arrays, set_bytes)?;
    let mut text = String::new(alloc);
    push_file(alloc, &mut text, &file)?;
    Ok(text)
}

// The comment at the top.
fn python_heading(
    alloc: Global,
    start: &str,
    method: &str,
    states: u32,
) -> Result<String, AllocError>
    ensures { IfOk result (λ text. string_bytes text ≡
        python_heading start.now method.now states) }
{
    let usage = "Import it. It needs Python 3.9 and no other package.";
    let mut text = String::new(alloc);
    push_heading(&mut text, "#", start, method, states as usize, usage)?;
    Ok(text)
}
