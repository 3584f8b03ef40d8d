//! Parsers in Rust.
ghost use Rattle.std.specs.Prelude.{◌≡◌, IfOk, string_bytes};
ghost use Rattle.parser_text.specs.Parsers.{IsRustParser, rust_heading};

use crate::error::ParserTextError;
use crate::parts::{TableParts, table_parts};
use packed_tables::packed::PackedTables;
use parse_tables::table::ParseTable;
use parser_in_rust::file::push_file;
use parser_in_rust::parts::file_of;
use std::alloc::{AllocError, Global};
use symbol_texts::heading::push_heading;

/// The file for Rust with the symbols and productions of a table, and with the packed arrays of so
/// many states. The comment at its top has the start
/// symbol, and the method that made the tables.
pub fn rust_parser(
    alloc: Global,
    table: &ParseTable,
    packed: &PackedTables,
    states: u32,
    start: &str,
    method: &str,
) -> Result<String, ParserTextError>
    ensures { IfOk result (λ text. IsRustParser table.now packed.now states start.now
        method.now (string_bytes text)) }
{
    let TableParts {
        grammar,
        arrays,
        set_bytes,
    } = table_parts(alloc, false, table, packed)?;
    let heading = rust_heading(alloc, start, method, states)?;
    let file = file_of(alloc, &grammar, heading, arrays, set_bytes)?;
    let mut text = String::new(alloc);
    push_file(alloc, &mut text, &file)?;
    Ok(text)
}

// The comment at the top.
fn rust_heading(alloc: Global, start: &str, method: &str, states: u32) -> Result<String, AllocError>
    ensures { IfOk result (λ text. string_bytes text ≡
        rust_heading start.now method.now states) }
{
    let usage = "Declare it as a module. It needs no crate but core and alloc.";
    let mut text = String::new(alloc);
    push_heading(&mut text, "//", start, method, states as usize, usage)?;
    Ok(text)
}
