//! Parsers in C.
ghost use Rattle.std.specs.Prelude.{◌≡◌, IfOk, string_bytes};
ghost use Rattle.parser_text.specs.Parsers.{IsCParser, c_heading, c_usage};

use crate::error::ParserTextError;
use crate::parts::{TableParts, table_parts};
use packed_tables::packed::PackedTables;
use parse_tables::table::ParseTable;
use parser_in_c::file::push_file;
use parser_in_c::parts::file_of;
use std::alloc::{AllocError, Global};
use symbol_texts::heading::push_heading;

/// The file for C with the symbols and productions of a table, and with the packed arrays of so
/// many states. All its names begin with the prefix. The
/// comment at its top has the start symbol, and the method that made the tables.
pub fn c_parser(
    alloc: Global,
    table: &ParseTable,
    packed: &PackedTables,
    states: u32,
    start: &str,
    method: &str,
    prefix: &str,
) -> Result<String, ParserTextError>
    ensures { IfOk result (λ text. IsCParser table.now packed.now states start.now
        method.now prefix.now (string_bytes text)) }
{
    let TableParts {
        grammar,
        arrays,
        set_bytes,
    } = table_parts(alloc, false, table, packed)?;
    let heading = c_heading(alloc, start, method, states, prefix)?;
    let file = file_of(alloc, &grammar, heading, prefix, arrays, set_bytes)?;
    let mut text = String::new(alloc);
    push_file(alloc, &mut text, &file)?;
    Ok(text)
}

// The comment at the top.
fn c_heading(
    alloc: Global,
    start: &str,
    method: &str,
    states: u32,
    prefix: &str,
) -> Result<String, AllocError>
    ensures { IfOk result (λ text. string_bytes text ≡
        c_heading start.now method.now states prefix.now) }
{
    let usage = c_usage(alloc, prefix)?;
    let mut text = String::new(alloc);
    push_heading(&mut text, "//", start, method, states as usize, &usage)?;
    Ok(text)
}

// How to use the file.
fn c_usage(alloc: Global, prefix: &str) -> Result<String, AllocError>
    ensures { IfOk result (λ text. string_bytes text ≡ c_usage prefix.now) }
{
    let mut capitals = String::from_str(alloc, prefix)?;
    capitals.make_ascii_uppercase();
    let mut text = String::from_str(alloc, "Include it. All its names begin with ")?;
    text.push_str(prefix)?;
    text.push_str("_ or ")?;
    text.push_str(&capitals)?;
    text.push_str("_.")?;
    Ok(text)
}
