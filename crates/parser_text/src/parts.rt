//! What the files of all languages have of a parse table.
ghost use Rattle.std.specs.Prelude.{IfOk};
ghost use Rattle.parser_text.specs.Parsers.{ArePartsOf};

use crate::arrays::file_arrays;
use crate::error::ParserTextError;
use crate::sides::{left_sides, lengths};
use crate::texts::grammar_of;
use file_parts::parts::Array;
use packed_tables::packed::PackedTables;
use parse_tables::table::ParseTable;
use std::alloc::Global;
use symbol_texts::grammar::GrammarTexts;

/// The symbols and the productions of a table as texts, arrays, and how many bytes a set of terminals
/// has.
#[derive(Drop)]
pub(crate) struct TableParts {
    pub(crate) grammar: GrammarTexts,
    pub(crate) arrays: Vec<Array>,
    pub(crate) set_bytes: u32,
}

/// The parts of a table and of packed arrays. The names of arrays are in capitals, or in small letters.
pub(crate) fn table_parts(
    alloc: Global,
    capitals: bool,
    table: &ParseTable,
    packed: &PackedTables,
) -> Result<TableParts, ParserTextError>
    ensures { IfOk result (λ parts. ArePartsOf capitals table.now packed.now parts.grammar
        parts.arrays.items parts.set_bytes) }
{
    let left = left_sides(alloc, table)?;
    let lengths = lengths(alloc, table)?;
    Ok(TableParts {
        grammar: grammar_of(alloc, table)?,
        arrays: file_arrays(alloc, capitals, packed, &left, &lengths)?,
        set_bytes: packed.set_bytes,
    })
}
