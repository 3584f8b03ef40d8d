//! The arrays of a parse table.
ghost use Rattle.std.specs.Prelude.{IfOk};
ghost use Rattle.parser_text.specs.Arrays.{AreArraysOf};
ghost use Rattle.parser_text.specs.Hidden.{hidden_now};

use crate::action_rows::action_rows;
use crate::error::ParserTextError;
use crate::goto_rows::goto_rows;
use crate::listing::small;
use lalrpop_base::repr::NonterminalString;
use packed_tables::pack::pack;
use packed_tables::packed::PackedTables;
use parse_tables::table::ParseTable;
use std::alloc::Global;

/// The arrays of a parse table with so many states. Each lookup in them was compared with the table.
/// The file has the productions and nonterminals of the table `listed`, in which those of the hidden
/// nonterminal are left out. If none is hidden, both tables are the same.
pub fn pack_table(
    alloc: Global,
    listed: &ParseTable,
    table: &ParseTable,
    hidden: Option<&NonterminalString>,
    states: u32,
) -> Result<PackedTables, ParserTextError>
    ensures { IfOk result (λ arrays. AreArraysOf (hidden_now hidden.entry) arrays listed.now
        table.now states) }
{
    let actions = action_rows(alloc, listed, table, hidden, states)?;
    let gotos = goto_rows(alloc, listed, table, states)?;
    let reductions = small(listed.productions().len())?;
    Ok(pack(alloc, &actions, reductions, &gotos)?)
}
