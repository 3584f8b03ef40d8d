//! The tokens that may come after a list of terminals.
ghost use Rattle.std.specs.Prelude.{IfOk};
ghost use Rattle.table_parser.specs.Expected.{AreExpectedAfter};

use crate::error::TableParseError;
use crate::handler::Silent;
use crate::machine::Machine;
use lalrpop_base::lookahead::token_set::TokenSet;
use parse_tables::table::ParseTable;
use std::alloc::Global;
use std::convert::Infallible;

/// The tokens that may come after terminals, all by their bits. The bit of the end of the input is
/// the number of terminals. The terminals are read anew, in at most `limit` steps. After a
/// refusal a caller passes the terminals before the refused token.
pub fn expected_after(
    alloc: Global,
    table: &ParseTable,
    limit: usize,
    read: &[u32],
) -> Result<TokenSet, TableParseError<Infallible>>
    ensures { IfOk result (AreExpectedAfter table.now read.now) }
{
    let mut machine = Machine::new(alloc, table, limit);
    for bit in read {
        machine.shift(*bit, &mut Silent)?;
    }
    machine.expected(alloc)
}
