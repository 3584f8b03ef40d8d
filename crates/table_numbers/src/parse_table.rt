//! Parse tables of numbers.
ghost use Rattle.std.specs.Prelude.{◌≡◌, IfOk};
ghost use Rattle.lalrpop_base.specs.Words.{productions};
ghost use Rattle.table_numbers.specs.Lists.{lists_of, nonterminals_of};
ghost use Rattle.table_numbers.specs.ParseTables.{IsTableOfNumbers};

use crate::error::NumbersError;
use crate::numbers::read;
use lalrpop_base::repr::grammar::Grammar;
use parse_tables::error::ParseTableError;
use parse_tables::table::ParseTable;
use std::alloc::Global;
use thiserror::Error;

/// Why numbers have no parse table: they are not those of tables for the grammar, or the table of
/// the states is refused.
#[derive(Debug, Drop, Error)]
pub enum ReadTableError {
    #[error("{0}")]
    Numbers(#[from] NumbersError),
    #[error("{0}")]
    Table(#[from] ParseTableError),
}

/// The parse table of numbers, for the grammar that they were made for.
pub fn read_table(
    alloc: Global,
    grammar: &Grammar,
    numbers: &[u32],
) -> Result<ParseTable, ReadTableError>
    ensures table { IfOk result (IsTableOfNumbers (lists_of grammar.now) numbers.now) }
    ensures terminals { IfOk result (λ t. t.terminals ≡ grammar.now.terminals) }
    ensures nonterminals { IfOk result (λ t. t.nonterminals ≡ nonterminals_of grammar.now) }
    ensures productions { IfOk result (λ t. t.productions ≡ productions grammar.now) }
{
    let states = read(alloc, grammar, numbers)?;
    let table = ParseTable::new(alloc, grammar, &states)?;
    Ok(table)
}
