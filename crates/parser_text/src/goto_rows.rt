//! The rows of the gotos of states, as numbers.
ghost use Rattle.std.specs.Prelude.{◌≡◌, IfOk, length};
ghost use Rattle.parser_text.specs.Rows.{HaveGotoRows, IsGotoRowOf, IsTargetOf};

use crate::error::ParserTextError;
use crate::listing::{column_of, small};
use parse_tables::table::ParseTable;
use std::alloc::Global;

/// The rows of the gotos of so many states on the nonterminals that are listed. A number is 0 if
/// there is no goto, and otherwise the state to which the goto leads.
pub(crate) fn goto_rows(
    alloc: Global,
    listed: &ParseTable,
    table: &ParseTable,
    states: u32,
) -> Result<Vec<Vec<u32>>, ParserTextError>
    ensures counted { IfOk result (λ rows. length rows.items ≡ states) }
    ensures each { IfOk result (λ rows. HaveGotoRows listed.now table.now rows.items) }
{
    let mut rows = Vec::new(alloc);
    for state in 0..states {
        rows.push(goto_row(alloc, listed, table, state)?)?;
    }
    Ok(rows)
}

// The row of the gotos of a state.
fn goto_row(
    alloc: Global,
    listed: &ParseTable,
    table: &ParseTable,
    state: u32,
) -> Result<Vec<u32>, ParserTextError>
    ensures { IfOk result (λ row. IsGotoRowOf listed.now table.now state row.items) }
{
    let count = small(listed.nonterminals().len())?;
    let mut row = Vec::new(alloc);
    for nonterminal in 0..count {
        row.push(target_of(listed, table, state, nonterminal)?)?;
    }
    Ok(row)
}

// The state to which the goto of a state on a nonterminal leads, or 0 if there is none.
fn target_of(
    listed: &ParseTable,
    table: &ParseTable,
    state: u32,
    nonterminal: u32,
) -> Result<u32, ParserTextError>
    ensures { IfOk result (λ target. IsTargetOf listed.now table.now state nonterminal target) }
{
    let column = column_of(listed.nonterminals(), table.nonterminals(), nonterminal)?;
    match table.goto(state, column) {
        None => Ok(0),
        Some(target) => {
            if target == 0 {
                return Err(ParserTextError::ToFirst(state));
            }
            Ok(target)
        }
    }
}
