//! The rows of the actions of states, as numbers.
ghost use Rattle.std.specs.Prelude.{◌≡◌, IfOk, length};
ghost use Rattle.parser_text.specs.Hidden.{hidden_now};
ghost use Rattle.parser_text.specs.Rows.{HaveActionRows, IsActionRowOf, IsCodeOf};

use crate::error::ParserTextError;
use crate::listing::{reduction_code, small};
use lalrpop_base::repr::NonterminalString;
use parse_tables::table::{ParseTable, TableAction};
use std::alloc::Global;

/// The rows of the actions of so many states. A number is 0 if there is no action. Those of
/// reductions follow, as the productions are listed, and then those of shifts. A hidden production
/// has the number of a shift to state 0.
pub(crate) fn action_rows(
    alloc: Global,
    listed: &ParseTable,
    table: &ParseTable,
    hidden: Option<&NonterminalString>,
    states: u32,
) -> Result<Vec<Vec<u32>>, ParserTextError>
    ensures counted { IfOk result (λ rows. length rows.items ≡ states) }
    ensures each { IfOk result (λ rows. HaveActionRows (hidden_now hidden.entry) listed.now
        table.now rows.items) }
{
    let mut rows = Vec::new(alloc);
    for state in 0..states {
        rows.push(action_row(alloc, listed, table, hidden, state)?)?;
    }
    Ok(rows)
}

// The row of the actions of a state.
fn action_row(
    alloc: Global,
    listed: &ParseTable,
    table: &ParseTable,
    hidden: Option<&NonterminalString>,
    state: u32,
) -> Result<Vec<u32>, ParserTextError>
    ensures { IfOk result (λ row. IsActionRowOf (hidden_now hidden.entry) listed.now table.now
        state row.items) }
{
    let end = small(table.terminals().all().len())?;
    let mut row = Vec::new(alloc);
    for bit in 0..end {
        row.push(code_of(listed, table, hidden, state, bit)?)?;
    }
    row.push(code_of(listed, table, hidden, state, end)?)?;
    Ok(row)
}

// The number of the action of a state on a token with a bit.
fn code_of(
    listed: &ParseTable,
    table: &ParseTable,
    hidden: Option<&NonterminalString>,
    state: u32,
    bit: u32,
) -> Result<u32, ParserTextError>
    ensures { IfOk result (λ code. IsCodeOf (hidden_now hidden.entry) listed.now table.now state
        bit code) }
{
    let productions = listed.productions();
    match table.action(state, bit) {
        TableAction::None => Ok(0),
        TableAction::Reduce(number) => {
            let code = reduction_code(productions, table.productions(), hidden, state, number)?;
            Ok(code)
        }
        TableAction::Shift(target) => {
            if target == 0 {
                return Err(ParserTextError::ToFirst(state));
            }
            let code = small(productions.len() + 1 + target as usize)?;
            Ok(code)
        }
    }
}
