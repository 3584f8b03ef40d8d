//! The sides of the productions of a parse table, as two lists of numbers.
ghost use Rattle.std.specs.Prelude.{IfOk};
ghost use Rattle.parser_text.specs.Sides.{AreLeftSides, AreLengths};

use crate::error::ParserTextError;
use crate::listing::small;
use parse_tables::table::ParseTable;
use std::alloc::Global;

/// The number of the nonterminal of each production.
pub(crate) fn left_sides(alloc: Global, table: &ParseTable) -> Result<Vec<u32>, ParserTextError>
    ensures { IfOk result (λ left. AreLeftSides table.now left.items) }
{
    let count = small(table.productions().len())?;
    let mut left = Vec::new(alloc);
    for production in 0..count {
        let Some((nonterminal, _)) = table.side(production) else {
            return Err(ParserTextError::Unlisted(production));
        };
        left.push(nonterminal)?;
    }
    Ok(left)
}

/// How many symbols the right side of each production has.
pub(crate) fn lengths(alloc: Global, table: &ParseTable) -> Result<Vec<u32>, ParserTextError>
    ensures { IfOk result (λ lengths. AreLengths table.now lengths.items) }
{
    let count = small(table.productions().len())?;
    let mut lengths = Vec::new(alloc);
    for production in 0..count {
        let Some((_, length)) = table.side(production) else {
            return Err(ParserTextError::Unlisted(production));
        };
        lengths.push(length)?;
    }
    Ok(lengths)
}
