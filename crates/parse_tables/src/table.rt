//! A table of actions and gotos by number.
mod reading;

ghost use Rattle.std.specs.Prelude.{◌≡◌, ◌+◌, length};
ghost use Rattle.parse_tables.specs.Codes.{AreSides};

use crate::numbering::Numbering;
use crate::rows::Rows;
use lalrpop_base::repr::terminals::TerminalSet;
use lalrpop_base::repr::{NonterminalString, Production};

/// A table for running a parser. The bit of a terminal is its number, and that of the end of the
/// input is the number of terminals. Nonterminals and productions are numbered in the order of
/// `Grammar::nonterminals`, which is that of the names. The number of an action is that of a line.
#[derive(Drop)]
pub struct ParseTable {
    pub(crate) terminals: TerminalSet,
    pub(crate) nonterminals: Numbering<NonterminalString>,
    pub(crate) productions: Numbering<Production>,
    // The number of the nonterminal of each production, and the length of its right side.
    pub(crate) sides: Vec<(u32, u32)>,
    // The numbers of shifts begin after those of reductions.
    pub(crate) first_shift: u32,
    pub(crate) actions: Rows,
    pub(crate) gotos: Rows,
    ghost shifted: { first_shift ≡ length productions + 1 },
    ghost counted: { length sides.items ≡ length productions },
    ghost sided: { AreSides nonterminals productions sides.items },
}

/// An action of a state on a token: none, a shift to the state with a number, or a reduction by the
/// production with a number.
#[derive(Clone, Copy, Debug, PartialEq, Eq)]
pub enum TableAction {
    None,
    Shift(u32),
    Reduce(u32),
}
