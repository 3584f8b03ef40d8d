//! A run by a parse table.
mod reducing;
mod running;
mod trying;

use parse_tables::table::ParseTable;

/// A run: the state on top, and below it each state with the position at which the symbol over it
/// begins, the newest last. It has read as many terminals as its position says.
#[derive(Drop)]
pub struct Machine<'t> {
    table: &'t ParseTable,
    state: u32,
    below: Vec<(u32, usize)>,
    position: usize,
    left: usize,
}

/// What can be done on a token after the reductions on it. `CanShift` has the state to which the
/// shift leads. `Ended` means that the last reduction was final, and has whether one tree is left.
#[derive(Clone, Copy)]
pub(crate) enum Progress {
    CanShift(u32),
    Stuck,
    Ended(bool),
}

/// What a reduction is: a step, or the final one. `Ends` has whether one tree is left.
#[derive(Clone, Copy)]
pub(crate) enum Reduced {
    GoesOn,
    Ends(bool),
}
