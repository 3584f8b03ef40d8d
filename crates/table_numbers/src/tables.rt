//! Tables by number.
use lalrpop_base::sequence::Sequence;

/// The first number of tables: the ASCII bytes of `LR1T`, the first of them in the highest bits.
pub const MAGIC: u32 = 1280454996;

/// The version of the layout.
pub const VERSION: u32 = 1;

/// An item by number: a production, how many of its symbols are before the dot, and a token set.
#[derive(Drop)]
pub struct NumberedItem {
    pub production: u32,
    pub dot: u32,
    pub lookahead: u32,
}

/// A state by number: its shifts (a terminal and a state), its gotos (a nonterminal and a state)
/// and its reductions (a production and a token set).
#[derive(Drop)]
pub struct NumberedState {
    pub shifts: Sequence<(u32, u32)>,
    pub gotos: Sequence<(u32, u32)>,
    pub reductions: Sequence<(u32, u32)>,
}

/// Tables by number. Terminals, nonterminals and productions have the numbers of their places in
/// the lists of a grammar. The token with number `terminals` is the end of the input. A production
/// has the number of its nonterminal and the length of its right side. A token set has the numbers
/// of its tokens. They ascend in tables that are made of states. There are no lists of items, or
/// there is one for each state.
#[derive(Drop)]
pub struct NumberedTables {
    pub terminals: u32,
    pub nonterminals: u32,
    pub productions: Sequence<(u32, u32)>,
    pub sets: Sequence<Sequence<u32>>,
    pub states: Sequence<NumberedState>,
    pub items: Sequence<Sequence<NumberedItem>>,
}
