//! The arrays of packed tables.

/// Rows that share one list of cells. The cell of a column is that many places after the place at
/// which the row begins. It is of the row if `column` there has its column.
#[derive(Debug, Drop)]
pub struct PackedRows {
    /// Where each row begins.
    pub row: Vec<u32>,
    /// The column of each cell.
    pub column: Vec<u32>,
    /// The number in each cell.
    pub cell: Vec<u32>,
}

/// The arrays of tables. A number of an action is 0 if there is none.
#[derive(Debug, Drop)]
pub struct PackedTables {
    /// The actions of each state, without its usual reduction.
    pub actions: PackedRows,
    /// The usual reduction of each state, as an action, or 0.
    pub reduction: Vec<u32>,
    /// The number of the set of terminals on which each state makes its usual reduction.
    pub set: Vec<u32>,
    /// The sets: bit b of byte k of a set is the terminal 8 k + b.
    pub sets: Vec<u8>,
    /// How many bytes a set has.
    pub set_bytes: u32,
    /// The gotos of each state, without the usual ones.
    pub gotos: PackedRows,
    /// The usual goto of each nonterminal, or 0.
    pub goto_usual: Vec<u32>,
}
