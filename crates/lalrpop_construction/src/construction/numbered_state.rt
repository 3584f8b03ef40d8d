//! States whose items and symbols are given by number.
mod made;

ghost use Rattle.lalrpop_base.specs.Words.{NumbersAscend};

pub use self::made::{finished_of, numbered_state};

/// A state whose items and symbols are given by number.
#[derive(Drop)]
pub struct NumberedState {
    /// The numbers of its items.
    pub items: Vec<usize>,
    /// The transitions, sorted by symbol: the number of a symbol, and the number of the state to
    /// which the symbol leads.
    pub edges: Vec<(usize, usize)>,
    /// The numbers of the finished items by which the state reduces, in the order of its
    /// reductions.
    pub reductions: Vec<usize>,
    pub ghost ascend: { NumbersAscend edges.items },
}
