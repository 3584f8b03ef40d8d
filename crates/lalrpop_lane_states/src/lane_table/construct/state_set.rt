//! Sets of states whose contexts are joined.
ghost use Rattle.std.specs.Prelude.{◌≡◌};

/// The number of a set of states.
#[derive(Clone, Copy, Debug, PartialEq, Eq)]
pub struct StateSet {
    index: usize,
}

impl StateSet {
    /// The set with the number `index`.
    pub fn new(index: usize) -> StateSet
        ensures { result.index ≡ index }
    {
        StateSet { index }
    }

    /// The number of the set.
    pub fn index(self) -> usize
        ensures { result ≡ self.index }
    {
        self.index
    }
}
