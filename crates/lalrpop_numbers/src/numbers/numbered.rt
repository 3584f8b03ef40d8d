//! Items by number.
/// An item: the number of its dotted production, and its lookahead.
#[derive(Debug, Drop, PartialEq, Eq, PartialOrd, Ord, Hash)]
pub struct Numbered<L> {
    pub number: usize,
    pub lookahead: L,
}
