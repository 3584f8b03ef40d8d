//! Why there are no numbers of tables, or no tables of numbers.
ghost use Rattle.std.specs.Prelude.{◌≡◌};
ghost use Rattle.table_numbers.specs.declared.error.NumbersError.TheVariants.{Memory};

use lalrpop_base::memory::OutOfMemory;
use std::alloc::{AllocError, AllocFailed};
use thiserror::Error;

/// Why there are no numbers of tables, or no tables of numbers. A place is the index of a number in
/// the list. `CutOff` has the place at which a number is missing. `Wrong` has the first place whose
/// number is not the one that the tables have there, for example a wrong place of a state, or a
/// number after the last block. `Items` has the number of lists of items. `State` has the number of
/// a state that names what the grammar does not list, or that names it twice. `Repeated` has the
/// number of a production that the grammar lists a second time.
#[derive(Debug, Drop, PartialEq, Eq, Error)]
pub enum NumbersError {
    #[error("place 0: the numbers are not those of tables")]
    NotTables,
    #[error("place 1: version {0} is unknown")]
    Version(u32),
    #[error("place 2: {0} lists of items are not one for each state")]
    Items(usize),
    #[error("place {0}: the numbers end before the tables")]
    CutOff(usize),
    #[error("place {0}: the number is not the one of the tables")]
    Wrong(usize),
    #[error("place 3: the grammar does not have {0} terminals")]
    Terminals(u32),
    #[error("place 4: the grammar does not have {0} nonterminals")]
    Nonterminals(u32),
    #[error("the productions are not those of the grammar")]
    Productions,
    #[error("token set {0} has a number that is no token's")]
    Set(usize),
    #[error("state {0} has a number that names nothing, or a name twice")]
    State(usize),
    #[error("production {0} of the grammar is listed twice")]
    Repeated(usize),
    #[error("a number has more than 32 bits")]
    TooLarge,
    #[error("out of memory")]
    Memory,
}

impl From<OutOfMemory> for NumbersError {
    ghost from_gives = { λ _ e. e ≡ Memory };

    fn from(_error: OutOfMemory) -> Self {
        NumbersError::Memory
    }
}

impl From<AllocError> for NumbersError {
    ghost from_gives = { λ _ e. e ≡ Memory };

    fn from(_error: AllocError) -> Self {
        NumbersError::Memory
    }
}

impl<T: Drop> From<AllocFailed<T>> for NumbersError {
    ghost from_gives = { λ _ e. e ≡ Memory };

    fn from(_error: AllocFailed<T>) -> Self {
        NumbersError::Memory
    }
}
