//! Why rows of numbers have no arrays.
ghost use Rattle.std.specs.Prelude.{◌≡◌};
ghost use Rattle.packed_tables.specs.declared.error.PackError.TheVariants.{Memory};

use std::alloc::{AllocError, AllocFailed};
use thiserror::Error;

/// Why rows of numbers have no arrays. `TooLarge` means that a number of the arrays has more than 32
/// bits. `Wrong` means that the arrays did not have the numbers of the rows, or that rows have
/// several lengths.
#[derive(Debug, Drop, PartialEq, Eq, Error)]
pub enum PackError {
    #[error("a number of the arrays has more than 32 bits")]
    TooLarge,
    #[error("the arrays do not have the numbers of the rows")]
    Wrong,
    #[error("out of memory")]
    Memory,
}

impl From<AllocError> for PackError {
    ghost from_gives = { λ _ e. e ≡ Memory };

    fn from(_error: AllocError) -> Self {
        PackError::Memory
    }
}

impl<T: Drop> From<AllocFailed<T>> for PackError {
    ghost from_gives = { λ _ e. e ≡ Memory };

    fn from(_error: AllocFailed<T>) -> Self {
        PackError::Memory
    }
}
