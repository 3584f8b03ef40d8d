//! Why a parse table has no arrays.
ghost use Rattle.std.specs.Prelude.{◌≡◌};
ghost use Rattle.parser_text.specs.Errors.{of_packing};
ghost use Rattle.parser_text.specs.declared.error.ParserTextError.TheVariants.{Memory};

use packed_tables::error::PackError;
use std::alloc::{AllocError, AllocFailed};
use thiserror::Error;

/// Why a parse table has no arrays. `ToFirst` has a state with a shift or a goto to state 0, which
/// no tables of a construction have. `Unlisted` has a state that reduces by a production that is not
/// listed. `Unknown` has a nonterminal that is listed, but is none of the tables. `TooLarge` means
/// that a number has more than 32 bits.
#[derive(Debug, Drop, PartialEq, Eq, Error)]
pub enum ParserTextError {
    #[error("state {0} has a shift or a goto to state 0")]
    ToFirst(u32),
    #[error("state {0} reduces by a production that is not listed")]
    Unlisted(u32),
    #[error("nonterminal {0} is none of the tables")]
    Unknown(u32),
    #[error("a number has more than 32 bits")]
    TooLarge,
    #[error("{0}")]
    Packing(PackError),
    #[error("out of memory")]
    Memory,
}

impl From<AllocError> for ParserTextError {
    ghost from_gives = { λ _ e. e ≡ Memory };

    fn from(_error: AllocError) -> Self {
        ParserTextError::Memory
    }
}

impl<T: Drop> From<AllocFailed<T>> for ParserTextError {
    ghost from_gives = { λ _ e. e ≡ Memory };

    fn from(_error: AllocFailed<T>) -> Self {
        ParserTextError::Memory
    }
}

impl From<PackError> for ParserTextError {
    ghost from_gives = { λ error e. e ≡ of_packing error };

    fn from(error: PackError) -> Self {
        match error {
            PackError::TooLarge => ParserTextError::Packing(PackError::TooLarge),
            PackError::Wrong => ParserTextError::Packing(PackError::Wrong),
            PackError::Memory => ParserTextError::Memory,
        }
    }
}
