//! Why states have no parse table.
ghost use Rattle.std.specs.Prelude.{◌≡◌};
ghost use Rattle.parse_tables.specs.declared.error.ParseTableError.TheVariants.{Memory};

use lalrpop_base::memory::OutOfMemory;
use lalrpop_base::repr::NonterminalString;
use std::alloc::{AllocError, AllocFailed};
use thiserror::Error;

/// Why states have no parse table. `UnknownNonterminal` has a nonterminal that a production has and
/// the grammar does not list. `UnknownProduction` means that a state reduces by a production that
/// the grammar does not list. `Repeated` has the number of a production that the grammar lists a
/// second time. `TooLarge` means that a number of the table has more than 32 bits.
#[derive(Debug, Drop, Error)]
pub enum ParseTableError {
    #[error("{0} is no nonterminal of the grammar")]
    UnknownNonterminal(NonterminalString),
    #[error("a state reduces by a production that the grammar does not list")]
    UnknownProduction,
    #[error("production {0} is listed twice")]
    Repeated(usize),
    #[error("a number of the table has more than 32 bits")]
    TooLarge,
    #[error("out of memory")]
    Memory,
}

impl From<OutOfMemory> for ParseTableError {
    ghost from_gives = { λ _ e. e ≡ Memory };

    fn from(_error: OutOfMemory) -> Self {
        ParseTableError::Memory
    }
}

impl From<AllocError> for ParseTableError {
    ghost from_gives = { λ _ e. e ≡ Memory };

    fn from(_error: AllocError) -> Self {
        ParseTableError::Memory
    }
}

impl<T: Drop> From<AllocFailed<T>> for ParseTableError {
    ghost from_gives = { λ _ e. e ≡ Memory };

    fn from(_error: AllocFailed<T>) -> Self {
        ParseTableError::Memory
    }
}
