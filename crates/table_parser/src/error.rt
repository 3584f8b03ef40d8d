//! Why a run ends without a parse.
ghost use Rattle.std.specs.Prelude.{◌≡◌};
ghost use Rattle.table_parser.specs.declared.error.TableParseError.TheVariants.{Memory};

use lalrpop_base::memory::OutOfMemory;
use std::alloc::{AllocError, AllocFailed};
use thiserror::Error;

/// Where a run was refused: the position of the token in the input, the state, and the bit of the
/// token. The bit of the end of the input is the number of terminals.
#[derive(Clone, Copy, Debug, PartialEq, Eq)]
pub struct Refusal {
    pub position: usize,
    pub state: u32,
    pub bit: u32,
}

/// Why a run ends without a parse. `Refused` means that there is no action on the token, or that
/// the run ends too early. `Unknown` has the position and the number of a token that is no terminal
/// of the table. `Stopped` has the reason of the handler. `Limit` means that another step would
/// pass the limit. `TooLong` means that a position has more than 64 bits, or the number of terminals
/// more than 32.
#[derive(Debug, Drop, Error)]
pub enum TableParseError<S> {
    #[error("the token {} at position {} is wrong", .0.bit, .0.position)]
    Refused(Refusal),
    #[error("the token {1} at position {0} is no terminal")]
    Unknown(usize, u32),
    #[error("the handler stopped the run")]
    Stopped(S),
    #[error("the run needs more steps than the limit allows")]
    Limit,
    #[error("the input is too long")]
    TooLong,
    #[error("out of memory")]
    Memory,
}

impl<S> From<OutOfMemory> for TableParseError<S> {
    ghost from_gives = { λ _ e. e ≡ Memory };

    fn from(_error: OutOfMemory) -> Self {
        TableParseError::Memory
    }
}

impl<S> From<AllocError> for TableParseError<S> {
    ghost from_gives = { λ _ e. e ≡ Memory };

    fn from(_error: AllocError) -> Self {
        TableParseError::Memory
    }
}

impl<S, T: Drop> From<AllocFailed<T>> for TableParseError<S> {
    ghost from_gives = { λ _ e. e ≡ Memory };

    fn from(_error: AllocFailed<T>) -> Self {
        TableParseError::Memory
    }
}
