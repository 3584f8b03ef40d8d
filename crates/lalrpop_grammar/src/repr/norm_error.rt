//! Why a grammar cannot be inlined.
ghost use Rattle.std.specs.Prelude.{◌≡◌};
ghost use Rattle.lalrpop_grammar.specs.declared.repr.norm_error.NormError.TheVariants.{Memory};

use super::{NonterminalString, Span};
use lalrpop_collections::memory::OutOfMemory;
use std::alloc::{AllocError, AllocFailed};
use thiserror::Error;

/// Why a grammar cannot be inlined.
#[derive(Debug, Drop, PartialEq, Eq, Error)]
pub enum NormError {
    /// The nonterminal would have to be inlined into itself. The span is that of its entry.
    #[error("cyclic inline of {name}")]
    Cycle { span: Span, name: NonterminalString },
    /// An action would have a number past the last one, 4294967295.
    #[error("too many actions")]
    TooManyActions,
    #[error("out of memory")]
    Memory,
}

/// The result of a call that may refuse a grammar.
pub type NormResult<T> = Result<T, NormError>;

impl From<OutOfMemory> for NormError {
    ghost from_gives = { λ _ e. e ≡ Memory };

    fn from(_error: OutOfMemory) -> NormError {
        NormError::Memory
    }
}

impl From<AllocError> for NormError {
    ghost from_gives = { λ _ e. e ≡ Memory };

    fn from(_error: AllocError) -> NormError {
        NormError::Memory
    }
}

impl<T: Drop> From<AllocFailed<T>> for NormError {
    ghost from_gives = { λ _ e. e ≡ Memory };

    fn from(_error: AllocFailed<T>) -> NormError {
        NormError::Memory
    }
}
