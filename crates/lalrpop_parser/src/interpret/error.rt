//! The errors of the parser: why there is no tree.
ghost use Rattle.std.specs.Prelude.{◌≡◌};
ghost use Rattle.lalrpop_parser.specs.declared.interpret.error.InterpretError.TheVariants.{Memory};

use lalrpop_base::lookahead::token::Token;
use lalrpop_base::lr1_core::state::State;
use lalrpop_base::memory::OutOfMemory;
use std::alloc::{AllocError, AllocFailed};
use std::fmt;
use thiserror::Error;

/// Why there is no tree. `Refused` has a state, and the token on which it has no action or ends the
/// parse too early. `Limit` means that another step would pass the limit, and `Memory` that an
/// allocation failed.
#[derive(Drop, Error)]
#[derive_where(Debug; L: fmt::Debug)]
#[error_bound(L: fmt::Debug)]
pub enum InterpretError<'a, 'grammar, L> {
    #[error("refused at {1}")]
    Refused(&'a State<'grammar, L>, Token),
    #[error("limit")]
    Limit,
    #[error("out of memory")]
    Memory,
}

impl<'a, 'grammar, L> From<OutOfMemory> for InterpretError<'a, 'grammar, L> {
    ghost from_gives = { λ _ e. e ≡ Memory };

    fn from(_error: OutOfMemory) -> Self {
        InterpretError::Memory
    }
}

impl<'a, 'grammar, L> From<AllocError> for InterpretError<'a, 'grammar, L> {
    ghost from_gives = { λ _ e. e ≡ Memory };

    fn from(_error: AllocError) -> Self {
        InterpretError::Memory
    }
}

impl<'a, 'grammar, L, T: Drop> From<AllocFailed<T>> for InterpretError<'a, 'grammar, L> {
    ghost from_gives = { λ _ e. e ≡ Memory };

    fn from(_error: AllocFailed<T>) -> Self {
        InterpretError::Memory
    }
}
