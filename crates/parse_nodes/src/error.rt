//! Why a node is not added.
ghost use Rattle.std.specs.Prelude.{◌≡◌};
ghost use Rattle.parse_nodes.specs.declared.error.NodeError.TheVariants.{Memory};

use std::alloc::{AllocError, AllocFailed};
use thiserror::Error;

/// Why a node is not added. `TooLarge` means that its size or a position has more than 32 bits.
#[derive(Clone, Copy, Debug, Drop, PartialEq, Eq, Error)]
pub enum NodeError {
    #[error("the parse tree is too large")]
    TooLarge,
    #[error("out of memory")]
    Memory,
}

impl From<AllocError> for NodeError {
    ghost from_gives = { λ _ e. e ≡ Memory };

    fn from(_error: AllocError) -> Self {
        NodeError::Memory
    }
}

impl<T: Drop> From<AllocFailed<T>> for NodeError {
    ghost from_gives = { λ _ e. e ≡ Memory };

    fn from(_error: AllocFailed<T>) -> Self {
        NodeError::Memory
    }
}
