//! The error of a builder of a grammar.
ghost use Rattle.std.specs.Prelude.{◌≡◌};
ghost use Rattle.grammar_text.specs.declared.builder_error.BuilderError.TheVariants.{Memory};

use lalrpop_base::memory::OutOfMemory;
use lalrpop_base::repr::NonterminalString;
use lalrpop_base::text::Text;
use std::alloc::{AllocError, AllocFailed};
use thiserror::Error;

/// Why a line is refused, or why lines give no grammar.
#[derive(Debug, Drop, PartialEq, Eq, Error)]
pub enum BuilderError {
    /// The text that is given as the name of a nonterminal.
    #[error("`{0}` is not a name")]
    Name(Text),
    /// The nonterminal of the production, and the first word that is neither a name nor a literal,
    /// with its number, counted from 1.
    #[error("production of {nonterminal}: symbol {number}, `{word}`, is neither a name nor a literal")]
    Word {
        nonterminal: NonterminalString,
        number: usize,
        word: Text,
    },
    /// There are more than 4294967296 productions.
    #[error("too many actions")]
    TooManyActions,
    /// An allocation failed.
    #[error("out of memory")]
    Memory,
}

impl From<AllocError> for BuilderError {
    ghost from_gives = { λ _ e. e ≡ Memory };

    fn from(_e: AllocError) -> BuilderError {
        BuilderError::Memory
    }
}

impl<T: Drop> From<AllocFailed<T>> for BuilderError {
    ghost from_gives = { λ _ e. e ≡ Memory };

    fn from(_e: AllocFailed<T>) -> BuilderError {
        BuilderError::Memory
    }
}

impl From<OutOfMemory> for BuilderError {
    ghost from_gives = { λ _ e. e ≡ Memory };

    fn from(_e: OutOfMemory) -> BuilderError {
        BuilderError::Memory
    }
}
