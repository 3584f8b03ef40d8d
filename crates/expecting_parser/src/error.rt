//! Why a run ends without a parse, with the expected tokens.
use lalrpop_base::lookahead::token_set::TokenSet;
use std::convert::Infallible;
use table_parser::error::{Refusal, TableParseError};
use thiserror::Error;

/// Why a run ends without a parse. `Refused` has the refusal, and the tokens that may come in place
/// of the refused token, or why these were not found. `Failed` has any other error.
#[derive(Debug, Drop, Error)]
pub enum ExpectingError<S> {
    #[error("the token {} at position {} is wrong", .0.bit, .0.position)]
    Refused(Refusal, Result<TokenSet, TableParseError<Infallible>>),
    #[error("{0}")]
    Failed(TableParseError<S>),
}
