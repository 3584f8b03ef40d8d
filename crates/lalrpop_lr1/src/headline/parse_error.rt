//! The errors of a parse by the tables of a grammar: why there is no tree.
ghost use Rattle.std.specs.Prelude.{◌≡◌};
ghost use Rattle.lalrpop_lr1.specs.runs.ParseAnswers.{parse_result};

use lalrpop_base::lookahead::token::Token;
use lalrpop_base::lookahead::token_set::TokenSet;
use lalrpop_base::lr1_core::state::Lr1TableConstructionError;
use lalrpop_parser::interpret::{InterpretError, ParseTree};
use thiserror::Error;

/// Why there is no tree. `Conflicts` means that the grammar has conflicts, and so no tables. The
/// others are the errors of the parser.
#[derive(Debug, Drop, Error)]
pub enum ParseError<'grammar> {
    #[error("{0}")]
    Conflicts(Lr1TableConstructionError<'grammar>),
    #[error("refused at {0}")]
    Refused(Token),
    #[error("limit")]
    Limit,
    #[error("out of memory")]
    Memory,
}

// The result of the parser, without the state of a refusal.
pub(super) fn parse_result<'grammar>(
    answer: Result<ParseTree, InterpretError<'_, '_, TokenSet>>,
) -> Result<ParseTree, ParseError<'grammar>>
    ensures { result ≡ parse_result answer.entry }
{
    match answer {
        Ok(tree) => Ok(tree),
        Err(InterpretError::Refused(_, token)) => Err(ParseError::Refused(token)),
        Err(InterpretError::Limit) => Err(ParseError::Limit),
        Err(InterpretError::Memory) => Err(ParseError::Memory),
    }
}
