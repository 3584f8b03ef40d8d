//! What is wrong with a text, and where.
use crate::actions::NESTING;
use thiserror::Error;

/// A line and a column, from 1. A line ends with a line feed, and a column is one character.
#[derive(Clone, Copy, Debug)]
pub struct Place {
    pub line: u32,
    pub column: u32,
}

/// The place where a text begins.
pub const BEGIN: Place = Place { line: 1, column: 1 };

impl Place {
    /// The place after a character that is at this place.
    pub fn after(self, character: char) -> Place {
        if character == '\n' {
            return Place {
                line: self.line.saturating_add(1),
                column: 1,
            };
        }
        Place {
            line: self.line,
            column: self.column.saturating_add(1),
        }
    }
}

/// What is wrong with a text.
#[derive(Debug, Drop, Error)]
pub enum FaultKind {
    #[error("{0}")]
    Unexpected(String),
    #[error("unknown character {0:?}")]
    UnknownCharacter(char),
    #[error("unknown literal, expected `false`, `null` or `true`")]
    UnknownLiteral,
    #[error("expected a digit")]
    NoDigit,
    #[error("a number with a leading zero")]
    LeadingZero,
    #[error("the number is too large")]
    TooLarge,
    #[error("a control character in a string")]
    ControlCharacter,
    #[error("unknown escape {0:?}")]
    UnknownEscape(char),
    #[error("an escape without four hexadecimal digits")]
    NoHexadecimal,
    #[error("a lone surrogate")]
    LoneSurrogate,
    #[error("a string without an end")]
    NoEnd,
    #[error("values are nested more than {limit} deep", limit = NESTING)]
    TooDeep,
    #[error("no value")]
    NoValue,
    #[error("out of memory")]
    Memory,
}

/// What is wrong with a text, and at which place.
#[derive(Debug, Drop, Error)]
#[error("{}:{}: {kind}", .place.line, .place.column)]
pub struct Fault {
    pub kind: FaultKind,
    pub place: Place,
}
