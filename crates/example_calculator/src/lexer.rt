//! The tokens of a text.
use crate::actions::{Fault, FaultKind};
use std::alloc::Global;

/// A token: its kind, its value if it is a number, and its line and column, from 1.
#[derive(Clone, Copy, Debug)]
pub struct Token {
    pub kind: char,
    pub value: i64,
    pub line: u32,
    pub column: u32,
}

/// The kind of a number. The kind of another token is its character.
pub const NUMBER: char = '0';

/// The kind of the end of the text.
pub const END: char = '\n';

/// Reads a text, one character after the other.
#[derive(Drop)]
pub struct Lexer {
    tokens: Vec<Token>,
    // The number whose digits are read.
    number: Option<Token>,
    line: u32,
    column: u32,
}

impl Lexer {
    /// At the beginning of a text.
    pub fn new(alloc: Global) -> Lexer {
        Lexer {
            tokens: Vec::new(alloc),
            number: None,
            line: 1,
            column: 1,
        }
    }

    /// Reads one character.
    pub fn take(&mut self, character: char) -> Result<(), Fault> {
        match character.to_digit(10) {
            Some(digit) => self.digit(i64::from(digit))?,
            None => {
                self.end_number()?;
                self.other(character)?;
            }
        }
        self.column = self.column.saturating_add(1);
        Ok(())
    }

    /// The tokens, and after them that of the end.
    pub fn into_tokens(mut self) -> Result<Vec<Token>, Fault> {
        self.end_number()?;
        self.push(self.token(END))?;
        Ok(self.tokens)
    }

    // Ends the number whose digits were read.
    fn end_number(&mut self) -> Result<(), Fault> {
        if let Some(number) = self.number.take() {
            self.push(number)?;
        }
        Ok(())
    }

    // Reads a digit.
    fn digit(&mut self, digit: i64) -> Result<(), Fault> {
        let number = match self.number {
            Some(number) => number,
            None => self.token(NUMBER),
        };
        let Some(tens) = number.value.checked_mul(10) else {
            return Err(Fault::at(FaultKind::TooLarge, &number));
        };
        let Some(value) = tens.checked_add(digit) else {
            return Err(Fault::at(FaultKind::TooLarge, &number));
        };
        self.number = Some(Token { value, ..number });
        Ok(())
    }

    // Reads what is no digit.
    fn other(&mut self, character: char) -> Result<(), Fault> {
        match character {
            ' ' => Ok(()),
            '\n' => {
                self.line = self.line.saturating_add(1);
                self.column = 0;
                Ok(())
            }
            '+' | '-' | '*' | '/' | '(' | ')' => self.push(self.token(character)),
            _ => Err(Fault::at(FaultKind::Unknown(character), &self.token(character))),
        }
    }

    // A token of a kind at this place.
    fn token(&self, kind: char) -> Token {
        Token {
            kind,
            value: 0,
            line: self.line,
            column: self.column,
        }
    }

    // Adds a token.
    fn push(&mut self, token: Token) -> Result<(), Fault> {
        match self.tokens.push(token) {
            Ok(()) => Ok(()),
            Err(_) => Err(Fault::at(FaultKind::Memory, &token)),
        }
    }
}
