//! The tokens of a text.
use crate::fault::{BEGIN, Fault, FaultKind, Place};
use crate::grammar::{NUMBER, STRING};
use crate::numbers::{self, NumberPart};
use crate::strings::{self, StringPart};
use serde_json::Value;
use std::alloc::Global;
use std::mem;

/// A token: the text of its terminal, its value, and its place. That of the end has no terminal. A
/// structural character, for example a comma, has the value null.
#[derive(Drop)]
pub struct Token {
    pub terminal: &'static str,
    pub value: Value,
    pub place: Place,
}

// What is read.
#[derive(Clone, Copy)]
enum State {
    BetweenTokens,
    InLiteral,
    InNumber(NumberPart),
    InString(StringPart),
}

/// Reads a text, one character after the other.
#[derive(Drop)]
pub struct Lexer {
    alloc: Global,
    tokens: Vec<Token>,
    state: State,
    // What the token has so far. Of a string it has the characters, without quotation marks.
    text: String,
    // Where the next character is.
    place: Place,
    // Where the token begins.
    token_place: Place,
    // Where the character or the escape of a string begins.
    part_place: Place,
}

impl Lexer {
    /// At the beginning of a text.
    pub fn new(alloc: Global) -> Lexer {
        Lexer {
            alloc,
            tokens: Vec::new(alloc),
            state: State::BetweenTokens,
            text: String::new(alloc),
            place: BEGIN,
            token_place: BEGIN,
            part_place: BEGIN,
        }
    }

    /// Reads one character.
    pub fn take(&mut self, character: char) -> Result<(), Fault> {
        let state = self.state;
        if let State::InString(part) = state {
            self.in_string(part, character)?;
        } else if let Some(next) = next_state(state, character) {
            self.keep(next, character)?;
        } else {
            self.end_token()?;
            self.begin_token(character)?;
        }
        self.place = self.place.after(character);
        Ok(())
    }

    /// The tokens, and after them that of the end.
    pub fn into_tokens(mut self) -> Result<Vec<Token>, Fault> {
        self.end_token()?;
        self.token_place = self.place;
        self.push("", Value::Null)?;
        Ok(self.tokens)
    }

    // Ends a literal or a number, if one is read.
    fn end_token(&mut self) -> Result<(), Fault> {
        let text = self.take_text();
        match self.state {
            State::BetweenTokens => Ok(()),
            State::InLiteral => match literal(text.as_str()) {
                Some((terminal, value)) => self.push(terminal, value),
                None => Err(self.fault(FaultKind::UnknownLiteral)),
            },
            State::InNumber(part) => match numbers::number_of(part, text.as_str()) {
                Ok(number) => self.push(NUMBER, Value::Number(number)),
                Err(FaultKind::NoDigit) => Err(Fault {
                    kind: FaultKind::NoDigit,
                    place: self.place,
                }),
                Err(kind) => Err(self.fault(kind)),
            },
            State::InString(_) => Err(self.fault(FaultKind::NoEnd)),
        }
    }

    // Begins a token, or passes white space.
    fn begin_token(&mut self, character: char) -> Result<(), Fault> {
        self.token_place = self.place;
        match character {
            ' ' | '\t' | '\n' | '\r' => Ok(()),
            '[' => self.push("[", Value::Null),
            ']' => self.push("]", Value::Null),
            '{' => self.push("{", Value::Null),
            '}' => self.push("}", Value::Null),
            ':' => self.push(":", Value::Null),
            ',' => self.push(",", Value::Null),
            '"' => {
                self.state = State::InString(StringPart::Whole);
                Ok(())
            }
            'a'..='z' => self.keep(State::InLiteral, character),
            _ => match numbers::first_part(character) {
                Some(part) => self.keep(State::InNumber(part), character),
                None => Err(self.fault(FaultKind::UnknownCharacter(character))),
            },
        }
    }

    // Reads a character of a string.
    fn in_string(&mut self, part: StringPart, character: char) -> Result<(), Fault> {
        if let StringPart::Whole = part {
            self.part_place = self.place;
        }
        match strings::next_part(part, character) {
            Ok((StringPart::End, _)) => {
                let text = self.take_text();
                self.push(STRING, Value::String(text))
            }
            Ok((next, Some(whole))) => self.keep(State::InString(next), whole),
            Ok((next, None)) => {
                self.state = State::InString(next);
                Ok(())
            }
            Err(kind) => Err(Fault {
                kind,
                place: self.part_place,
            }),
        }
    }

    // Adds a character to the text of the token, in a state.
    fn keep(&mut self, state: State, character: char) -> Result<(), Fault> {
        self.state = state;
        match self.text.push(character) {
            Ok(()) => Ok(()),
            Err(_) => Err(self.fault(FaultKind::Memory)),
        }
    }

    // The text of the token, which is empty then.
    fn take_text(&mut self) -> String {
        let empty = String::new(self.alloc);
        mem::replace(&mut self.text, empty)
    }

    // Adds a token.
    fn push(&mut self, terminal: &'static str, value: Value) -> Result<(), Fault> {
        self.state = State::BetweenTokens;
        let token = Token {
            terminal,
            value,
            place: self.token_place,
        };
        match self.tokens.push(token) {
            Ok(()) => Ok(()),
            Err(_) => Err(self.fault(FaultKind::Memory)),
        }
    }

    // A fault of the token.
    fn fault(&self, kind: FaultKind) -> Fault {
        Fault {
            kind,
            place: self.token_place,
        }
    }
}

// The state after one more character, if a literal or a number goes on by it.
fn next_state(state: State, character: char) -> Option<State> {
    match state {
        State::InLiteral if character.is_ascii_lowercase() => Some(State::InLiteral),
        State::InNumber(part) => match numbers::next_part(part, character) {
            Some(next) => Some(State::InNumber(next)),
            None => None,
        },
        _ => None,
    }
}

// The terminal of a literal name, and its value.
fn literal(name: &str) -> Option<(&'static str, Value)> {
    match name {
        "true" => Some(("true", Value::Bool(true))),
        "false" => Some(("false", Value::Bool(false))),
        "null" => Some(("null", Value::Null)),
        _ => None,
    }
}
