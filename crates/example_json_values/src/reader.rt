//! Reads the value of a text.
use crate::actions::{JsonActions, SymbolValue};
use crate::fault::{BEGIN, Fault, FaultKind};
use crate::grammar::bit_of;
use crate::lexer::{Lexer, Token};
use crate::messages::unexpected;
use parse_tables::table::ParseTable;
use serde_json::Value;
use std::alloc::{AllocError, Global};
use table_parser::error::TableParseError;
use table_parser::events::parse_events;
use table_parser::values::{ValueError, ValueStack};

/// The value of a text, or what is wrong with it. All tokens are made first. So a fault in a token is
/// reported before a wrong token that is earlier in the text.
pub fn read_json(alloc: Global, table: &ParseTable, text: &str) -> Result<Value, Fault> {
    let mut lexer = Lexer::new(alloc);
    for character in text.chars() {
        lexer.take(character)?;
    }
    parse_json(alloc, table, lexer.into_tokens()?)
}

// The value of tokens, or what is wrong with them.
fn parse_json(alloc: Global, table: &ParseTable, tokens: Vec<Token>) -> Result<Value, Fault> {
    let Ok(bits) = bits_of(alloc, table, &tokens) else {
        return Err(at_begin(FaultKind::Memory));
    };
    let mut stack = ValueStack::new(alloc, JsonActions::new(alloc, table, tokens));
    match parse_events(alloc, table, usize::MAX, bits.iter().copied(), &mut stack) {
        Ok(()) => match stack.into_value() {
            Some(SymbolValue::Json(value)) => Ok(value),
            _ => Err(at_begin(FaultKind::NoValue)),
        },
        Err(TableParseError::Refused(refusal)) => {
            let kind = unexpected(alloc, table, &bits, &refusal);
            Err(stack.actions().fault(kind, refusal.position))
        }
        Err(TableParseError::Stopped(ValueError::Stopped(fault))) => Err(fault),
        Err(_) => Err(at_begin(FaultKind::Memory)),
    }
}

// The bits of tokens, up to the last one, which is that of the end.
fn bits_of(alloc: Global, table: &ParseTable, tokens: &[Token]) -> Result<Vec<u32>, AllocError> {
    let mut bits = Vec::new(alloc);
    for token in tokens {
        bits.push(bit_of(table, token.terminal))?;
    }
    bits.pop();
    Ok(bits)
}

// A fault without a place of its own.
fn at_begin(kind: FaultKind) -> Fault {
    Fault { kind, place: BEGIN }
}
