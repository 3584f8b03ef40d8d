//! What is said of a text that has no value.
use crate::actions::{Fault, FaultKind};
use crate::lexer::{NUMBER, Token};
use lalrpop_base::repr::TerminalString;
use parse_tables::table::ParseTable;
use std::alloc::Global;
use table_parser::error::Refusal;
use table_parser::expected::expected_after;

/// The bits of tokens, up to the last one, which is that of the end.
pub fn bits_of(alloc: Global, table: &ParseTable, tokens: &[Token]) -> anyhow::Result<Vec<u32>> {
    let mut bits = Vec::new(alloc);
    for token in tokens {
        bits.push(bit_of(table, token.kind))?;
    }
    bits.pop();
    Ok(bits)
}

// The bit of the terminal of a kind. Without a terminal it is the bit of the end.
fn bit_of(table: &ParseTable, kind: char) -> u32 {
    let mut bit: u32 = 0;
    for terminal in table.terminals().all() {
        if kind_of(terminal) == kind {
            return bit;
        }
        bit = bit.saturating_add(1);
    }
    bit
}

// The kind of the tokens of a terminal.
fn kind_of(terminal: &TerminalString) -> char {
    match terminal {
        TerminalString::Literal(text) => match text.as_str().as_bytes() {
            [kind] => char::from(*kind),
            _ => NUMBER,
        },
        _ => NUMBER,
    }
}

/// What is said of a wrong token: its place, what was found, and what may stand there.
pub fn refusal_text(
    alloc: Global,
    table: &ParseTable,
    tokens: &[Token],
    bits: &[u32],
    refusal: &Refusal,
    limit: usize,
) -> anyhow::Result<String> {
    let (line, column) = place_of(tokens, refusal.position);
    let found = name_of(alloc, table, refusal.bit as usize)?;
    let read = bits.get(..refusal.position).unwrap_or(bits);
    let expected = expected_after(alloc, table, limit, read)?;
    let mut names = Vec::new(alloc);
    for bit in expected.bits() {
        names.push(name_of(alloc, table, bit)?)?;
    }
    let list = list_of(alloc, &names)?;
    Ok(format!(in alloc; "{line}:{column}: found {found}, expected {list}")?)
}

// The line and the column of the token with a number.
fn place_of(tokens: &[Token], number: usize) -> (u32, u32) {
    if let Some(token) = tokens.get(number) {
        return (token.line, token.column);
    }
    (1, 1)
}

// What the token with a bit is called.
fn name_of(alloc: Global, table: &ParseTable, bit: usize) -> anyhow::Result<String> {
    let Some(terminal) = table.terminals().all().get(bit) else {
        return Ok(String::from_str(alloc, "end of input")?);
    };
    if kind_of(terminal) == NUMBER {
        return Ok(String::from_str(alloc, "number")?);
    }
    Ok(format!(in alloc; "`{}`", kind_of(terminal))?)
}

// Names with commas between them, and `or` before the last.
fn list_of(alloc: Global, names: &[String]) -> anyhow::Result<String> {
    let mut list = String::new(alloc);
    for (number, name) in names.iter().enumerate() {
        let between = if number == 0 {
            ""
        } else if number.saturating_add(1) == names.len() {
            " or "
        } else {
            ", "
        };
        list.push_str(between)?;
        list.push_str(name.as_str())?;
    }
    Ok(list)
}

/// What is said of a fault.
pub fn fault_text(alloc: Global, fault: &Fault) -> anyhow::Result<String> {
    let (line, column) = (fault.line, fault.column);
    let text = match fault.kind {
        FaultKind::Unknown(character) => {
            return Ok(format!(in alloc; "{line}:{column}: unknown character `{character}`")?);
        }
        FaultKind::TooLarge => "the number is too large",
        FaultKind::DivisionByZero => "division by zero",
        FaultKind::NoValue => "no value",
        FaultKind::Memory => "out of memory",
    };
    Ok(format!(in alloc; "{line}:{column}: {text}")?)
}
