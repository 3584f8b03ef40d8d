//! The message for a wrong token.
use crate::fault::FaultKind;
use crate::grammar::{NUMBER, STRING, text_of};
use parse_tables::table::ParseTable;
use std::alloc::Global;
use table_parser::error::Refusal;
use table_parser::expected::expected_after;

/// What was found, and what is expected in its place.
pub fn unexpected(alloc: Global, table: &ParseTable, bits: &[u32], refusal: &Refusal) -> FaultKind {
    match refusal_text(alloc, table, bits, refusal) {
        Ok(text) => FaultKind::Unexpected(text),
        Err(_) => FaultKind::Memory,
    }
}

// The text of the message.
fn refusal_text(
    alloc: Global,
    table: &ParseTable,
    bits: &[u32],
    refusal: &Refusal,
) -> anyhow::Result<String> {
    let found = name_of(alloc, table, refusal.bit as usize)?;
    let read = bits.get(..refusal.position).unwrap_or(bits);
    let expected = expected_after(alloc, table, usize::MAX, read)?;
    let mut names = Vec::new(alloc);
    for bit in expected.bits() {
        names.push(name_of(alloc, table, bit)?)?;
    }
    let list = list_of(alloc, &names)?;
    Ok(format!(in alloc; "found {found}, expected {list}")?)
}

// What the token with a bit is called.
fn name_of(alloc: Global, table: &ParseTable, bit: usize) -> anyhow::Result<String> {
    let Some(terminal) = table.terminals().all().get(bit) else {
        return Ok(String::from_str(alloc, "end of input")?);
    };
    let text = text_of(terminal);
    if text == NUMBER || text == STRING {
        return Ok(String::from_str(alloc, text)?);
    }
    Ok(format!(in alloc; "`{text}`")?)
}

// Names with commas between them, and `or` before the last.
fn list_of(alloc: Global, names: &[String]) -> anyhow::Result<String> {
    let mut list = String::new(alloc);
    for (number, name) in names.iter().enumerate() {
        let between = if number == 0 {
            ""
        } else if number.saturating_add(1) == names.len() {
            " or "
        } else {
            ", "
        };
        list.push_str(between)?;
        list.push_str(name.as_str())?;
    }
    Ok(list)
}
