//! The comments of symbols and of productions.
ghost use Rattle.std.specs.Prelude.{◌≡◌, ◌++◌, OnOk, string_bytes};
ghost use Rattle.std.specs.List.{flat_map};
ghost use Rattle.symbol_texts.specs.Comments.{production_comment, spaced_symbol, symbol_comment, terminal_comment, visible_char, visible_text};

use crate::grammar::{ProductionText, SymbolText};
use std::alloc::AllocError;

/// Appends a terminal in quotes. A character that is no printable one of ASCII is shown by its
/// number. An error is an allocation failure.
pub fn push_terminal(text: &mut String, terminal: &str) -> Result<(), AllocError>
    ensures { OnOk result (string_bytes text.new ≡
        string_bytes text.old ++ terminal_comment terminal.now) }
{
    text.push_str("\"")?;
    push_visible(text, terminal)?;
    text.push_str("\"")?;
    Ok(())
}

/// Appends a production: its nonterminal, an equals sign, and its symbols. An error is an allocation
/// failure.
pub fn push_production(text: &mut String, production: &ProductionText) -> Result<(), AllocError>
    ensures { OnOk result (string_bytes text.new ≡
        string_bytes text.old ++ production_comment production.now) }
{
    text.push_str(&production.left)?;
    text.push_str(" =")?;
    push_symbols(text, &production.right)
}

// Appends symbols, each after a space.
fn push_symbols(text: &mut String, symbols: &[SymbolText]) -> Result<(), AllocError>
    ensures { OnOk result (string_bytes text.new ≡
        string_bytes text.old ++ flat_map spaced_symbol symbols.now) }
{
    for symbol in symbols {
        push_spaced(text, symbol)?;
    }
    Ok(())
}

// Appends a symbol after a space.
fn push_spaced(text: &mut String, symbol: &SymbolText) -> Result<(), AllocError>
    ensures { OnOk result (string_bytes text.new ≡
        string_bytes text.old ++ spaced_symbol symbol.now) }
{
    text.push_str(" ")?;
    if symbol.is_terminal {
        return push_terminal(text, &symbol.text);
    }
    text.push_str(&symbol.text)?;
    Ok(())
}

// Appends a text in which each character that is no printable one of ASCII is shown by its number.
fn push_visible(text: &mut String, shown: &str) -> Result<(), AllocError>
    ensures { OnOk result (string_bytes text.new ≡
        string_bytes text.old ++ visible_text shown.now) }
{
    for c in shown.chars() {
        push_visible_char(text, c)?;
    }
    Ok(())
}

/// Appends a character as it is shown: a printable one of ASCII as it is, and any other by its number.
/// An error is an allocation failure.
pub fn push_visible_char(text: &mut String, c: char) -> Result<(), AllocError>
    ensures { OnOk result (string_bytes text.new ≡ string_bytes text.old ++ visible_char c) }
{
    if ' ' <= c && c <= '~' {
        text.push(c)?;
        return Ok(());
    }
    text.push_str("\\u{")?;
    write!(text, "{:x}", c as u32)?;
    text.push_str("}")?;
    Ok(())
}
