//! The words of right sides.
ghost use Rattle.std.specs.Prelude.{◌≡◌, ◌++◌, OnOk, string_bytes, take};
ghost use Rattle.std.specs.List.{flat_map};
ghost use Rattle.symbol_texts.specs.Names.{right_words, symbol_words};

use crate::grammar::SymbolText;
use crate::style::{Style, push_words};
use std::alloc::AllocError;

/// Appends the words of up to six symbols of a right side, or `empty` if it has none.
pub(crate) fn push_right(
    text: &mut String,
    style: Style,
    right: &[SymbolText],
) -> Result<(), AllocError>
    ensures { OnOk result (string_bytes text.new ≡
        string_bytes text.old ++ right_words style right.now) }
{
    if right.is_empty() {
        return push_words(text, style, "empty", true);
    }
    push_symbols(text, style, first_symbols(right))
}

// The first six symbols, or all if they are fewer.
fn first_symbols(symbols: &[SymbolText]) -> &[SymbolText]
    ensures { result.now ≡ take 6 symbols.now }
{
    if symbols.len() <= 6 {
        symbols
    } else {
        &symbols[..6]
    }
}

// Appends the words of symbols.
fn push_symbols(text: &mut String, style: Style, symbols: &[SymbolText]) -> Result<(), AllocError>
    ensures { OnOk result (string_bytes text.new ≡
        string_bytes text.old ++ flat_map (symbol_words style) symbols.now) }
{
    for symbol in symbols {
        push_symbol(text, style, symbol)?;
    }
    Ok(())
}

// Appends the words of a symbol.
fn push_symbol(text: &mut String, style: Style, symbol: &SymbolText) -> Result<(), AllocError>
    ensures { OnOk result (string_bytes text.new ≡
        string_bytes text.old ++ symbol_words style symbol.now) }
{
    push_words(text, style, &symbol.text, true)
}
