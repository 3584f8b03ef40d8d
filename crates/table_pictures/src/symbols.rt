//! Symbols, productions and tokens in the nodes of a graph.
ghost use Rattle.std.specs.Prelude.{◌≡◌, ◌++◌, OnOk, map, length, string_bytes, take};
ghost use Rattle.std.specs.List.{flat_map};
ghost use Rattle.lalrpop_base.specs.Words.{rising, seen, token_of};
ghost use Rattle.table_pictures.specs.Symbols.{more_tokens, most_tokens, production_xml, symbol_xml, symbols_xml, terminal_xml, token_xml, tokens_xml};

use super::escape::push_xml;
use lalrpop_base::lookahead::token::TokenRef;
use lalrpop_base::lookahead::token_set::TokenSet;
use lalrpop_base::memory::OutOfMemory;
use lalrpop_base::repr::terminals::TerminalSet;
use lalrpop_base::repr::{Production, Symbol, TerminalString};
use std::alloc::Global;

// The greatest number of tokens that are shown of a set.
const MOST: usize = 8;

/// Appends symbols, each after a space.
pub(crate) fn push_symbols(
    alloc: Global,
    text: &mut String,
    symbols: &[Symbol],
) -> Result<(), OutOfMemory>
    ensures { OnOk result
        (string_bytes text.new ≡ string_bytes text.old ++ symbols_xml symbols.now) }
{
    for symbol in symbols {
        push_symbol(alloc, text, symbol)?;
    }
    Ok(())
}

/// Appends a symbol after a space.
pub(crate) fn push_symbol(
    alloc: Global,
    text: &mut String,
    symbol: &Symbol,
) -> Result<(), OutOfMemory>
    ensures { OnOk result (string_bytes text.new ≡ string_bytes text.old ++ symbol_xml symbol.now) }
{
    let shown = format!(in alloc; " {symbol}")?;
    push_xml(text, shown.as_str())?;
    Ok(())
}

/// Appends a production.
pub(crate) fn push_production(
    alloc: Global,
    text: &mut String,
    production: &Production,
) -> Result<(), OutOfMemory>
    ensures { OnOk result
        (string_bytes text.new ≡ string_bytes text.old ++ production_xml production.now) }
{
    push_xml(text, production.nonterminal.text.as_str())?;
    text.push_str(" -&gt;")?;
    push_symbols(alloc, text, production.symbols.as_slice())?;
    Ok(())
}

/// Appends the first tokens of a set, each after a space, and the number of the others.
pub(crate) fn push_tokens(
    alloc: Global,
    text: &mut String,
    tokens: &TokenSet,
    terminals: &TerminalSet,
) -> Result<(), OutOfMemory>
    ensures { OnOk result
        (string_bytes text.new ≡ string_bytes text.old ++ tokens_xml terminals.now tokens.now) }
{
    push_first_tokens(alloc, text, tokens, terminals)?;
    push_more(text, tokens.len())?;
    Ok(())
}

// Appends the first tokens of a set, each after a space.
fn push_first_tokens(
    alloc: Global,
    text: &mut String,
    tokens: &TokenSet,
    terminals: &TerminalSet,
) -> Result<(), OutOfMemory>
    ensures { OnOk result (string_bytes text.new ≡ string_bytes text.old ++ flat_map token_xml
        (take most_tokens (map (token_of terminals.now) (rising tokens.now)))) }
{
    for token in tokens.iter(terminals).take(MOST) {
        push_token(alloc, text, token)?;
    }
    Ok(())
}

// Appends the number of tokens that are not shown, if there are such.
fn push_more(text: &mut String, count: usize) -> Result<(), OutOfMemory>
    ensures { OnOk result (string_bytes text.new ≡ string_bytes text.old ++ more_tokens count) }
{
    if count <= MOST {
        return Ok(());
    }
    let more = count - MOST;
    write!(text, " <I>and {more} more</I>")?;
    Ok(())
}

// Appends a token after a space.
fn push_token(alloc: Global, text: &mut String, token: TokenRef<'_>) -> Result<(), OutOfMemory>
    ensures { OnOk result
        (string_bytes text.new ≡ string_bytes text.old ++ token_xml (seen token.entry)) }
{
    match token {
        TokenRef::Eof => text.push_str(" Eof")?,
        TokenRef::Error => text.push_str(" Error")?,
        TokenRef::Terminal(terminal) => push_terminal(alloc, text, terminal)?,
    }
    Ok(())
}

// Appends a terminal after a space.
fn push_terminal(
    alloc: Global,
    text: &mut String,
    terminal: &TerminalString,
) -> Result<(), OutOfMemory>
    ensures { OnOk result
        (string_bytes text.new ≡ string_bytes text.old ++ terminal_xml terminal.now) }
{
    let shown = format!(in alloc; " {terminal}")?;
    push_xml(text, shown.as_str())?;
    Ok(())
}
