//! The names of the symbols and of the productions of a grammar.
ghost use Rattle.std.specs.Prelude.{◌≡◌, ◌++◌, IfOk, OnOk, map, string_bytes};
ghost use Rattle.std.specs.List.{flat_map};
ghost use Rattle.symbol_texts.specs.Names.{as_name, begins_with_a_digit, long_name, nonterminal_names, production_name, production_names, symbol_name, terminal_names};
ghost use Rattle.symbol_texts.specs.Texts.{texts_of};

use crate::distinct::distinct;
use crate::grammar::ProductionText;
use crate::right_sides::push_right;
use crate::style::{Style, mark_of, push_words, reserved_in};
use std::alloc::{AllocError, Global};

/// The names of terminals, and that of the end of the input after them. An error is an allocation
/// failure.
pub fn terminal_names(
    alloc: Global,
    style: Style,
    terminals: &[String],
) -> Result<Vec<String>, AllocError>
    ensures { IfOk result (λ names. texts_of names.items ≡
        terminal_names style (texts_of terminals.now)) }
{
    let bases = symbol_bases(alloc, style, terminals)?;
    let mut taken = reserved_in(alloc, style)?;
    taken.push(symbol_name(alloc, style, "end")?)?;
    let mut names = distinct(alloc, &bases, mark_of(style), &taken)?;
    names.push(symbol_name(alloc, style, "end")?)?;
    Ok(names)
}

/// The names of nonterminals. An error is an allocation failure.
pub fn nonterminal_names(
    alloc: Global,
    style: Style,
    nonterminals: &[String],
) -> Result<Vec<String>, AllocError>
    ensures { IfOk result (λ names. texts_of names.items ≡
        nonterminal_names style (texts_of nonterminals.now)) }
{
    let bases = symbol_bases(alloc, style, nonterminals)?;
    let taken = reserved_in(alloc, style)?;
    distinct(alloc, &bases, mark_of(style), &taken)
}

/// The names of productions. One of more than six symbols has its number in its name. An error is
/// an allocation failure.
pub fn production_names(
    alloc: Global,
    style: Style,
    productions: &[ProductionText],
) -> Result<Vec<String>, AllocError>
    ensures { IfOk result (λ names. texts_of names.items ≡
        production_names style productions.now) }
{
    let bases = production_bases(alloc, style, productions)?;
    let mut taken = reserved_in(alloc, style)?;
    push_long(alloc, style, productions, &mut taken)?;
    distinct(alloc, &bases, mark_of(style), &taken)
}

// The names of symbols, some of which may be the same.
fn symbol_bases(alloc: Global, style: Style, symbols: &[String]) -> Result<Vec<String>, AllocError>
    ensures { IfOk result (λ names. texts_of names.items ≡
        map (symbol_name style) (texts_of symbols.now)) }
{
    let mut names = Vec::new(alloc);
    for symbol in symbols {
        names.push(symbol_name(alloc, style, symbol)?)?;
    }
    Ok(names)
}

// The name of a symbol.
fn symbol_name(alloc: Global, style: Style, symbol: &str) -> Result<String, AllocError>
    ensures { IfOk result (λ name. string_bytes name ≡ symbol_name style symbol.now) }
{
    let mut words = String::new(alloc);
    push_words(&mut words, style, symbol, false)?;
    as_name(alloc, words)
}

// The names of productions, some of which may be the same.
fn production_bases(
    alloc: Global,
    style: Style,
    productions: &[ProductionText],
) -> Result<Vec<String>, AllocError>
    ensures { IfOk result (λ names. texts_of names.items ≡
        map (production_name style) productions.now) }
{
    let mut names = Vec::new(alloc);
    for production in productions {
        names.push(production_name(alloc, style, production)?)?;
    }
    Ok(names)
}

// The name of a production, of which up to six symbols are shown.
fn production_name(
    alloc: Global,
    style: Style,
    production: &ProductionText,
) -> Result<String, AllocError>
    ensures { IfOk result (λ name. string_bytes name ≡ production_name style production.now) }
{
    let mut words = String::new(alloc);
    push_words(&mut words, style, &production.left, false)?;
    push_words(&mut words, style, "is", true)?;
    push_right(&mut words, style, &production.right)?;
    as_name(alloc, words)
}

// Appends the names of the productions of more than six symbols.
fn push_long(
    alloc: Global,
    style: Style,
    productions: &[ProductionText],
    names: &mut Vec<String>,
) -> Result<(), AllocError>
    ensures { OnOk result (texts_of names.new.items ≡
        texts_of names.old.items ++ flat_map (long_name style) productions.now) }
{
    for production in productions {
        push_if_long(alloc, style, production, names)?;
    }
    Ok(())
}

// Appends the name of a production of more than six symbols.
fn push_if_long(
    alloc: Global,
    style: Style,
    production: &ProductionText,
    names: &mut Vec<String>,
) -> Result<(), AllocError>
    ensures { OnOk result (texts_of names.new.items ≡
        texts_of names.old.items ++ long_name style production.now) }
{
    if production.right.len() > 6 {
        names.push(production_name(alloc, style, production)?)?;
    }
    Ok(())
}

// Words as a name, which has an `N` before it if it would begin with a digit.
fn as_name(alloc: Global, words: String) -> Result<String, AllocError>
    ensures { IfOk result (λ name. string_bytes name ≡ as_name (string_bytes words)) }
{
    if !begins_with_a_digit(words.as_bytes()) {
        return Ok(words);
    }
    let mut name = String::from_str(alloc, "N")?;
    name.push_str(&words)?;
    Ok(name)
}

// Whether the first byte is that of a digit.
fn begins_with_a_digit(bytes: &[u8]) -> bool
    ensures { result ≡ begins_with_a_digit bytes.now }
{
    let [first, ..] = bytes else {
        return false;
    };
    *first >= 48 && *first <= 57
}
