//! Symbols, tokens, productions and items. An empty list is shown as a hyphen.
use lalrpop_base::lookahead::nil::Nil;
use lalrpop_base::lookahead::token_set::TokenSet;
use lalrpop_base::lr1_core::item::Item;
use lalrpop_base::memory::OutOfMemory;
use lalrpop_base::repr::terminals::TerminalSet;
use lalrpop_base::repr::{Production, Symbol};

/// Appends symbols, each after a space.
pub fn push_symbols(text: &mut String, symbols: &[Symbol]) -> Result<(), OutOfMemory> {
    for symbol in symbols {
        write!(text, " {symbol}")?;
    }
    Ok(())
}

/// Appends symbols, each after a space, or a hyphen if there are none.
pub fn push_list(text: &mut String, symbols: &[Symbol]) -> Result<(), OutOfMemory> {
    if symbols.is_empty() {
        text.push_str(" -")?;
    }
    push_symbols(text, symbols)
}

/// Appends the tokens of a set by ascending bit, each after a space, or a hyphen if there are none.
pub fn push_tokens(
    text: &mut String,
    set: &TokenSet,
    terminals: &TerminalSet,
) -> Result<(), OutOfMemory> {
    if set.len() == 0 {
        text.push_str(" -")?;
    }
    for token in set.iter(terminals) {
        write!(text, " {token}")?;
    }
    Ok(())
}

/// Appends numbers, each after a space, or a hyphen if there are none.
pub fn push_numbers(text: &mut String, numbers: &[usize]) -> Result<(), OutOfMemory> {
    if numbers.is_empty() {
        text.push_str(" -")?;
    }
    for number in numbers {
        write!(text, " {number}")?;
    }
    Ok(())
}

/// Appends a production: the number of its action, its nonterminal and its symbols.
pub fn push_production(text: &mut String, production: &Production) -> Result<(), OutOfMemory> {
    write!(text, "{}: {production}", production.action.index())?;
    Ok(())
}

/// Appends an item: its production with a dot, and the tokens of its lookahead.
pub fn push_item<L: ShownLookahead>(
    text: &mut String,
    item: &Item<'_, L>,
    terminals: &TerminalSet,
) -> Result<(), OutOfMemory> {
    let production = item.production;
    write!(
        text,
        "{}: {} ->",
        production.action.index(),
        production.nonterminal
    )?;
    push_symbols(text, item.prefix())?;
    text.push_str(" .")?;
    push_symbols(text, item.rest())?;
    item.lookahead.push_on(text, terminals)
}

/// A lookahead that is shown after its item, its reduction or its conflict.
pub trait ShownLookahead {
    /// Appends ` on` and the tokens. For `Nil`, the lookahead of LR(0) items, it appends nothing.
    fn push_on(&self, text: &mut String, terminals: &TerminalSet) -> Result<(), OutOfMemory>;
}

impl ShownLookahead for Nil {
    fn push_on(&self, _text: &mut String, _terminals: &TerminalSet) -> Result<(), OutOfMemory> {
        Ok(())
    }
}

impl ShownLookahead for TokenSet {
    fn push_on(&self, text: &mut String, terminals: &TerminalSet) -> Result<(), OutOfMemory> {
        text.push_str(" on")?;
        push_tokens(text, self, terminals)
    }
}
