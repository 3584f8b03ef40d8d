//! Grammars: entries, productions, actions.
use super::words::{push_production, push_symbols};
use lalrpop_base::memory::OutOfMemory;
use lalrpop_base::repr::NonterminalString;
use lalrpop_base::repr::grammar::{ActionFnDefnKind, Grammar, NonterminalData};
use lalrpop_base::repr::inlined::{InlineActionFnDefn, InlinedSymbol};
use lalrpop_base::repr::terminals::TerminalSet;

/// Appends the entries of a grammar with their productions and spans, and its terminals.
pub fn push_grammar(text: &mut String, grammar: &Grammar) -> Result<(), OutOfMemory> {
    for (name, entry) in grammar.nonterminals.iter() {
        push_entry(text, name, entry)?;
    }
    push_terminals(text, &grammar.terminals)
}

// Appends an entry with its span, its mark and its productions.
fn push_entry(
    text: &mut String,
    name: &NonterminalString,
    entry: &NonterminalData,
) -> Result<(), OutOfMemory> {
    write!(text, "{name} at {}..{}", entry.span.0, entry.span.1)?;
    if is_marked(entry) {
        text.push_str(", inline")?;
    }
    text.push_str("\n")?;
    for production in &entry.productions {
        text.push_str("  ")?;
        push_production(text, production)?;
        write!(text, " at {}..{}\n", production.span.0, production.span.1)?;
    }
    Ok(())
}

// Whether an entry is marked to be inlined.
fn is_marked(entry: &NonterminalData) -> bool {
    for attribute in &entry.attributes {
        if attribute.id.as_str() == "inline" {
            return true;
        }
    }
    false
}

// Appends the terminals, or a hyphen if there are none.
fn push_terminals(text: &mut String, terminals: &TerminalSet) -> Result<(), OutOfMemory> {
    text.push_str("terminals")?;
    if terminals.all().is_empty() {
        text.push_str(" -")?;
    }
    for terminal in terminals.all() {
        write!(text, " {terminal}")?;
    }
    text.push_str("\n")?;
    Ok(())
}

/// Appends names, each after a space, or a hyphen if there are none.
pub fn push_names(text: &mut String, names: &[NonterminalString]) -> Result<(), OutOfMemory> {
    if names.is_empty() {
        text.push_str(" -")?;
    }
    for name in names {
        write!(text, " {name}")?;
    }
    Ok(())
}

/// Appends the productions of a grammar, nonterminal by nonterminal.
pub fn push_productions(text: &mut String, grammar: &Grammar) -> Result<(), OutOfMemory> {
    for (_name, entry) in grammar.nonterminals.iter() {
        push_entry_productions(text, entry)?;
    }
    Ok(())
}

// Appends the productions of an entry.
fn push_entry_productions(text: &mut String, entry: &NonterminalData) -> Result<(), OutOfMemory> {
    for production in &entry.productions {
        text.push_str("  ")?;
        push_production(text, production)?;
        text.push_str("\n")?;
    }
    Ok(())
}

/// Appends the actions that inlining made.
pub fn push_inline_actions(text: &mut String, grammar: &Grammar) -> Result<(), OutOfMemory> {
    for (number, action) in grammar.action_fn_defns.iter().enumerate() {
        match &action.kind {
            ActionFnDefnKind::User => {}
            ActionFnDefnKind::Inline(made) => push_inline_action(text, number, made)?,
        }
    }
    Ok(())
}

// Appends an action that inlining made: the number of the action that it is made from, and its
// symbols.
fn push_inline_action(
    text: &mut String,
    number: usize,
    made: &InlineActionFnDefn,
) -> Result<(), OutOfMemory> {
    write!(text, "action {number}: {}", made.action.index())?;
    for symbol in made.symbols.as_slice() {
        push_inlined_symbol(text, symbol)?;
    }
    text.push_str("\n")?;
    Ok(())
}

// Appends a symbol after a space. An inlined symbol is the number of its action and its symbols, in
// parentheses.
fn push_inlined_symbol(text: &mut String, symbol: &InlinedSymbol) -> Result<(), OutOfMemory> {
    match symbol {
        InlinedSymbol::Original(symbol) => write!(text, " {symbol}")?,
        InlinedSymbol::Inlined(action, symbols) => {
            write!(text, " ({}", action.index())?;
            push_symbols(text, symbols.as_slice())?;
            text.push_str(")")?;
        }
    }
    Ok(())
}
