//! The symbols and the productions of a parse table, as texts.
ghost use Rattle.std.specs.Prelude.{◌≡◌, IfOk, map, string_bytes};
ghost use Rattle.parser_text.specs.Texts.{IsGrammarOf, name_word, production_parts, production_words, symbol_parts, symbol_words, terminal_word};
ghost use Rattle.symbol_texts.specs.Texts.{texts_of};

use lalrpop_base::repr::{NonterminalString, Production, Symbol, TerminalString};
use parse_tables::table::ParseTable;
use std::alloc::{AllocError, Global};
use symbol_texts::grammar::{GrammarTexts, ProductionText, SymbolText};

/// The symbols and the productions of a table, in the order of their numbers. An error is an
/// allocation failure.
pub(crate) fn grammar_of(alloc: Global, table: &ParseTable) -> Result<GrammarTexts, AllocError>
    ensures { IfOk result (λ grammar. IsGrammarOf grammar table.now) }
{
    Ok(GrammarTexts {
        terminals: terminal_texts(alloc, table.terminals().all())?,
        nonterminals: nonterminal_texts(alloc, table.nonterminals())?,
        productions: production_texts(alloc, table.productions())?,
    })
}

// The texts of terminals, without quotes.
fn terminal_texts(alloc: Global, terminals: &[TerminalString]) -> Result<Vec<String>, AllocError>
    ensures { IfOk result (λ texts. texts_of texts.items ≡ map terminal_word terminals.now) }
{
    let mut texts = Vec::new(alloc);
    for terminal in terminals {
        texts.push(terminal_text(alloc, terminal)?)?;
    }
    Ok(texts)
}

// The text of a terminal, without quotes.
fn terminal_text(alloc: Global, terminal: &TerminalString) -> Result<String, AllocError>
    ensures { IfOk result (λ text. string_bytes text ≡ terminal_word terminal.now) }
{
    match terminal {
        TerminalString::Literal(text) => String::from_str(alloc, text.as_str()),
        TerminalString::Bare(text) => String::from_str(alloc, text.as_str()),
        TerminalString::Error => String::from_str(alloc, "error"),
    }
}

// The names of nonterminals.
fn nonterminal_texts(
    alloc: Global,
    nonterminals: &[NonterminalString],
) -> Result<Vec<String>, AllocError>
    ensures { IfOk result (λ texts. texts_of texts.items ≡ map name_word nonterminals.now) }
{
    let mut texts = Vec::new(alloc);
    for nonterminal in nonterminals {
        texts.push(String::from_str(alloc, nonterminal.text.as_str())?)?;
    }
    Ok(texts)
}

// The sides of productions.
fn production_texts(
    alloc: Global,
    productions: &[Production],
) -> Result<Vec<ProductionText>, AllocError>
    ensures { IfOk result (λ texts. map production_parts texts.items ≡
        map production_words productions.now) }
{
    let mut texts = Vec::new(alloc);
    for production in productions {
        texts.push(production_text(alloc, production)?)?;
    }
    Ok(texts)
}

// The sides of a production.
fn production_text(alloc: Global, production: &Production) -> Result<ProductionText, AllocError>
    ensures { IfOk result (λ text. production_parts text ≡ production_words production.now) }
{
    Ok(ProductionText {
        left: String::from_str(alloc, production.nonterminal.text.as_str())?,
        right: symbol_texts(alloc, production.symbols.as_slice())?,
    })
}

// The symbols of a right side.
fn symbol_texts(alloc: Global, symbols: &[Symbol]) -> Result<Vec<SymbolText>, AllocError>
    ensures { IfOk result (λ texts. map symbol_parts texts.items ≡ map symbol_words symbols.now) }
{
    let mut texts = Vec::new(alloc);
    for symbol in symbols {
        texts.push(symbol_text(alloc, symbol)?)?;
    }
    Ok(texts)
}

// A symbol of a right side.
fn symbol_text(alloc: Global, symbol: &Symbol) -> Result<SymbolText, AllocError>
    ensures { IfOk result (λ text. symbol_parts text ≡ symbol_words symbol.now) }
{
    match symbol {
        Symbol::Terminal(terminal) => Ok(SymbolText {
            is_terminal: true,
            text: terminal_text(alloc, terminal)?,
        }),
        Symbol::Nonterminal(name) => Ok(SymbolText {
            is_terminal: false,
            text: String::from_str(alloc, name.text.as_str())?,
        }),
    }
}
