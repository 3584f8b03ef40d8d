//! Names, symbols and tokens as JSON.
ghost use Rattle.std.specs.Prelude.{◌≡◌, ◌++◌, OnOk, string_bytes};
ghost use Rattle.lalrpop_base.specs.Words.{seen};
ghost use Rattle.table_data.specs.Json.{after_separator};
ghost use Rattle.table_data.specs.Names.{name_json, of_kind, terminal_json, symbol_json, token_json, tokens_json};

use super::naming::Naming;
use super::to_json::{ToJson, push_quoted};
use lalrpop_base::lookahead::token::TokenRef;
use lalrpop_base::lookahead::token_set::TokenSet;
use lalrpop_base::memory::OutOfMemory;
use lalrpop_base::repr::terminals::TerminalSet;
use lalrpop_base::repr::{NonterminalString, Symbol, TerminalString};
use std::alloc::Global;

impl ToJson for NonterminalString {
    ghost json = { λ _ name. name_json name };

    fn push_json(
        &self,
        alloc: Global,
        text: &mut String,
        _naming: &Naming<'_>,
    ) -> Result<(), OutOfMemory> {
        push_quoted(alloc, text, self.text.as_str())
    }
}

impl ToJson for TerminalString {
    ghost json = { λ _ terminal. terminal_json terminal };

    fn push_json(
        &self,
        alloc: Global,
        text: &mut String,
        _naming: &Naming<'_>,
    ) -> Result<(), OutOfMemory> {
        push_terminal(alloc, text, self)
    }
}

// Appends a terminal.
fn push_terminal(
    alloc: Global,
    text: &mut String,
    terminal: &TerminalString,
) -> Result<(), OutOfMemory>
    ensures { OnOk result
        (string_bytes text.new ≡ string_bytes text.old ++ terminal_json terminal.now) }
{
    match terminal {
        TerminalString::Literal(shown) => push_quoted(alloc, text, shown.as_str()),
        TerminalString::Bare(shown) => push_quoted(alloc, text, shown.as_str()),
        TerminalString::Error => push_quoted(alloc, text, "error"),
    }
}

impl ToJson for Symbol {
    ghost json = { λ _ symbol. symbol_json symbol };

    fn push_json(
        &self,
        alloc: Global,
        text: &mut String,
        naming: &Naming<'_>,
    ) -> Result<(), OutOfMemory> {
        match self {
            Symbol::Nonterminal(name) => push_kind(alloc, text, "nonterminal", name, naming),
            Symbol::Terminal(terminal) => push_kind(alloc, text, "terminal", terminal, naming),
        }
    }
}

// Appends an object with one member, whose key says what kind of symbol it is.
fn push_kind<T: ToJson>(
    alloc: Global,
    text: &mut String,
    kind: &str,
    symbol: &T,
    naming: &Naming<'_>,
) -> Result<(), OutOfMemory>
    ensures { OnOk result (string_bytes text.new ≡ string_bytes text.old ++ of_kind kind.now
        (T.json naming.now symbol.now)) }
{
    write!(text, "{{\"{kind}\":")?;
    symbol.push_json(alloc, text, naming)?;
    text.push_str("}")?;
    Ok(())
}

impl ToJson for TokenSet {
    ghost json = { λ naming set. tokens_json naming.terminals.now set };

    fn push_json(
        &self,
        alloc: Global,
        text: &mut String,
        naming: &Naming<'_>,
    ) -> Result<(), OutOfMemory> {
        push_tokens(alloc, text, self, naming.terminals)
    }
}

// Appends an array of the tokens of a set, by ascending bit.
fn push_tokens(
    alloc: Global,
    text: &mut String,
    set: &TokenSet,
    terminals: &TerminalSet,
) -> Result<(), OutOfMemory>
    ensures { OnOk result
        (string_bytes text.new ≡ string_bytes text.old ++ tokens_json terminals.now set.now) }
{
    text.push_str("[")?;
    let mut separator = "";
    for token in set.iter(terminals) {
        push_token(alloc, text, separator, token)?;
        separator = ",";
    }
    text.push_str("]")?;
    Ok(())
}

// Appends a token after a separator.
fn push_token(
    alloc: Global,
    text: &mut String,
    separator: &str,
    token: TokenRef<'_>,
) -> Result<(), OutOfMemory>
    ensures { OnOk result (string_bytes text.new ≡
        string_bytes text.old ++ after_separator separator.now token_json (seen token.entry)) }
{
    text.push_str(separator)?;
    match token {
        TokenRef::Eof => text.push_str("null")?,
        TokenRef::Error => text.push_str("false")?,
        TokenRef::Terminal(terminal) => push_terminal(alloc, text, terminal)?,
    }
    Ok(())
}
