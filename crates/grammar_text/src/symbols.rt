//! Names, literals and symbols of a grammar text.
ghost use Rattle.std.specs.Prelude.{◌≡◌, ◌==◌, ◌<◌, IfOk, Some, None, MatchOption, map, option_map};
ghost use Rattle.std.specs.List.{slice_split, list_all};
ghost use Rattle.lalrpop_grammar.specs.declared.repr.TerminalString.TheVariants.{Literal};
ghost use Rattle.grammar_text.specs.Symbols.{starts_name, continues_name, is_name, name_of, up_to_quote, quoted, symbol_of, symbols_of};

use lalrpop_base::memory::OutOfMemory;
use lalrpop_base::repr::{NonterminalString, Symbol, Symbols, TerminalString};
use lalrpop_base::sequence::Sequence;
use lalrpop_base::text::Text;
use std::alloc::Global;

/// The pieces of a text between the occurrences of an ASCII character. If the character occurs n
/// times, there are n + 1 pieces.
pub fn pieces<'a>(alloc: Global, text: &'a str, by: char) -> Result<Vec<&'a str>, OutOfMemory>
    requires { by < 128 }
    ensures { IfOk result
        (λ all. map (λ p. p.now) all.items ≡ slice_split (λ b. b == by) text.now) }
{
    let mut all = Vec::new(alloc);
    let mut rest = text;
    while let Some((piece, more)) = rest.split_once(by) {
        all.push(piece)?;
        rest = more;
    }
    all.push(rest)?;
    Ok(all)
}

// Whether a byte may begin a name.
fn starts_a_name(b: u8) -> bool
    ensures { result ≡ starts_name b }
{
    b.is_ascii_alphabetic() || b == b'_'
}

// Whether a byte may come in a name after its first byte.
fn continues_a_name(b: u8) -> bool
    ensures { result ≡ continues_name b }
{
    starts_a_name(b) || b.is_ascii_digit()
}

/// Whether a word is a name: an ASCII letter or `_`, and then ASCII letters, digits or `_`.
pub fn is_a_name(word: &str) -> bool
    ensures { result ≡ is_name word.now }
{
    match word.as_bytes().split_first() {
        None => false,
        Some((first, others)) => starts_a_name(*first) && all_continue(others),
    }
}

// Whether each byte may come in a name after its first byte.
fn all_continue(bytes: &[u8]) -> bool
    ensures { result ≡ list_all continues_name bytes.now }
{
    bytes.iter().all(|b| continues_a_name(*b))
}

/// The text between the quotes, if the word is a literal, and else `None`.
pub fn unquoted(word: &str) -> Option<&str>
    ensures { MatchOption result (quoted word.now ≡ None)
        (λ text. quoted word.now ≡ Some text.now) }
{
    match word.strip_prefix('"') {
        None => None,
        Some(body) => before_last_quote(body),
    }
}

// The text before the first quote, if the text is not empty and nothing comes after the quote.
fn before_last_quote(body: &str) -> Option<&str>
    ensures { MatchOption result (up_to_quote body.now ≡ None)
        (λ text. up_to_quote body.now ≡ Some text.now) }
{
    let (text, after) = body.split_once('"')?;
    if text.is_empty() || !after.is_empty() {
        return None;
    }
    Some(text)
}

/// The nonterminal that a word names.
pub fn name_of(alloc: Global, word: &str) -> Result<NonterminalString, OutOfMemory>
    ensures { IfOk result (λ name. name ≡ name_of word.now) }
{
    Ok(NonterminalString {
        text: Text::new(alloc, word)?,
    })
}

/// The symbol of a word: a nonterminal or a literal. `None` if the word is neither.
pub fn symbol_of(alloc: Global, word: &str) -> Result<Option<Symbol>, OutOfMemory>
    ensures { IfOk result (λ symbol. symbol ≡ symbol_of word.now) }
{
    if is_a_name(word) {
        return Ok(Some(Symbol::Nonterminal(name_of(alloc, word)?)));
    }
    match unquoted(word) {
        None => Ok(None),
        Some(text) => {
            let literal = TerminalString::Literal(Text::new(alloc, text)?);
            Ok(Some(Symbol::Terminal(literal)))
        }
    }
}

/// The symbols of words. `None` if a word is neither a name nor a literal.
pub fn symbols_of(alloc: Global, words: &[&str]) -> Result<Option<Symbols>, OutOfMemory>
    ensures { IfOk result (λ symbols. symbols ≡ symbols_of (map (λ w. w.now) words.now)) }
{
    let mut symbols = Sequence::new(alloc);
    for word in words {
        match symbol_of(alloc, word)? {
            None => return Ok(None),
            Some(symbol) => symbols.push(symbol)?,
        }
    }
    Ok(Some(symbols))
}

/// The literals with these texts, which are given without quotes. They are tokens for a parser.
pub fn literals(alloc: Global, texts: &[&str]) -> Result<Vec<TerminalString>, OutOfMemory>
    ensures { IfOk result (λ all. all.items ≡ map (λ t. Literal t.now) texts.now) }
{
    let mut all = Vec::new(alloc);
    for text in texts {
        all.push(TerminalString::Literal(Text::new(alloc, text)?))?;
    }
    Ok(all)
}
