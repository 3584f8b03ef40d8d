//! A grammar that a caller gives production by production.
ghost use Rattle.std.specs.Prelude.{◌≡◌, ◌≤◌, ◌^◌, ◌++◌, ◌∷◌, [], List, ℕ, Some, map, length, codes, false, true, position, None, IfOk, OnOk, OnErr, IfErr, MatchOption};
ghost use Rattle.lalrpop_base.specs.Words.{IsWellFormed};
ghost use Rattle.grammar_text.specs.declared.lines.Line.TheVariants.{Production};
ghost use Rattle.grammar_text.specs.Symbols.{is_name, name_of, symbols_of};
ghost use Rattle.grammar_text.specs.Lines.{line_of_words, is_fault_line};
ghost use Rattle.grammar_text.specs.Grammar.{StandsFor, productions_in};
ghost use Rattle.grammar_text.specs.Builder.{unplaced, IsAtWord, IsRefused, IsRefusedOf, IsTooLarge, is_no_name, symbol_by, text_of};

use crate::builder_error::BuilderError;
use crate::collected::Collected;
use crate::grammar::grammar_of;
use crate::lines::{Line, PlacedLine};
use crate::read_error::ReadError;
use crate::symbols::{is_a_name, name_of, symbol_of};
use lalrpop_base::memory::OutOfMemory;
use lalrpop_base::repr::grammar::Grammar;
use lalrpop_base::repr::{Span, Symbol, Symbols, TerminalString};
use lalrpop_base::sequence::Sequence;
use lalrpop_base::text::Text;
use std::alloc::Global;
use std::marker::Model;

/// A symbol of a right side, by its kind and its text. A literal has no quotes around its text, which
/// may be any.
#[derive(Clone, Copy, Debug, PartialEq, Eq)]
pub enum SymbolText<'text> {
    Nonterminal(&'text str),
    Literal(&'text str),
}

/// Productions and marks of a grammar that is being made. They are in no text, so the spans of the
/// grammar are `Span(0, 0)`.
#[derive(Drop)]
pub struct GrammarBuilder {
    lines: Vec<PlacedLine>,
}

impl Model for GrammarBuilder {
    ghost use Rattle.std.specs.Prelude.{List};
    ghost use Rattle.grammar_text.specs.declared.lines.PlacedLine.{PlacedLine};

    ghost Value = { List PlacedLine };

    ghost view = { λ b. b.lines.items };
}

impl GrammarBuilder {
    /// A builder without productions.
    pub fn new(alloc: Global) -> GrammarBuilder
        ensures { result ≡ [] }
    {
        GrammarBuilder {
            lines: Vec::new(alloc),
        }
    }

    /// Adds a production, as a line of a grammar text with the name, `=` and the words does. A word
    /// is a name, or a literal between double quotes, which may have blanks here. If the call fails,
    /// the builder is as it was.
    pub fn production(&mut self, name: &str, words: &[&str]) -> Result<(), BuilderError>
        ensures ok { OnOk result (self.new ≡ self.old ++ unplaced
            (line_of_words (name.now ∷ codes "=" ∷ map (λ w. w.now) words.now)) ∷ []) }
        ensures right { OnOk result (is_fault_line
            (line_of_words (name.now ∷ codes "=" ∷ map (λ w. w.now) words.now)) ≡ false) }
        ensures err { IfErr result (IsRefused name.now (map (λ w. w.now) words.now)) }
        ensures same { OnErr result (self.new ≡ self.old) }
    {
        let alloc = *self.lines.allocator();
        let line = production_line(alloc, name, words)?;
        self.push(line)
    }

    /// Adds a production whose symbols are given by kind and text, so that literals need no quotes:
    /// `builder.add_production("Sum", &[Nonterminal("Sum"), Literal("+"), Literal("n")])?`. If the
    /// call fails, the builder is as it was.
    pub fn add_production(
        &mut self,
        name: &str,
        symbols: &[SymbolText<'_>],
    ) -> Result<(), BuilderError>
        ensures ok { OnOk result (self.new ≡ self.old ++ unplaced
            (Production (name_of name.now) (map symbol_by symbols.now)) ∷ []) }
        ensures names { OnOk result (is_name name.now ≡ true) }
        ensures right { OnOk result (position is_no_name symbols.now ≡ None) }
        ensures err { IfErr result (IsRefusedOf name.now symbols.now) }
        ensures same { OnErr result (self.new ≡ self.old) }
    {
        let alloc = *self.lines.allocator();
        if !is_a_name(name) {
            return Err(BuilderError::Name(Text::new(alloc, name)?));
        }
        let right = symbols_by(alloc, name, symbols)?;
        self.push(Line::Production(name_of(alloc, name)?, right))
    }

    /// Marks a nonterminal that is to be inlined, as a line of a grammar text with `inline` and the
    /// name does. If the call fails, the builder is as it was.
    pub fn inline(&mut self, name: &str) -> Result<(), BuilderError>
        ensures ok { OnOk result (self.new ≡ self.old ++ unplaced
            (line_of_words (codes "inline" ∷ name.now ∷ [])) ∷ []) }
        ensures right { OnOk result
            (is_fault_line (line_of_words (codes "inline" ∷ name.now ∷ [])) ≡ false) }
        ensures err { IfErr result (IsRefused name.now []) }
        ensures same { OnErr result (self.new ≡ self.old) }
    {
        let alloc = *self.lines.allocator();
        let line = inline_line(alloc, name)?;
        self.push(line)
    }

    // Adds a line with the empty span at offset 0.
    fn push(&mut self, line: Line) -> Result<(), BuilderError>
        ensures ok { OnOk result (self.new ≡ self.old ++ unplaced line ∷ []) }
        ensures err { IfErr result (λ e. e ≡ BuilderError.Memory) }
        ensures same { OnErr result (self.new ≡ self.old) }
    {
        let span = Span(0, 0);
        self.lines.push(PlacedLine { line, span })?;
        Ok(())
    }

    /// The grammar of the productions and marks. Production n has action n, counted from 0.
    pub fn finish(self) -> Result<Grammar, BuilderError>
        ensures ok { IfOk result (StandsFor self) }
        ensures well_formed { IfOk result IsWellFormed }
        ensures not_collapsed { IfOk result (λ grammar. grammar.algorithm.lalr ≡ false) }
        ensures few { OnOk result (length (productions_in self) ≤ 2 ^ 32) }
        ensures err { IfErr result (IsTooLarge self) }
    {
        let alloc = *self.lines.allocator();
        match Collected::of_lines(alloc, self.lines) {
            Ok(collected) => Ok(grammar_of(alloc, collected)?),
            Err(ReadError::TooManyActions) => Err(BuilderError::TooManyActions),
            Err(_) => Err(BuilderError::Memory),
        }
    }
}

// The line of a production.
fn production_line(alloc: Global, name: &str, words: &[&str]) -> Result<Line, BuilderError>
    ensures ok { IfOk result (λ line. line
        ≡ line_of_words (name.now ∷ codes "=" ∷ map (λ w. w.now) words.now)) }
    ensures right { IfOk result (λ line. is_fault_line line ≡ false) }
    ensures err { IfErr result (IsRefused name.now (map (λ w. w.now) words.now)) }
{
    if !is_a_name(name) {
        return Err(BuilderError::Name(Text::new(alloc, name)?));
    }
    let symbols = symbols_in(alloc, name, words)?;
    Ok(Line::Production(name_of(alloc, name)?, symbols))
}

// The line that marks a nonterminal.
fn inline_line(alloc: Global, name: &str) -> Result<Line, BuilderError>
    ensures ok { IfOk result
        (λ line. line ≡ line_of_words (codes "inline" ∷ name.now ∷ [])) }
    ensures right { IfOk result (λ line. is_fault_line line ≡ false) }
    ensures err { IfErr result (IsRefused name.now []) }
{
    if !is_a_name(name) {
        return Err(BuilderError::Name(Text::new(alloc, name)?));
    }
    Ok(Line::Inline(name_of(alloc, name)?))
}

// The symbols of words, or the first word that is no symbol.
fn symbols_in(alloc: Global, name: &str, words: &[&str]) -> Result<Symbols, BuilderError>
    ensures ok { IfOk result
        (λ symbols. symbols_of (map (λ w. w.now) words.now) ≡ Some symbols) }
    ensures err { is_name name.now ≡ true →
        IfErr result (IsRefused name.now (map (λ w. w.now) words.now)) }
{
    let mut symbols = Sequence::new(alloc);
    for (place, word) in words.iter().enumerate() {
        match symbol_of(alloc, word)? {
            None => return Err(no_symbol(alloc, name, place + 1, word)?),
            Some(symbol) => symbols.push(symbol)?,
        }
    }
    Ok(symbols)
}

// The symbols that are given by kind and text, or the first nonterminal whose text is not a name.
fn symbols_by(alloc: Global, name: &str, texts: &[SymbolText<'_>]) -> Result<Symbols, BuilderError>
    ensures ok { IfOk result (λ symbols. symbols ≡ map symbol_by texts.now) }
    ensures right { OnOk result (position is_no_name texts.now ≡ None) }
    ensures err { is_name name.now ≡ true → IfErr result (IsRefusedOf name.now texts.now) }
{
    let mut symbols = Sequence::new(alloc);
    for (place, text) in texts.iter().enumerate() {
        match symbol_by(alloc, *text)? {
            None => return Err(no_symbol(alloc, name, place + 1, text_of(*text))?),
            Some(symbol) => symbols.push(symbol)?,
        }
    }
    Ok(symbols)
}

// The symbol that is given by kind and text.
fn symbol_by(alloc: Global, text: SymbolText<'_>) -> Result<Option<Symbol>, BuilderError>
    ensures ok { IfOk result (λ symbol. MatchOption symbol (is_no_name text.entry ≡ true)
        (λ symbol. (symbol ≡ symbol_by text.entry) × (is_no_name text.entry ≡ false))) }
    ensures err { IfErr result (λ e. e ≡ BuilderError.Memory) }
{
    match text {
        SymbolText::Nonterminal(name) => {
            if !is_a_name(name) {
                return Ok(None);
            }
            Ok(Some(Symbol::Nonterminal(name_of(alloc, name)?)))
        }
        SymbolText::Literal(text) => {
            let literal = TerminalString::Literal(Text::new(alloc, text)?);
            Ok(Some(Symbol::Terminal(literal)))
        }
    }
}

// The text of a symbol.
fn text_of<'text>(text: SymbolText<'text>) -> &'text str
    ensures { result.now ≡ text_of text.entry }
{
    match text {
        SymbolText::Nonterminal(text) => text,
        SymbolText::Literal(text) => text,
    }
}

// The error at a word of a production that is no symbol. `number` is counted from 1.
fn no_symbol(
    alloc: Global,
    name: &str,
    number: usize,
    word: &str,
) -> Result<BuilderError, OutOfMemory>
    ensures { IfOk result (IsAtWord name.now number word.now) }
{
    Ok(BuilderError::Word {
        nonterminal: name_of(alloc, name)?,
        number,
        word: Text::new(alloc, word)?,
    })
}
