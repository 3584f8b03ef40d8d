//! A normalised grammar: names, terminals, symbols and productions.
mod augmentation;
mod exact;
pub mod grammar;
pub mod inlined;
pub mod norm_error;
pub mod terminals;

ghost use Rattle.std.specs.Prelude.{◌≡◌, ◌<◌, ◌↔◌, IsTrue, IfOk, List, Some, length};
ghost use Rattle.std.specs.Coded.{coded_ℕ};
ghost use Rattle.std.specs.Fmt.{WritesOnOk};
ghost use Rattle.lalrpop_grammar.specs.grammars.Names.{nonterminal_text, production_text, terminal_text, symbol_text, symbols_text};

pub use self::augmentation::{augment, is_on_no_right_side};
pub use self::grammar::{
    ActionFnDefn, ActionFnDefnKind, Algorithm, Attribute, Grammar, NonterminalData, is_well_formed,
};
pub use self::inlined::{InlineActionFnDefn, InlinedSymbol};
pub use self::norm_error::{NormError, NormResult};
pub use self::terminals::{TerminalSet, TerminalSetError};
use lalrpop_collections::memory::OutOfMemory;
use lalrpop_collections::sequence::Sequence;
use lalrpop_collections::text::Text;
use std::alloc::{AllocError, Global};
use std::fmt;

/// The name of a nonterminal.
#[derive(Drop, PartialEq, Eq, PartialOrd, Ord, Hash)]
pub struct NonterminalString {
    pub text: Text,
}

impl NonterminalString {
    /// A copy, which shares the bytes of the text.
    pub fn clone(&self, alloc: Global) -> Result<Self, OutOfMemory>
        ensures { IfOk result (λ copy. copy ≡ self.now) }
    {
        Ok(NonterminalString {
            text: self.text.clone(alloc)?,
        })
    }

    /// The number of bytes in which the name is printed.
    pub fn display_len(&self) -> usize
        ensures { result ≡ length (nonterminal_text self.now) }
    {
        self.text.as_str().len()
    }
}

impl fmt::Display for NonterminalString {
    ghost output = { λ x. Some (nonterminal_text x) };

    ghost styled_output = { λ x _. Some (nonterminal_text x) };

    fn fmt<W: fmt::Write>(&self, f: &mut fmt::Formatter<W>) -> fmt::Result {
        f.write_str(self.text.as_str())
    }
}

impl fmt::Debug for NonterminalString {
    ghost debug_output = { λ x. Some (nonterminal_text x) };

    fn fmt<W: fmt::Write>(&self, f: &mut fmt::Formatter<W>) -> fmt::Result {
        fmt::Display::fmt(self, f)
    }
}

/// A terminal. Terminals are ordered by their kinds, and then by their texts.
#[derive(Drop, PartialEq, Eq, PartialOrd, Ord, Hash)]
pub enum TerminalString {
    Literal(Text),
    Bare(Text),
    Error,
}

impl TerminalString {
    /// A copy, which shares the bytes of the text.
    pub fn clone(&self, alloc: Global) -> Result<Self, OutOfMemory>
        ensures { IfOk result (λ copy. copy ≡ self.now) }
    {
        match self {
            TerminalString::Literal(text) => Ok(TerminalString::Literal(text.clone(alloc)?)),
            TerminalString::Bare(text) => Ok(TerminalString::Bare(text.clone(alloc)?)),
            TerminalString::Error => Ok(TerminalString::Error),
        }
    }

    /// The number of bytes in which the terminal is printed. A literal is printed in quotes.
    pub fn display_len(&self) -> usize
        ensures { result ≡ length (terminal_text self.now) }
    {
        match self {
            TerminalString::Literal(text) => text.as_str().len() + 2,
            TerminalString::Bare(text) => text.as_str().len(),
            TerminalString::Error => 5,
        }
    }
}

impl Clone for TerminalString {
    ghost is_clone = { λ terminal copy. copy ≡ terminal };

    fn clone(&self) -> Result<TerminalString, AllocError> {
        let alloc = match self {
            TerminalString::Literal(text) => text.allocator(),
            TerminalString::Bare(text) => text.allocator(),
            TerminalString::Error => return Ok(TerminalString::Error),
        };
        match self.clone(alloc) {
            Ok(copy) => Ok(copy),
            Err(OutOfMemory) => Err(AllocError),
        }
    }
}

impl fmt::Display for TerminalString {
    ghost output = { λ x. Some (terminal_text x) };

    ghost styled_output = { λ x _. Some (terminal_text x) };

    fn fmt<W: fmt::Write>(&self, f: &mut fmt::Formatter<W>) -> fmt::Result {
        match self {
            TerminalString::Literal(text) => {
                f.write_str("\"")?;
                f.write_str(text.as_str())?;
                f.write_str("\"")
            }
            TerminalString::Bare(text) => f.write_str(text.as_str()),
            TerminalString::Error => f.write_str("error"),
        }
    }
}

impl fmt::Debug for TerminalString {
    ghost debug_output = { λ x. Some (terminal_text x) };

    fn fmt<W: fmt::Write>(&self, f: &mut fmt::Formatter<W>) -> fmt::Result {
        fmt::Display::fmt(self, f)
    }
}

/// A symbol of a right side.
#[derive(Drop, PartialEq, Eq, PartialOrd, Ord, Hash)]
pub enum Symbol {
    Nonterminal(NonterminalString),
    Terminal(TerminalString),
}

impl Symbol {
    /// A copy, which shares the bytes of the text.
    pub fn clone(&self, alloc: Global) -> Result<Self, OutOfMemory>
        ensures { IfOk result (λ copy. copy ≡ self.now) }
    {
        match self {
            Symbol::Nonterminal(name) => Ok(Symbol::Nonterminal(name.clone(alloc)?)),
            Symbol::Terminal(terminal) => Ok(Symbol::Terminal(terminal.clone(alloc)?)),
        }
    }

    /// The number of bytes in which the symbol is printed.
    pub fn display_len(&self) -> usize
        ensures { result ≡ length (symbol_text self.now) }
    {
        match self {
            Symbol::Nonterminal(name) => name.display_len(),
            Symbol::Terminal(terminal) => terminal.display_len(),
        }
    }
}

impl fmt::Display for Symbol {
    ghost output = { λ x. Some (symbol_text x) };

    ghost styled_output = { λ x _. Some (symbol_text x) };

    fn fmt<W: fmt::Write>(&self, f: &mut fmt::Formatter<W>) -> fmt::Result {
        match self {
            Symbol::Nonterminal(name) => fmt::Display::fmt(name, f),
            Symbol::Terminal(terminal) => fmt::Display::fmt(terminal, f),
        }
    }
}

impl fmt::Debug for Symbol {
    ghost debug_output = { λ x. Some (symbol_text x) };

    fn fmt<W: fmt::Write>(&self, f: &mut fmt::Formatter<W>) -> fmt::Result {
        fmt::Display::fmt(self, f)
    }
}

/// The number of an action.
#[derive(Clone, Copy, Debug, PartialEq, Eq, PartialOrd, Ord, Hash)]
pub struct ActionFn(u32);

impl ActionFn {
    /// The action with a number.
    pub fn new(number: u32) -> Self
        ensures { result.0 ≡ number }
    {
        ActionFn(number)
    }

    /// The number of the action.
    pub fn index(&self) -> usize
        ensures { result ≡ self.now.0 }
    {
        self.0 as usize
    }
}

/// Where a production or an entry is in its file: the offsets in bytes of its start and its end.
#[derive(Clone, Copy, Debug, PartialEq, Eq, PartialOrd, Ord, Hash)]
pub struct Span(pub usize, pub usize);

/// The symbols of a right side, in order.
pub type Symbols = Sequence<Symbol>;

/// A copy of the symbols.
pub fn clone_symbols(alloc: Global, symbols: &[Symbol]) -> Result<Symbols, OutOfMemory>
    ensures { IfOk result (λ copy. copy ≡ symbols.now) }
{
    let mut copy = Sequence::new(alloc);
    for symbol in symbols {
        copy.push(symbol.clone(alloc)?)?;
    }
    Ok(copy)
}

/// A production: a nonterminal, one of its right sides, and the action and the span of the
/// production.
#[derive(Debug, Drop, PartialEq, Eq, PartialOrd, Ord, Hash)]
pub struct Production {
    pub nonterminal: NonterminalString,
    pub symbols: Symbols,
    pub action: ActionFn,
    pub span: Span,
}

impl Production {
    /// A copy of the production.
    pub fn clone(&self, alloc: Global) -> Result<Self, OutOfMemory>
        ensures { IfOk result (λ copy. copy ≡ self.now) }
    {
        Ok(Production {
            nonterminal: self.nonterminal.clone(alloc)?,
            symbols: clone_symbols(alloc, self.symbols.as_slice())?,
            action: self.action,
            span: self.span,
        })
    }
}

impl fmt::Display for Production {
    ghost output = { λ x. Some (production_text x) };

    fn fmt<W: fmt::Write>(&self, f: &mut fmt::Formatter<W>) -> fmt::Result {
        write!(f, "{} ->", self.nonterminal)?;
        show_symbols(self.symbols.as_slice(), f)
    }
}

// Writes symbols, each after a space.
fn show_symbols<W: fmt::Write>(symbols: &[Symbol], f: &mut fmt::Formatter<W>) -> fmt::Result
    ensures { WritesOnOk W.write_str_gives f.old result (symbols_text symbols.now) f.new }
{
    for symbol in symbols {
        write!(f, " {symbol}")?;
    }
    Ok(())
}
