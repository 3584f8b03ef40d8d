//! Tokens.
ghost use Rattle.std.specs.Prelude.{◌≡◌, ℕ, List, length, IsTrue, IfOk, map, Some};
ghost use Rattle.lalrpop_grammar.specs.grammars.Tokens.{IsTerminal, seen, token_of};
ghost use Rattle.lalrpop_grammar.specs.grammars.Names.{token_text};
ghost use Rattle.std.specs.Iterator.{YieldsFirstBy, item_count};

use crate::repr::TerminalString;
use lalrpop_collections::bit_vector::bit_iter::BitIter;
use lalrpop_collections::memory::OutOfMemory;
use std::alloc::Global;
use std::fmt;

/// A terminal, the end of the input (`Eof`), or an error.
#[derive(Drop, PartialEq, Eq, PartialOrd, Ord, Hash)]
pub enum Token {
    Eof,
    Error,
    Terminal(TerminalString),
}

impl Token {
    /// The end of the input, by its old name.
    #[deprecated(since = "0.20.0", note = "use `Eof` instead")]
    pub const EOF: Token = Token::Eof;

    /// The terminal of a token, which must be a terminal.
    pub fn unwrap_terminal(&self) -> &TerminalString
        requires { IsTerminal self.now }
        ensures { self.now ≡ Token.Terminal result.now }
    {
        match self {
            Token::Terminal(terminal) => terminal,
            Token::Eof => unreachable!(),
            Token::Error => unreachable!(),
        }
    }

    /// A copy of the token.
    pub fn clone(&self, alloc: Global) -> Result<Token, OutOfMemory>
        ensures { IfOk result (λ copy. copy ≡ self.now) }
    {
        match self {
            Token::Eof => Ok(Token::Eof),
            Token::Error => Ok(Token::Error),
            Token::Terminal(terminal) => Ok(Token::Terminal(terminal.clone(alloc)?)),
        }
    }
}

impl fmt::Display for Token {
    ghost output = { λ x. Some (token_text x) };

    ghost styled_output = { λ x _. Some (token_text x) };

    fn fmt<W: fmt::Write>(&self, f: &mut fmt::Formatter<W>) -> fmt::Result {
        match self {
            Token::Eof => f.write_str("Eof"),
            Token::Error => f.write_str("Error"),
            Token::Terminal(terminal) => fmt::Display::fmt(terminal, f),
        }
    }
}

impl fmt::Debug for Token {
    ghost debug_output = { λ x. Some (token_text x) };

    fn fmt<W: fmt::Write>(&self, f: &mut fmt::Formatter<W>) -> fmt::Result {
        fmt::Display::fmt(self, f)
    }
}

/// A token whose terminal is borrowed.
#[derive(Clone, Copy, Debug, PartialEq, Eq, PartialOrd, Ord, Hash)]
pub enum TokenRef<'terminals> {
    Eof,
    Error,
    Terminal(&'terminals TerminalString),
}

impl fmt::Display for TokenRef<'_> {
    ghost output = { λ x. Some (token_text (seen x)) };

    ghost styled_output = { λ x _. Some (token_text (seen x)) };

    fn fmt<W: fmt::Write>(&self, f: &mut fmt::Formatter<W>) -> fmt::Result {
        match self {
            TokenRef::Eof => f.write_str("Eof"),
            TokenRef::Error => f.write_str("Error"),
            TokenRef::Terminal(terminal) => fmt::Display::fmt(*terminal, f),
        }
    }
}

/// The tokens of a set, by rising bit.
#[derive(Drop)]
pub struct TokenSetIter<'terminals> {
    pub(crate) bits: BitIter<'terminals>,
    pub(crate) terminals: &'terminals [TerminalString],
}

impl<'terminals> Iterator for TokenSetIter<'terminals> {
    type Item = TokenRef<'terminals>;

    ghost next_gives = { YieldsFirstBy seen (λ s. map (token_of s.terminals.now) s.bits) };

    ghost remaining = { item_count (λ s. map (token_of s.terminals.now) s.bits) };

    fn next(&mut self) -> Option<TokenRef<'terminals>> {
        let bit = self.bits.next()?;
        if bit < self.terminals.len() {
            return Some(TokenRef::Terminal(&self.terminals[bit]));
        }
        if bit == self.terminals.len() {
            return Some(TokenRef::Eof);
        }
        Some(TokenRef::Error)
    }
}
