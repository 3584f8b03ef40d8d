//! Calls on sets of tokens that take or return tokens. The terminals of the grammar give each token
//! its bit.
ghost use Rattle.std.specs.Prelude.{◌≡◌, ◌≢◌, ◌+◌, ◌^◌, ◌<◌, ◌≤◌, ◌↔◌, ℕ, List, length, map, IsTrue, IfOk, OnOk, OnErr, not, MatchBool, IfSome, IsSome, Some, nat_le, IsFalse, ◌==◌, ◌&&◌};
ghost use Rattle.lalrpop_collections.specs.lists.Bits.{Bits, no_bits, has, rising, with_bit, join};
ghost use Rattle.lalrpop_grammar.specs.grammars.Tokens.{IsBitOf, HasToken, IsKnown, FitsTokens, token_of};

use super::token::{Token, TokenRef, TokenSetIter};
use super::token_set::TokenSet;
use crate::repr::terminals::TerminalSet;
use lalrpop_collections::memory::OutOfMemory;
use std::alloc::Global;

// The bit of a token, if it has one. The bits below the count n of terminals are those of the
// terminals, in their order. `Eof` has bit n, and `Error` has bit n + 1.
fn bit_of(token: &Token, terminals: &TerminalSet) -> Option<usize>
    ensures found { IfSome result (IsBitOf terminals.now token.now) }
    ensures only { (bit : ℕ) → IsBitOf terminals.now token.now bit → result ≡ Some bit }
    ensures known { IsKnown terminals.now token.now → IsSome result }
    ensures small { IfSome result (λ bit. bit < 2 ^ 63) }
{
    let count = terminals.all().len();
    match token {
        Token::Eof => Some(count),
        Token::Error => Some(count + 1),
        Token::Terminal(terminal) => terminals.bit(terminal),
    }
}

impl TokenSet {
    /// A set without tokens.
    pub fn new(alloc: Global, _terminals: &TerminalSet) -> TokenSet
        ensures { result ≡ no_bits }
    {
        TokenSet::empty_set(alloc)
    }

    /// The set of all terminals and `Eof`.
    pub fn all(alloc: Global, terminals: &TerminalSet) -> Result<TokenSet, OutOfMemory>
        ensures { IfOk result (λ set. (bit : ℕ) → has set bit ≡ nat_le bit (length terminals.now)) }
    {
        TokenSet::below(alloc, terminals.all().len() + 1)
    }

    /// Adds a token, and returns whether the set grew.
    pub fn insert(&mut self, token: Token, terminals: &TerminalSet) -> Result<bool, OutOfMemory>
        requires { IsKnown terminals.now token }
        ensures inserted { OnOk result
            ((bit : ℕ) → IsBitOf terminals.now token bit → self.new ≡ with_bit self.old bit) }
        ensures told { IfOk result
            (λ grew. MatchBool grew (self.new ≢ self.old) (self.new ≡ self.old)) }
        ensures err { OnErr result (self.new ≡ self.old) }
    {
        let bit = bit_of(&token, terminals).unwrap();
        self.insert_bit(bit)
    }

    /// Whether a token is in the set. An unknown terminal is in no set.
    pub fn contains(&self, token: &Token, terminals: &TerminalSet) -> bool
        ensures { IsTrue result ↔ HasToken terminals.now self.now token.now }
    {
        match bit_of(token, terminals) {
            Some(bit) => self.contains_bit(bit),
            None => false,
        }
    }

    /// Whether each bit of the set is the bit of a token.
    pub fn fits(&self, terminals: &TerminalSet) -> bool
        ensures { IsTrue result ↔ FitsTokens terminals.now self.now }
    {
        !self.has_greater_bit(terminals.all().len() + 1)
    }

    /// An iterator over the tokens of the set, in ascending order of their bits.
    pub fn iter<'a>(&'a self, terminals: &'a TerminalSet) -> TokenSetIter<'a>
        ensures { map (token_of result.terminals.now) result.bits ≡ map (token_of terminals.now)
            (rising self.now) }
    {
        TokenSetIter {
            bits: self.bits(),
            terminals: terminals.all(),
        }
    }

    /// The number of tokens.
    pub fn len(&self) -> usize
        ensures { result ≡ length (rising self.now) }
    {
        self.bits().count()
    }
}

impl TokenSet {
    /// The set of one token.
    pub fn of(alloc: Global, token: Token, terminals: &TerminalSet) -> Result<TokenSet, OutOfMemory>
        requires { IsKnown terminals.now token }
        ensures { IfOk result
            (λ set. (bit : ℕ) → IsBitOf terminals.now token bit → set ≡ with_bit no_bits bit) }
    {
        let mut set = TokenSet::new(alloc, terminals);
        set.insert(token, terminals)?;
        Ok(set)
    }

    /// Whether `Eof` is in the set.
    pub fn contains_eof(&self, terminals: &TerminalSet) -> bool
        ensures { result ≡ has self.now (length terminals.now) }
    {
        self.contains_bit(terminals.all().len())
    }

    /// Removes `Eof`, and returns whether it was in the set.
    pub fn take_eof(&mut self, terminals: &TerminalSet) -> bool
        ensures was { result ≡ has self.old (length terminals.now) }
        ensures left { (bit : ℕ) →
            has self.new bit ≡ (has self.old bit && not (bit == length terminals.now)) }
    {
        self.take_bit(terminals.all().len())
    }

    /// The set of `Eof` alone.
    pub fn eof(alloc: Global, terminals: &TerminalSet) -> Result<TokenSet, OutOfMemory>
        ensures { IfOk result (λ set. set ≡ with_bit no_bits (length terminals.now)) }
    {
        TokenSet::of(alloc, Token::Eof, terminals)
    }

    /// Adds `Eof`, and returns whether the set grew.
    pub fn insert_eof(&mut self, terminals: &TerminalSet) -> Result<bool, OutOfMemory>
        ensures inserted { OnOk result (self.new ≡ with_bit self.old (length terminals.now)) }
        ensures told { IfOk result
            (λ grew. MatchBool grew (self.new ≢ self.old) (self.new ≡ self.old)) }
        ensures err { OnErr result (self.new ≡ self.old) }
    {
        self.insert_bit(terminals.all().len())
    }

    /// Does the same as `insert`.
    pub fn insert_with(
        &mut self,
        token: Token,
        terminals: &TerminalSet,
    ) -> Result<bool, OutOfMemory>
        requires { IsKnown terminals.now token }
        ensures inserted { OnOk result
            ((bit : ℕ) → IsBitOf terminals.now token bit → self.new ≡ with_bit self.old bit) }
        ensures told { IfOk result
            (λ grew. MatchBool grew (self.new ≢ self.old) (self.new ≡ self.old)) }
        ensures err { OnErr result (self.new ≡ self.old) }
    {
        self.insert(token, terminals)
    }
}
