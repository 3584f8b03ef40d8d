//! The construction of states with words as lookaheads. A word has only tokens whose bits are below
//! 64.
ghost use Rattle.std.specs.Prelude.{◌≡◌, ◌^◌, ◌<◌, ◌≤◌, bit_or, length, IfOk, IfSome, MatchBool, slice_get, None, Some};
ghost use Rattle.lalrpop_base.specs.Words.{has, IsNullable, FitsTokens};
ghost use Rattle.lalrpop_construction_tests.specs.WordMoves.{BeginsLow, IsWordOf};
ghost use Rattle.lalrpop_construction_tests.specs.Words.{bits_of_word};

use super::Word;
use lalrpop_base::lookahead::token::Token;
use lalrpop_base::lookahead::token_set::TokenSet;
use lalrpop_base::lr1_core::item::Item;
use lalrpop_base::memory::OutOfMemory;
use lalrpop_base::repr::terminals::TerminalSet;
use lalrpop_base::repr::{NonterminalString, Symbol, TerminalString};
use lalrpop_construction::construction::lookahead_build::LookaheadBuild;
use lalrpop_construction::construction::lr::Lr;
use std::alloc::Global;

// The word with the bit of the terminal added, if the set has the terminal.
fn with_terminal(
    alloc: Global,
    word: Word,
    set: &TokenSet,
    terminals: &TerminalSet,
    terminal: &TerminalString,
    bit: usize,
) -> Result<Word, OutOfMemory>
    requires place { slice_get terminals.now bit ≡ Some terminal.now }
    requires low { bit < 64 }
    ensures { IfOk result
        (λ new. MatchBool (has set.now bit) (new.bits ≡ bit_or word.bits (2 ^ bit)) (new ≡ word)) }
{
    let _all = terminals.all();
    let token = Token::Terminal(terminal.clone(alloc)?);
    if !set.contains(&token, terminals) {
        return Ok(word);
    }
    let one = Word::single(bit);
    Ok(Word {
        bits: word.bits | one.bits,
    })
}

// The word of the terminals of a set whose bits are below 64.
fn word_of(alloc: Global, set: &TokenSet, terminals: &TerminalSet) -> Result<Word, OutOfMemory>
    ensures { IfOk result (IsWordOf set.now (length terminals.now)) }
{
    let mut word = Word { bits: 0 };
    for (bit, terminal) in terminals.all().iter().enumerate() {
        if bit >= 64 {
            return Ok(word);
        }
        word = with_terminal(alloc, word, set, terminals, terminal, bit)?;
    }
    Ok(word)
}

// The word of symbols, joined with the lookahead after the symbols if these are nullable.
fn followed(word: Word, nullable: bool, lookahead: Word) -> Word
    ensures { MatchBool nullable (result.bits ≡ bit_or word.bits lookahead.bits) (result ≡ word) }
{
    if !nullable {
        return word;
    }
    Word {
        bits: word.bits | lookahead.bits,
    }
}

impl LookaheadBuild for Word {
    ghost begins = { BeginsLow };

    ghost passes = { λ g rest. IsNullable g.productions rest };

    fn epsilon_moves<'grammar>(
        alloc: Global,
        lr: &Lr<'grammar, Word>,
        nonterminal: &NonterminalString,
        remainder: &[Symbol],
        lookahead: &Word,
    ) -> Result<Vec<Item<'grammar, Word>>, OutOfMemory> {
        let grammar = lr.grammar();
        let _all = grammar.terminals.all();
        let first = lr.first_sets().first0(alloc, remainder)?;
        let word = word_of(alloc, &first, &grammar.terminals)?;
        let nullable = first.contains_eof(&grammar.terminals);
        let given = followed(word, nullable, *lookahead);
        lr.items_at_start(alloc, nonterminal, &given)
    }
}

impl Word {
    /// The set of `Eof`. `None` if the bit of `Eof` is 64 or more.
    pub fn eof(terminals: &TerminalSet) -> Option<Word>
        ensures fits { IfSome result (λ word. FitsTokens terminals.now (bits_of_word word.bits)) }
        ensures end { IfSome result (λ word. word.bits ≡ 2 ^ length terminals.now) }
        ensures past { result ≡ None → 64 ≤ length terminals.now }
    {
        let bit = terminals.all().len();
        if bit >= 64 {
            return None;
        }
        Some(Word::single(bit))
    }
}
