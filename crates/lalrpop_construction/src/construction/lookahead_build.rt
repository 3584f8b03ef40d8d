//! The lookaheads that a closure gives to the items that it adds.
ghost use Rattle.std.specs.Prelude.{IfOk, List};
ghost use Rattle.lalrpop_base.specs.Words.{HasKnownTerminals, Rules, IsSuffix, readings};
ghost use Rattle.lalrpop_construction.specs.closures.EpsilonMoves.{AreEpsilonMoves};
ghost use Rattle.lalrpop_grammar.specs.declared.lookahead.token.Token.{Token};
ghost use Rattle.lalrpop_grammar.specs.declared.repr.Symbol.{Symbol};
ghost use Rattle.lalrpop_construction.specs.closures.EpsilonMoves.{IsGivenAt};

use super::lr::Lr;
use lalrpop_base::collections::sparse_map::SparseMap;
use lalrpop_base::lookahead::Lookahead;
use lalrpop_base::lr1_core::item::Item;
use lalrpop_base::memory::OutOfMemory;
use lalrpop_base::numbers::suffixes::Suffix;
use lalrpop_base::repr::{NonterminalString, Symbol};
use std::alloc::Global;

/// A lookahead with which states can be made.
pub trait LookaheadBuild: Lookahead {
    // Whether the symbols may begin with the token: for sets of tokens, whether FIRST has it.
    ghost begins: { Rules → List Symbol → Token → Type 0 };

    // Whether tokens after the symbols pass through them: for sets of tokens, whether the symbols
    // are nullable.
    ghost passes: { Rules → List Symbol → Type 0 };

    /// The productions of the nonterminal after the dot of an item, with the dot at the start and
    /// the tokens that may follow the nonterminal there. `remainder` has the symbols after the
    /// nonterminal in the item, and `lookahead` is that of the item. `OutOfMemory` if an allocation
    /// fails.
    fn epsilon_moves<'grammar>(
        alloc: Global,
        lr: &Lr<'grammar, Self>,
        nonterminal: &NonterminalString,
        remainder: &[Symbol],
        lookahead: &Self,
    ) -> Result<Vec<Item<'grammar, Self>>, OutOfMemory>
        requires known { HasKnownTerminals lr.now.construction.rules.terminals remainder.now }
        ensures moves { IfOk result (λ moves. AreEpsilonMoves Self.meaning begins passes
            lr.now.construction.rules nonterminal.now remainder.now lookahead.now moves.items) };

    /// Adds the tokens that `epsilon_moves` gives to the nonterminal to those of its number in
    /// `shared`. Returns whether the number is new or has more tokens than before; `OutOfMemory` if
    /// an allocation fails. A nonterminal without productions may get nothing.
    ///
    /// The default body calls `epsilon_moves`. A lookahead may replace it by one that uses
    /// `_suffix`: FIRST of the remainder, and whether the remainder is nullable.
    fn give<'grammar>(
        alloc: Global,
        lr: &Lr<'grammar, Self>,
        nonterminal: &NonterminalString,
        remainder: &[Symbol],
        _suffix: &Suffix,
        lookahead: &Self,
        number: usize,
        shared: &mut SparseMap<Self>,
    ) -> Result<bool, OutOfMemory>
        requires known { HasKnownTerminals lr.now.construction.rules.terminals remainder.now }
        requires suffix { IsSuffix lr.now.construction.rules remainder.now _suffix.now }
        ensures given { IfOk result (λ changed. IsGivenAt Self.meaning begins passes
            lr.now.construction.rules nonterminal.now remainder.now lookahead.now number changed
            (readings Self.meaning shared.old) (readings Self.meaning shared.new)) }
    {
        let mut moves = Self::epsilon_moves(alloc, lr, nonterminal, remainder, lookahead)?;
        match moves.pop() {
            Some(item) => shared.join(number, item.lookahead),
            None => Ok(false),
        }
    }
}
