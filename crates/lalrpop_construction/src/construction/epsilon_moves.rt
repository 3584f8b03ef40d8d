//! The lookaheads of constructions. `Nil` gives no tokens to the nonterminal after a dot. Sets of
//! tokens give FIRST of the symbols after it, and their own tokens if those symbols are nullable.
ghost use Rattle.lalrpop_base.specs.Words.{IsNullable, Begins};

use super::lookahead_build::LookaheadBuild;
use super::lr::Lr;
use lalrpop_base::collections::sparse_map::SparseMap;
use lalrpop_base::lookahead::nil::Nil;
use lalrpop_base::lookahead::token_set::TokenSet;
use lalrpop_base::lr1_core::item::Item;
use lalrpop_base::memory::OutOfMemory;
use lalrpop_base::numbers::suffixes::Suffix;
use lalrpop_base::repr::{NonterminalString, Symbol};
use std::alloc::Global;

impl LookaheadBuild for Nil {
    ghost begins = { λ _ _ _. ⊥ };

    ghost passes = { λ _ _. ⊥ };

    fn epsilon_moves<'grammar>(
        alloc: Global,
        lr: &Lr<'grammar, Nil>,
        nonterminal: &NonterminalString,
        _remainder: &[Symbol],
        lookahead: &Nil,
    ) -> Result<Vec<Item<'grammar, Nil>>, OutOfMemory> {
        lr.items_at_start(alloc, nonterminal, lookahead)
    }

    fn give<'grammar>(
        _alloc: Global,
        _lr: &Lr<'grammar, Nil>,
        _nonterminal: &NonterminalString,
        _remainder: &[Symbol],
        _suffix: &Suffix,
        _lookahead: &Nil,
        number: usize,
        shared: &mut SparseMap<Nil>,
    ) -> Result<bool, OutOfMemory> {
        shared.join(number, Nil)
    }
}

impl LookaheadBuild for TokenSet {
    ghost begins = { Begins };

    ghost passes = { λ g suffix. IsNullable g.productions suffix };

    fn epsilon_moves<'grammar>(
        alloc: Global,
        lr: &Lr<'grammar, TokenSet>,
        nonterminal: &NonterminalString,
        remainder: &[Symbol],
        lookahead: &TokenSet,
    ) -> Result<Vec<Item<'grammar, TokenSet>>, OutOfMemory> {
        let _grammar = lr.grammar();
        let given = lr.first_sets().first1(alloc, remainder, lookahead)?;
        lr.items_at_start(alloc, nonterminal, &given)
    }

    fn give<'grammar>(
        alloc: Global,
        lr: &Lr<'grammar, TokenSet>,
        _nonterminal: &NonterminalString,
        _remainder: &[Symbol],
        suffix: &Suffix,
        lookahead: &TokenSet,
        number: usize,
        shared: &mut SparseMap<TokenSet>,
    ) -> Result<bool, OutOfMemory> {
        let _grammar = lr.grammar();
        if !suffix.nullable {
            return shared.join_copy(alloc, number, &suffix.first);
        }
        let passed = shared.join_copy(alloc, number, lookahead)?;
        let generated = shared.join_copy(alloc, number, &suffix.first)?;
        Ok(passed | generated)
    }
}
