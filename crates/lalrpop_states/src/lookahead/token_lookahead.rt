//! Sets of tokens are lookaheads.
ghost use Rattle.std.specs.Prelude.{◌≡◌};
ghost use Rattle.lalrpop_collections.specs.lists.Bits.{bits_exact};
ghost use Rattle.lalrpop_states.specs.conflicts.StateConflicts.{state_conflicts};

use super::Lookahead;
use crate::lr1_core::conflict;
use crate::lr1_core::state::{Conflict, State};
use lalrpop_collections::memory::OutOfMemory;
use lalrpop_grammar::lookahead::token_set::TokenSet;
use lalrpop_grammar::repr::terminals::TerminalSet;
use std::alloc::Global;
use std::fmt;

impl Lookahead for TokenSet {
    ghost meaning = { λ s. s };

    fn copy(&self, alloc: Global) -> Result<TokenSet, OutOfMemory> {
        self.clone(alloc)
    }

    fn join_with(&mut self, _alloc: Global, from: &TokenSet) -> Result<bool, OutOfMemory> {
        self.union_with(from)
    }

    fn fmt_as_item_suffix<W: fmt::Write>(&self, f: &mut fmt::Formatter<W>) -> fmt::Result {
        write!(f, " {self:?}")
    }

    ghost lists_conflicts = { λ s terminals list. list ≡ state_conflicts terminals s };

    fn conflicts<'grammar>(
        alloc: Global,
        state: &State<'grammar, TokenSet>,
        terminals: &TerminalSet,
    ) -> Result<Vec<Conflict<'grammar, TokenSet>>, OutOfMemory> {
        conflict::conflicts(alloc, state, terminals)
    }

    ghost equal_is_same = { bits_exact };

    ghost same_by_meaning = { λ a b e. e };

    ghost reads_all = { λ a b. (λ e. e, λ e. e) };

    ghost empty_is_empty = { λ s e. e };

    ghost push_is_join = { λ a b c e. e };
}
