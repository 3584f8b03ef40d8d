//! Sets of tokens as collections. A push adds the tokens of a set.
ghost use Rattle.std.specs.Prelude.{◌≡◌, refl};
ghost use Rattle.lalrpop_collections.specs.lists.Bits.{no_bits, join};

use super::token_set::TokenSet;
use lalrpop_collections::collections::Collection;
use lalrpop_collections::memory::OutOfMemory;
use std::alloc::Global;

impl Collection for TokenSet {
    type Item = TokenSet;

    ghost same = { λ a b. b ≡ a };

    ghost is_empty = { λ s. s ≡ no_bits };

    ghost pushes = { λ a item b. b ≡ join a item };

    fn empty(alloc: Global) -> TokenSet {
        TokenSet::empty_set(alloc)
    }

    fn push(&mut self, item: TokenSet) -> Result<bool, OutOfMemory> {
        self.union_with(&item)
    }

    ghost same_itself = { λ _. refl };
}
