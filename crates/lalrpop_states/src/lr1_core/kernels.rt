//! Lists of items are kernels.
ghost use Rattle.std.specs.Prelude.{◌≡◌};
ghost use Rattle.lalrpop_collections.specs.lists.Exact.{list_exact};
ghost use Rattle.lalrpop_states.specs.states.Items.{dotted_exact};
ghost use Rattle.lalrpop_grammar.specs.contracts.repr.exact.ProductionExact.TheImpl.Laws.{exact-law as production_exact};

use super::item::Item;
use super::state::StateIndex;
use crate::kernel_set::Kernel;
use crate::lookahead::Lookahead;
use lalrpop_collections::memory::OutOfMemory;
use lalrpop_collections::sequence::Sequence;
use std::alloc::Global;

impl<'grammar, L: Lookahead> Kernel for Sequence<Item<'grammar, L>> {
    type Index = StateIndex;

    ghost numbered = { λ n. record { 0 = n } };

    fn index(number: usize) -> StateIndex
        ensures { result ≡ record { 0 = number } }
    {
        StateIndex(number)
    }

    fn copy(&self, alloc: Global) -> Result<Self, OutOfMemory> {
        let mut copy = Sequence::new(alloc);
        for item in self.as_slice() {
            copy.push(item.clone(alloc)?)?;
        }
        Ok(copy)
    }

    ghost equal_is_same = { list_exact (dotted_exact _ _ production_exact L.equal_is_same) };
}
