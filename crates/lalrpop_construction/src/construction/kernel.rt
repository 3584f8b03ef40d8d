//! Kernels of states, as lists of items.
ghost use Rattle.std.specs.Prelude.{◌≡◌, ◌<◌, All};
ghost use Rattle.lalrpop_base.specs.Words.{list_exact, dotted_exact};
ghost use Rattle.lalrpop_grammar.specs.contracts.repr.exact.ProductionExact.TheImpl.Laws.{exact-law as production_exact};

use lalrpop_base::kernel_set;
use lalrpop_base::lookahead::Lookahead;
use lalrpop_base::lr1_core::item::Item;
use lalrpop_base::lr1_core::state::StateIndex;
use lalrpop_base::memory::OutOfMemory;
use lalrpop_base::sequence::Sequence;
use std::alloc::Global;
use std::marker::Model;

/// The kernel of a state: the items of which the closure is taken.
#[derive(Debug, Drop, PartialEq, Eq, PartialOrd, Ord, Hash)]
pub struct Kernel<'grammar, L: Lookahead> {
    items: Sequence<Item<'grammar, L>>,
}

impl<'grammar, L: Lookahead> Model for Kernel<'grammar, L> {
    ghost use Rattle.std.specs.Prelude.{List};
    ghost use Rattle.lalrpop_base.specs.Words.{Dotted};

    ghost Value = { List (Dotted L) };

    ghost view = { λ k. k.items };

    ghost inverse = { λ items. record { items = items } };
}

impl<'grammar, L: Lookahead> Kernel<'grammar, L> {
    /// The kernel of the first state. All dots are at the start.
    pub fn start(items: Sequence<Item<'grammar, L>>) -> Self
        requires { All (λ i. i.index ≡ 0) items }
        ensures { result ≡ items.entry }
    {
        Kernel { items }
    }

    /// The kernel of a state to which a symbol leads. All dots are past the start.
    pub fn shifted(items: Sequence<Item<'grammar, L>>) -> Self
        requires { All (λ i. 0 < i.index) items }
        ensures { result ≡ items.entry }
    {
        Kernel { items }
    }

    /// The items, in order.
    pub fn as_slice(&self) -> &[Item<'grammar, L>]
        ensures { result.now ≡ self.now }
    {
        self.items.as_slice()
    }
}

impl<'grammar, L: Lookahead> kernel_set::Kernel for Kernel<'grammar, L> {
    type Index = StateIndex;

    ghost numbered = { λ n. record { 0 = n } };

    fn index(number: usize) -> StateIndex
        ensures { result ≡ record { 0 = number } }
    {
        StateIndex(number)
    }

    fn copy(&self, alloc: Global) -> Result<Self, OutOfMemory> {
        Ok(Kernel {
            items: kernel_set::Kernel::copy(&self.items, alloc)?,
        })
    }

    ghost equal_is_same = { list_exact (dotted_exact _ _ production_exact L.equal_is_same) };
}
