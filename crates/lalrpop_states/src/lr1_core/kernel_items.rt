//! Items as keys and in kernels. Items for which `==` returns true are the same.
ghost use Rattle.std.specs.Prelude.{◌≡◌};
ghost use Rattle.lalrpop_states.specs.states.Items.{dotted_exact};
ghost use Rattle.lalrpop_grammar.specs.contracts.repr.exact.ProductionExact.TheImpl.Laws.{exact-law as production_exact};

use super::item::{Item, Lr0Item};
use crate::lookahead::nil::Nil;
use lalrpop_collections::exact::Exact;

impl<'grammar, L: Exact> Exact for Item<'grammar, L> {
    ghost exact = { dotted_exact _ _ production_exact L.exact };
}

impl<'grammar, L> Item<'grammar, L> {
    /// The item without its lookahead.
    pub fn to_lr0(&self) -> Lr0Item<'grammar>
        ensures production { result.production ≡ self.now.production }
        ensures index { result.index ≡ self.now.index }
    {
        Item {
            production: self.production,
            index: self.index,
            lookahead: Nil,
        }
    }
}
