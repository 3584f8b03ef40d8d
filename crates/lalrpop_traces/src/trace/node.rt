//! The nodes of a trace graph.
ghost use Rattle.std.specs.Prelude.{◌≡◌, IfOk};
ghost use Rattle.std.proofs.Common.{sym, ap};
ghost use mathlib.Core.Bool.{true≢false};
ghost use Rattle.lalrpop_base.specs.Words.{name_exact, dotted_exact};
ghost use Rattle.lalrpop_grammar.specs.contracts.repr.exact.ProductionExact.TheImpl.Laws.{exact-law as production_exact};
ghost use Rattle.lalrpop_states.specs.contracts.lookahead.nil.NilExact.TheImpl.Laws.{exact-law as nil_exact};
ghost use Rattle.lalrpop_traces.specs.traces.NodeItems.{without_lookahead};
ghost use Rattle.lalrpop_traces.specs.declared.trace.node.TraceGraphNode.TheVariants.{Nonterminal, Item};

use lalrpop_base::exact::Exact;
use lalrpop_base::lookahead::Lookahead;
use lalrpop_base::lr1_core::item::{Item, Lr0Item};
use lalrpop_base::memory::OutOfMemory;
use lalrpop_base::repr::NonterminalString;
use std::alloc::Global;

/// A nonterminal, or an item where a trace begins or ends.
#[derive(Debug, Drop, PartialEq, Eq, PartialOrd, Ord)]
pub enum TraceGraphNode<'grammar> {
    Nonterminal(NonterminalString),
    Item(Lr0Item<'grammar>),
}

impl<'grammar> TraceGraphNode<'grammar> {
    /// A copy of the node.
    pub fn clone(&self, alloc: Global) -> Result<Self, OutOfMemory>
        ensures { IfOk result (λ copy. copy ≡ self.now) }
    {
        match self {
            TraceGraphNode::Nonterminal(name) => {
                Ok(TraceGraphNode::Nonterminal(name.clone(alloc)?))
            }
            TraceGraphNode::Item(item) => Ok(TraceGraphNode::Item(item.to_lr0())),
        }
    }
}

impl<'grammar> Exact for TraceGraphNode<'grammar> {
    ghost exact = { elim [
      | Nonterminal a ↦ elim [
        | Nonterminal b ↦ λ h. ap Nonterminal (name_exact a b h)
        | Item b ↦ λ h. absurd (true≢false (sym h))
      ]
      | Item a ↦ elim [
        | Item b ↦ λ h. ap Item (dotted_exact _ _ production_exact nil_exact a b h)
        | Nonterminal b ↦ λ h. absurd (true≢false (sym h))
      ]
    ] };
}

impl<'grammar> From<NonterminalString> for TraceGraphNode<'grammar> {
    ghost from_gives = { λ name node. node ≡ Nonterminal name };

    fn from(name: NonterminalString) -> TraceGraphNode<'grammar> {
        TraceGraphNode::Nonterminal(name)
    }
}

impl<'grammar, L: Lookahead> From<Item<'grammar, L>> for TraceGraphNode<'grammar> {
    ghost from_gives = { λ item node. node ≡ Item (without_lookahead item) };

    fn from(item: Item<'grammar, L>) -> TraceGraphNode<'grammar> {
        TraceGraphNode::Item(item.to_lr0())
    }
}

impl<'a, 'grammar, L: Lookahead> From<&'a Item<'grammar, L>> for TraceGraphNode<'grammar> {
    ghost from_gives = { λ item node. node ≡ Item (without_lookahead item.now) };

    fn from(item: &'a Item<'grammar, L>) -> TraceGraphNode<'grammar> {
        TraceGraphNode::Item(item.to_lr0())
    }
}
