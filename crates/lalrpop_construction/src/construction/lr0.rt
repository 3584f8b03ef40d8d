//! The construction of LR(0) states.
ghost use Rattle.std.specs.Prelude.{IfOk, IfErr, MatchResult};
ghost use Rattle.lalrpop_base.specs.Words.{IsWellFormed, rules_of};
ghost use Rattle.lalrpop_construction.specs.states.Lr0.{AreLr0States, HasLr0States, HaveNoNilConflict, ListsNilConflicts};

use super::lr::Lr;
use lalrpop_base::lookahead::nil::Nil;
use lalrpop_base::lr1_core::state::LrResult;
use lalrpop_base::repr::NonterminalString;
use lalrpop_base::repr::grammar::Grammar;
use std::alloc::Global;

/// The LR(0) states of a grammar, or an error with the states and their conflicts. The states are
/// numbered in the order in which the construction finds them. An allocation failure is `Memory`.
#[tactic(auto, using(crate::proofs::theory::construction::Lookaheads::nothing_fits))]
pub fn build_lr0_states<'grammar>(
    alloc: Global,
    grammar: &'grammar Grammar,
    start: NonterminalString,
) -> LrResult<'grammar, Nil>
    requires { IsWellFormed grammar.now }
    ensures states { MatchResult result
        (λ tables. AreLr0States (rules_of grammar.now) start tables.items)
        (HasLr0States (rules_of grammar.now) start) }
    ensures free { IfOk result (λ tables. HaveNoNilConflict tables.items) }
    ensures conflicts { IfErr result ListsNilConflicts }
{
    let lr = Lr::new(alloc, grammar, start, Nil)?;
    lr.build_lr0_states(alloc)
}
