//! Inlining of the nonterminals that are marked for it.
mod choices;
mod entries;
mod graph;
mod replace;
mod users;

ghost use Rattle.std.specs.Prelude.{◌≡◌, ◌≤◌, ◌↔◌, ◌++◌, IfOk, OnOk, IfErr, List, Contains, length};
ghost use Rattle.lalrpop_base.specs.Words.{IsSentence, IsWellFormed, productions};
ghost use Rattle.lalrpop_grammar.specs.declared.repr.NonterminalString.{NonterminalString};
ghost use Rattle.lalrpop_grammar.specs.declared.repr.TerminalString.{TerminalString};
ghost use Rattle.lalrpop_grammar.specs.declared.repr.Production.{Production};
ghost use Rattle.lalrpop_grammar.specs.declared.repr.grammar.ActionFnDefn.{ActionFnDefn};
ghost use Rattle.lalrpop_inline.specs.inlining.InlineMeetings.{IsComeBackTo, NamesBy};
ghost use Rattle.lalrpop_inline.specs.inlining.InlineOrder.{IsMarked, Mentions, IsOnRing};
ghost use Rattle.lalrpop_inline.specs.inlining.Inlined.{IsInlined, IsLaidOut, IsRefusalOf};

use entries::inline_nonterminal;
pub use graph::inline_order;
use lalrpop_base::repr::grammar::Grammar;
use lalrpop_base::repr::norm_error::NormResult;
use std::alloc::Global;
use users::users_of;

/// The grammar with its marked nonterminals inlined. They keep their entries. New actions are
/// numbered as each nonterminal is inlined, entry by entry in the order of the names. The error is
/// `Cycle` if a nonterminal would have to be inlined into itself. It is `TooManyActions` if an
/// action would have a number above 4294967295, and `Memory` if an allocation fails.
pub fn inline(alloc: Global, grammar: Grammar) -> NormResult<Grammar>
    requires { IsWellFormed grammar }
    ensures inlined { IfOk result (IsInlined grammar) }
    ensures well_formed { IfOk result IsWellFormed }
    ensures unmentioned { IfOk result
        (λ h. (a c : NonterminalString) → IsMarked grammar c → Mentions h a c → ⊥) }
    ensures terminal_lists { IfOk result (λ h. (a : NonterminalString) (w : List TerminalString) →
        IsSentence (productions grammar) a w ↔ IsSentence (productions h) a w) }
    ensures kept { IfOk result (λ h. (more : List ActionFnDefn) ×
        (h.action_fn_defns.items ≡ grammar.action_fn_defns.items ++ more)) }
    ensures laid_out { IfOk result (λ h. (p : Production) →
        Contains (productions h) p →
        length grammar.action_fn_defns.items ≤ p.action.0 →
        IsLaidOut h.action_fn_defns.items p) }
    ensures acyclic { OnOk result ((a : NonterminalString) → IsOnRing grammar a → ⊥) }
    ensures refused { IfErr result (IsRefusalOf grammar) }
    ensures met { IfErr result (NamesBy (IsComeBackTo grammar)) }
{
    let _names = grammar.nonterminals.len();
    let order = inline_order(alloc, &grammar)?;
    let users = users_of(alloc, &grammar)?;
    let mut inlined = grammar;
    for name in &order {
        inlined = inline_nonterminal(alloc, inlined, name, &users)?;
    }
    Ok(inlined)
}
