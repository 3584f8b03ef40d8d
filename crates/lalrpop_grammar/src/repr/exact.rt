//! `==` of names, terminals, symbols and productions is `true` for equal values only.
ghost use Rattle.std.specs.Prelude.{refl};
ghost use Rattle.std.proofs.Common.{sym, ap};
ghost use mathlib.Core.Bool.{true≢false};
ghost use Rattle.lalrpop_collections.specs.lists.Exact.{text_exact};
ghost use Rattle.lalrpop_grammar.specs.grammars.ExactNames.{name_exact, production_exact};
ghost use Rattle.lalrpop_grammar.specs.declared.repr.Symbol.TheVariants.{Nonterminal, Terminal};
ghost use Rattle.lalrpop_grammar.specs.declared.repr.TerminalString.TheVariants.{Literal, Bare, Error};

use super::{NonterminalString, Production, Symbol, TerminalString};
use lalrpop_collections::exact::Exact;

impl Exact for NonterminalString {
    ghost exact = { name_exact };
}

impl Exact for TerminalString {
    ghost exact = { elim [
      | Literal a ↦ elim [
        | Literal b ↦ λ h. ap Literal (text_exact a b h)
        | Bare b ↦ λ h. absurd (true≢false (sym h))
        | Error ↦ λ h. absurd (true≢false (sym h))
      ]
      | Bare a ↦ elim [
        | Bare b ↦ λ h. ap Bare (text_exact a b h)
        | Literal b ↦ λ h. absurd (true≢false (sym h))
        | Error ↦ λ h. absurd (true≢false (sym h))
      ]
      | Error ↦ elim [
        | Error ↦ λ h. refl
        | Literal b ↦ λ h. absurd (true≢false (sym h))
        | Bare b ↦ λ h. absurd (true≢false (sym h))
      ]
    ] };
}

impl Exact for Symbol {
    ghost use Rattle.lalrpop_grammar.specs.contracts.repr.exact.TerminalStringExact.TheImpl.Laws.{exact-law as terminal_exact};

    ghost exact = { elim [
      | Nonterminal a ↦ elim [
        | Nonterminal b ↦ λ h. ap Nonterminal (name_exact a b h)
        | Terminal b ↦ λ h. absurd (true≢false (sym h))
      ]
      | Terminal a ↦ elim [
        | Terminal b ↦ λ h. ap Terminal (terminal_exact a b h)
        | Nonterminal b ↦ λ h. absurd (true≢false (sym h))
      ]
    ] };
}

impl Exact for Production {
    ghost use Rattle.lalrpop_grammar.specs.contracts.repr.exact.SymbolExact.TheImpl.Laws.{exact-law as symbol_exact};

    ghost exact = { production_exact _ symbol_exact };
}
