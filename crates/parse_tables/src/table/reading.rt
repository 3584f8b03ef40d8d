//! The actions and gotos of a parse table.
ghost use Rattle.std.specs.Prelude.{◌≡◌, ◌+◌, ◌<◌, ◌≤◌, ℕ, List, IfSome, IsNone, length, slice_get, Some};
ghost use Rattle.lalrpop_base.specs.Words.{CanStandNext, Contents, IsBitOf, action_on};
ghost use Rattle.lalrpop_grammar.specs.declared.lookahead.token.Token.{Token};
ghost use Rattle.lalrpop_grammar.specs.declared.repr.NonterminalString.{NonterminalString};
ghost use Rattle.lalrpop_grammar.specs.declared.repr.Production.{Production};
ghost use Rattle.parse_tables.specs.Codes.{entry_of, target_of};
ghost use Rattle.parse_tables.specs.Actions.{entry_by};
ghost use Rattle.parse_tables.specs.Tables.{IsTableOf};

use super::{ParseTable, TableAction};
use lalrpop_base::repr::terminals::TerminalSet;
use lalrpop_base::repr::{NonterminalString, Production};

impl ParseTable {
    /// The action of a state on the token with a bit.
    pub fn action(&self, state: u32, bit: u32) -> TableAction
        ensures { (states : ℕ → Contents) → IsTableOf self.now states → (token : Token) →
            CanStandNext token → IsBitOf self.now.terminals token bit →
            entry_by self.now.productions result ≡ action_on (states state) token }
    {
        action_of(self.first_shift, self.actions.get(state, bit))
    }

    /// The goto of a state on the nonterminal with a number.
    pub fn goto(&self, state: u32, nonterminal: u32) -> Option<u32>
        ensures { (states : ℕ → Contents) → IsTableOf self.now states →
            (name : NonterminalString) →
            slice_get self.now.nonterminals nonterminal ≡ Some name →
            result ≡ (states state).goto name }
    {
        goto_of(self.gotos.get(state, nonterminal))
    }

    /// The number of the nonterminal of a production, and the length of its right side.
    pub fn side(&self, production: u32) -> Option<(u32, u32)>
        ensures found { IfSome result (λ side. (p : Production) →
            slice_get self.now.productions production ≡ Some p →
            (slice_get self.now.nonterminals side.0 ≡ Some p.nonterminal)
            × (side.1 ≡ length p.symbols)) }
        ensures within { IfSome result (λ _. production < length self.now.productions) }
        ensures absent { IsNone result → length self.now.productions ≤ production }
    {
        let Some(side) = self.sides.get(production as usize) else {
            return None;
        };
        Some(*side)
    }

    /// The terminals, in the order of their bits.
    pub fn terminals(&self) -> &TerminalSet
        ensures { result.now ≡ self.now.terminals }
    {
        &self.terminals
    }

    /// The nonterminals, in the order of their numbers.
    pub fn nonterminals(&self) -> &[NonterminalString]
        ensures { result.now ≡ self.now.nonterminals }
    {
        self.nonterminals.all()
    }

    /// The productions, in the order of their numbers.
    pub fn productions(&self) -> &[Production]
        ensures { result.now ≡ self.now.productions }
    {
        self.productions.all()
    }

    /// How many cells the actions and the gotos take, of 8 bytes each.
    pub fn cell_count(&self) -> usize
        ensures { result ≡ length self.now.actions.cells.items + length self.now.gotos.cells.items }
    {
        self.actions.cell_count() + self.gotos.cell_count()
    }
}

// The action that the number in a cell means. The numbers of shifts begin at `first_shift`.
fn action_of(first_shift: u32, code: u32) -> TableAction
    ensures { (productions : List Production) → first_shift ≡ length productions + 1 →
        entry_by productions result ≡ entry_of productions code }
{
    if code >= first_shift {
        return TableAction::Shift(code - first_shift);
    }
    if code == 0 {
        return TableAction::None;
    }
    TableAction::Reduce(code - 1)
}

// The goto that the number in a cell means.
fn goto_of(code: u32) -> Option<u32>
    ensures { result ≡ target_of code }
{
    if code == 0 { None } else { Some(code - 1) }
}
