//! Look-ups in a state: its action on a token, and its goto over a nonterminal.
ghost use Rattle.std.specs.Prelude.{◌≡◌, Bool, option_copied, option_map};
ghost use Rattle.std.specs.BTreeMap.{get};
ghost use Rattle.lalrpop_states.specs.states.ActionEntries.{action_on, table_entry, shift_of};
ghost use Rattle.lalrpop_states.specs.states.Contents.{contents_of, holds_token, number_of};
ghost use Rattle.lalrpop_grammar.specs.parsing.Runs.{reduction_on};
ghost use Rattle.lalrpop_grammar.specs.grammars.WellFormed.{name_cmp};
ghost use Rattle.lalrpop_collections.specs.lists.Bits.{Bits};
ghost use Rattle.lalrpop_grammar.specs.declared.lookahead.token.Token.{Token};

use super::state::{Lr1State, State, StateIndex};
use lalrpop_grammar::lookahead::token::Token;
use lalrpop_grammar::lookahead::token_set::TokenSet;
use lalrpop_grammar::repr::terminals::TerminalSet;
use lalrpop_grammar::repr::{NonterminalString, Production};

/// An entry of the action table: a shift to a state, or a reduction by a production.
#[derive(Clone, Copy, Debug, PartialEq, Eq)]
pub enum ActionEntry<'grammar> {
    Shift(StateIndex),
    Reduce(&'grammar Production),
}

impl<'grammar, L> State<'grammar, L> {
    /// The state to which the goto over a nonterminal leads, if there is one, by one look-up.
    pub fn goto(&self, name: &NonterminalString) -> Option<StateIndex>
        ensures target { result ≡ get name_cmp self.now.gotos name.now }
    {
        self.gotos.get(name).copied()
    }
}

impl<'grammar> State<'grammar, TokenSet> {
    /// The action of the state on a token, if it has one. As in a run of the parser, a shift comes
    /// before a reduction that holds the token too, and an earlier reduction before a later one.
    pub fn action(&self, token: &Token, terminals: &TerminalSet) -> Option<ActionEntry<'grammar>>
        ensures entry { option_map table_entry result ≡ action_on
            (contents_of (holds_token terminals.now) self.now) token.now }
    {
        match shift_target(self, token) {
            Some(target) => Some(ActionEntry::Shift(target)),
            None => first_reduction(self, token, terminals).map(ActionEntry::Reduce),
        }
    }
}

// The state to which the shift of a token leads, if there is one.
fn shift_target<'grammar>(state: &Lr1State<'grammar>, token: &Token) -> Option<StateIndex>
    ensures target { (holds : Bits → Token → Bool) →
        option_map number_of result ≡ shift_of (contents_of holds state.now) token.now }
{
    match token {
        Token::Terminal(terminal) => state.shifts.get(terminal).copied(),
        Token::Eof => None,
        Token::Error => None,
    }
}

// The production of the first reduction that holds a token, if there is one.
fn first_reduction<'grammar>(
    state: &Lr1State<'grammar>,
    token: &Token,
    terminals: &TerminalSet,
) -> Option<&'grammar Production>
    ensures first { option_copied result ≡ reduction_on
        (contents_of (holds_token terminals.now) state.now).reductions token.now }
{
    for reduction in state.reductions.iter() {
        if holds(&reduction.0, token, terminals) {
            return Some(reduction.1);
        }
    }
    None
}

// Whether a token is in a set. The contract is an equation; that of `contains` is an equivalence.
fn holds(tokens: &TokenSet, token: &Token, terminals: &TerminalSet) -> bool
    ensures { result ≡ holds_token terminals.now tokens.now token.now }
{
    let _distinct = terminals.all();
    tokens.contains(token, terminals)
}
