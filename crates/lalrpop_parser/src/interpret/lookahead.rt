//! How a state chooses its reduction.
ghost use Rattle.std.specs.Prelude.{◌≡◌, Bool, true, List, option_copied};
ghost use Rattle.lalrpop_base.specs.Words.{holds_token, contents_of, reduction_on};
ghost use Rattle.lalrpop_grammar.specs.declared.lookahead.token.Token.{Token};
ghost use Rattle.lalrpop_grammar.specs.declared.repr.TerminalString.{TerminalString};

use lalrpop_base::lookahead::Lookahead;
use lalrpop_base::lookahead::nil::Nil;
use lalrpop_base::lookahead::token::Token;
use lalrpop_base::lookahead::token_set::TokenSet;
use lalrpop_base::lr1_core::state::State;
use lalrpop_base::repr::Production;
use lalrpop_base::repr::terminals::TerminalSet;

/// A lookahead by which the parser chooses reductions.
pub trait LookaheadInterpret: Lookahead {
    // Whether a lookahead holds a token. The place of a terminal in the list is its bit.
    ghost holds: { List TerminalString → Self → Token → Bool };

    /// The production of the first reduction of the state whose lookahead holds the token.
    fn reduction<'grammar>(
        state: &State<'grammar, Self>,
        token: &Token,
        terminals: &TerminalSet,
    ) -> Option<&'grammar Production>
        ensures { option_copied result ≡ reduction_on
            (contents_of (holds terminals.now) state.now).reductions token.now };
}

// Without lookahead a reduction holds every token.
impl LookaheadInterpret for Nil {
    ghost holds = { λ _ _ _. true };

    fn reduction<'grammar>(
        state: &State<'grammar, Nil>,
        _token: &Token,
        _terminals: &TerminalSet,
    ) -> Option<&'grammar Production> {
        match state.reductions.first() {
            Some(reduction) => Some(reduction.1),
            None => None,
        }
    }
}

impl LookaheadInterpret for TokenSet {
    ghost holds = { holds_token };

    fn reduction<'grammar>(
        state: &State<'grammar, TokenSet>,
        token: &Token,
        terminals: &TerminalSet,
    ) -> Option<&'grammar Production> {
        for reduction in state.reductions.iter() {
            if holds(&reduction.0, token, terminals) {
                return Some(reduction.1);
            }
        }
        None
    }
}

// Whether a token is in a set, as a function that clauses can name.
fn holds(tokens: &TokenSet, token: &Token, terminals: &TerminalSet) -> bool
    ensures { result ≡ holds_token terminals.now tokens.now token.now }
{
    let _distinct = terminals.all();
    tokens.contains(token, terminals)
}
