//! The tokens of symbols, and a test whether sets share a token.
ghost use Rattle.std.specs.Prelude.{◌<◌, ◌↔◌, ℕ, IsTrue, MatchBool, IfOk, Contains, length};
ghost use Rattle.lalrpop_base.specs.Words.{has};
ghost use Rattle.lalrpop_follow_sets.specs.follow_sets.FollowWalks.{AreTokensOfSymbols, HasTokenOf, HoldsSomeOf, ShareBits};

use lalrpop_base::lookahead::token::Token;
use lalrpop_base::lookahead::token_set::TokenSet;
use lalrpop_base::memory::OutOfMemory;
use lalrpop_base::repr::Symbol;
use lalrpop_base::repr::terminals::TerminalSet;
use std::alloc::Global;

// The set of the symbol's token, if it is a terminal in the grammar's list, else the empty set.
fn token_of(
    alloc: Global,
    terminals: &TerminalSet,
    symbol: &Symbol,
) -> Result<TokenSet, OutOfMemory>
    ensures { IfOk result (λ set. (bit : ℕ) →
        IsTrue (has set bit) ↔ HasTokenOf terminals.now symbol.now bit) }
{
    let mut set = TokenSet::new(alloc, terminals);
    if let Symbol::Terminal(terminal) = symbol {
        if terminals.bit(terminal).is_some() {
            set.insert(Token::Terminal(terminal.clone(alloc)?), terminals)?;
        }
    }
    Ok(set)
}

/// For each symbol the set of its token, which is empty for a nonterminal.
pub(super) fn tokens_of(
    alloc: Global,
    terminals: &TerminalSet,
    symbols: &[Symbol],
) -> Result<Vec<TokenSet>, OutOfMemory>
    ensures { IfOk result
        (λ tokens. AreTokensOfSymbols terminals.now symbols.now tokens.items) }
{
    let mut tokens = Vec::with_capacity(alloc, symbols.len())?;
    for symbol in symbols {
        tokens.push(token_of(alloc, terminals, symbol)?)?;
    }
    Ok(tokens)
}

/// The union of the sets of the transitions' symbols. These are the tokens that the state shifts.
pub(super) fn shifted_tokens(
    alloc: Global,
    terminals: &TerminalSet,
    tokens: &[TokenSet],
    edges: &[(usize, usize)],
) -> Result<TokenSet, OutOfMemory>
    requires { (x target : ℕ) → Contains edges.now (x, target) → x < length tokens.now }
    ensures { IfOk result (λ set. (bit : ℕ) →
        IsTrue (has set bit) ↔ HoldsSomeOf tokens.now edges.now bit) }
{
    let mut shifted = TokenSet::new(alloc, terminals);
    for edge in edges {
        shifted.union_with(&tokens[edge.0])?;
    }
    Ok(shifted)
}

/// Whether two of `sets` share a token, or one of them shares a token with `first`. `OutOfMemory`
/// if an allocation fails.
pub fn share_token(first: TokenSet, sets: &[TokenSet]) -> Result<bool, OutOfMemory>
    ensures { IfOk result (λ shared. MatchBool shared
        (ShareBits first sets.now)
        (ShareBits first sets.now → ⊥)) }
{
    let mut used = first;
    for set in sets {
        if used.is_intersecting(set) {
            return Ok(true);
        }
        used.union_with(set)?;
    }
    Ok(false)
}
