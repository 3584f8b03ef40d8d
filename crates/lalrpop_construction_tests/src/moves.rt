// The items that begin a nonterminal after a dot. The lookaheads of the libraries give their tokens
// without this call.
ghost use Rattle.lalrpop_base.specs.Words.{IsWellFormed};

use grammar_text::symbols::name_of;
use lalrpop_base::lookahead::nil::Nil;
use lalrpop_base::lookahead::token_set::TokenSet;
use lalrpop_base::repr::grammar::Grammar;
use lalrpop_construction::construction::lookahead_build::LookaheadBuild;
use lalrpop_construction::construction::lr::Lr;
use std::alloc::Global;
use std::test::Fail;

// The number of items that begin A, if no symbol follows it.
fn begun<L: LookaheadBuild>(alloc: Global, lr: &Lr<'_, L>, lookahead: &L) -> Result<usize, Fail> {
    let name = name_of(alloc, "A")?;
    let items = L::epsilon_moves(alloc, lr, &name, &[], lookahead)?;
    Ok(items.len())
}

/// The number of items that begin A before the end of the input.
pub(crate) fn moves(alloc: Global, grammar: &Grammar) -> Result<usize, Fail>
    requires { IsWellFormed grammar.now }
{
    let end = TokenSet::eof(alloc, &grammar.terminals)?;
    if !end.fits(&grammar.terminals) {
        return Err(Fail::from("no set of these terminals"));
    }
    let lr = Lr::new(alloc, grammar, name_of(alloc, "S")?, end)?;
    let tokens = TokenSet::eof(alloc, &grammar.terminals)?;
    begun(alloc, &lr, &tokens)
}

/// The number of the same items without lookahead.
pub(crate) fn moves_without_lookahead(alloc: Global, grammar: &Grammar) -> Result<usize, Fail>
    requires { IsWellFormed grammar.now }
{
    let lr = Lr::new(alloc, grammar, name_of(alloc, "S")?, Nil)?;
    begun(alloc, &lr, &Nil)
}
