//! Grammars, terminals, sets of tokens and productions, from texts.
ghost use Rattle.std.specs.Prelude.{IfOk};
ghost use Rattle.lalrpop_base.specs.Words.{IsWellFormed};

use grammar_text::grammar::read;
use grammar_text::symbols::name_of;
use lalrpop_base::lookahead::token::Token;
use lalrpop_base::lookahead::token_set::TokenSet;
use lalrpop_base::memory::OutOfMemory;
use lalrpop_base::repr::grammar::Grammar;
use lalrpop_base::repr::terminals::TerminalSet;
use lalrpop_base::repr::{Production, TerminalString};
use lalrpop_base::text::Text;
use std::alloc::Global;
use std::test::Fail;

/// Expressions of names and of expressions in parentheses, with `-` between them.
pub const SUMS: &str = "S = E\nE = E \"-\" T\nE = T\nT = \"N\"\nT = \"(\" E \")\"";

/// One production with one terminal.
pub const ONE: &str = "S = \"x\"";

/// Two beginnings and two ends. The end that comes after A with one beginning comes after B with
/// the other.
pub const CROSSED: &str =
    "S = \"a\" A \"d\"\nS = \"b\" B \"d\"\nS = \"a\" B \"e\"\nS = \"b\" A \"e\"\nA = \"c\"\nB = \"c\"";

/// A conflict on "z": E can begin with "z", or first with an empty B.
pub const EMPTY_FIRST: &str = "S = E \"x\"\nE = B E \"y\"\nE = \"z\"\nB =";

/// The grammar of a text.
pub fn grammar(alloc: Global, text: &str) -> Result<Grammar, Fail>
    ensures { IfOk result IsWellFormed }
{
    Ok(read(alloc, text)?)
}

/// The literal of a text.
pub fn literal(alloc: Global, text: &str) -> Result<TerminalString, OutOfMemory> {
    Ok(TerminalString::Literal(Text::new(alloc, text)?))
}

/// The set of one literal. It is empty if the literal is not in the set of terminals.
pub fn only(alloc: Global, text: &str, terminals: &TerminalSet) -> Result<TokenSet, OutOfMemory> {
    let terminal = literal(alloc, text)?;
    if terminals.bit(&terminal).is_none() {
        return Ok(TokenSet::new(alloc, terminals));
    }
    TokenSet::of(alloc, Token::Terminal(terminal), terminals)
}

/// The first production of a nonterminal.
pub fn first_production<'g>(
    alloc: Global,
    grammar: &'g Grammar,
    name: &str,
) -> Result<&'g Production, Fail> {
    match grammar.productions_for(&name_of(alloc, name)?).first() {
        Some(production) => Ok(production),
        None => Err(Fail::from("no production")),
    }
}
