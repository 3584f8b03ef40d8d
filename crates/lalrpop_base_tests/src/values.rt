// What is printed of values of which no contract says it, or which no text gives; and copies of
// tokens.
use lalrpop_base::lookahead::Lookahead;
use lalrpop_base::lookahead::nil::Nil;
use lalrpop_base::lookahead::token::Token;
use lalrpop_base::lr1_core::item::Item;
use lalrpop_base::repr::grammar::Grammar;
use lalrpop_base::repr::{Production, TerminalString};
use lalrpop_base::text::Text;
use refused_growth::attempts::Attempt;
use std::alloc::Global;
use std::fmt;
use std::test::Fail;
use test_fixtures::growths::no_growth_needed;
use test_fixtures::texts::{first_production, grammar, literal};

// Prints the lookahead in the form that it has after an item.
#[derive(Drop)]
struct Suffix<'l, L> {
    lookahead: &'l L,
}

impl<'l, L: Lookahead> fmt::Display for Suffix<'l, L> {
    fn fmt<W: fmt::Write>(&self, f: &mut fmt::Formatter<W>) -> fmt::Result {
        self.lookahead.fmt_as_item_suffix(f)
    }
}

// What is printed of an item without lookahead, for debugging and after it. The dot is after the
// first symbol.
fn item_text(alloc: Global, production: &Production) -> Result<String, Fail> {
    if production.symbols.len() != 2 {
        return Err(Fail::from("not two symbols"));
    }
    let item = Item::lr0(production, 1);
    let suffix = Suffix { lookahead: &Nil };
    Ok(format!(in alloc; "{item:?}{suffix}")?)
}

// What is printed of a bare terminal, and of the terminal of errors.
fn tokens_text(alloc: Global) -> Result<String, Fail> {
    let bare = Token::Terminal(TerminalString::Bare(Text::new(alloc, "ID")?));
    let error = Token::Terminal(TerminalString::Error);
    Ok(format!(in alloc; "{bare} {error}")?)
}

// Whether an item of T and both tokens are printed as they should be.
fn are_printed(alloc: Global, grammar: &Grammar) -> Result<bool, Fail> {
    let item = item_text(alloc, first_production(alloc, grammar, "T")?)?;
    let tokens = tokens_text(alloc)?;
    Ok(item.as_str() == "T = \"(\" (*) E Nil" && tokens.as_str() == "ID error")
}

// A token that is copied.
#[derive(Drop)]
struct Copied {
    token: Token,
}

impl Attempt for Copied {
    fn attempt(&mut self, alloc: Global) -> Option<bool> {
        match self.token.clone(alloc) {
            Ok(copy) => Some(copy == self.token),
            Err(_) => None,
        }
    }
}

// Whether values are printed as they should be. This function alone owns a grammar.
fn are_all_printed(alloc: Global) -> Result<bool, Fail> {
    let grammar = grammar(alloc, "T = \"(\" E")?;
    are_printed(alloc, &grammar)
}

// Fails unless values are printed as they should be, and a copy of a token takes no memory. It
// shares the text.
fn expect_values(alloc: Global) -> Result<(), Fail> {
    if !are_all_printed(alloc)? {
        return Err(Fail::from("another text"));
    }
    let token = Token::Terminal(literal(alloc, "x")?);
    no_growth_needed(alloc, &mut Copied { token })
}

#[test]
fn values(rt: HostRuntime) -> Result<(), Fail> {
    expect_values(rt.alloc())
}
