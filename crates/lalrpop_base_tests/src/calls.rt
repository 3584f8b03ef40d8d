// Calls that no library makes. Their contracts say what they return, but a call that always reports
// an allocation failure meets these. So each is made here once.
ghost use Rattle.lalrpop_base.specs.Words.{IsWellFormed};

use grammar_text::symbols::{literals, name_of};
use lalrpop_base::collections::multimap::Multimap;
use lalrpop_base::collections::{Collection, Set, push_twice};
use lalrpop_base::first::FirstSets;
use lalrpop_base::lookahead::token::Token;
use lalrpop_base::lookahead::token_set::TokenSet;
use lalrpop_base::lookahead::{join_twice, make_empty};
use lalrpop_base::lr1_core::state::{Action, Lr1Conflict, StateIndex};
use lalrpop_base::memory::OutOfMemory;
use lalrpop_base::repr::grammar::Grammar;
use lalrpop_base::repr::terminals::{TerminalSet, TerminalSetError};
use std::alloc::Global;
use std::test::Fail;
use test_fixtures::texts::{EMPTY_FIRST, first_production, grammar, literal, only};

// Whether a map reports a new key that is pushed as a pair, and a set no second push of a number.
fn are_pushed(alloc: Global) -> Result<bool, OutOfMemory> {
    let mut keys: Multimap<u32, ()> = Collection::empty(alloc);
    let mut set: Set<u32> = Collection::empty(alloc);
    let is_new = Collection::push(&mut keys, (2, ()))?;
    let is_second = push_twice(&mut set, 3, 3)?;
    Ok(is_new && !is_second)
}

// Whether a map of pairs has a key of theirs.
fn is_made_of_pairs(alloc: Global) -> Result<bool, OutOfMemory> {
    let pairs = vec![in alloc; (2u32, 'x'), (1u32, 'y'), (2u32, 'z')]?;
    let lists: Multimap<u32, Vec<char>> = Multimap::from_pairs(alloc, pairs.into_iter())?;
    Ok(lists.get(&2).is_some())
}

// Whether `Eof` is inserted, and a second join changes nothing.
fn is_joined(alloc: Global, terminals: &TerminalSet) -> Result<bool, OutOfMemory> {
    let every = TokenSet::all(alloc, terminals)?;
    let mut set: TokenSet = make_empty(alloc);
    let is_new = set.insert_with(Token::Eof, terminals)?;
    let is_second = join_twice(alloc, &mut set, &every)?;
    Ok(is_new && !is_second)
}

// A conflict of `EMPTY_FIRST` in state 0.
fn conflict_of<'g>(alloc: Global, grammar: &'g Grammar) -> Result<Lr1Conflict<'g>, Fail> {
    Ok(Lr1Conflict {
        state: StateIndex(0),
        lookahead: only(alloc, "z", &grammar.terminals)?,
        production: first_production(alloc, grammar, "B")?,
        action: Action::Shift(literal(alloc, "z")?, StateIndex(3)),
    })
}

// Whether FIRST sets and a conflict of `EMPTY_FIRST` are copied.
fn are_copied(alloc: Global, grammar: &Grammar) -> Result<bool, Fail>
    requires { IsWellFormed grammar.now }
{
    let sets = FirstSets::new(alloc, grammar)?;
    let copied_sets = sets.clone(alloc)?;
    let conflict = conflict_of(alloc, grammar)?;
    let copied = conflict.clone(alloc)?;
    let name = name_of(alloc, "B")?;
    Ok(copied_sets.is_nullable(&name) && copied == conflict)
}

// Whether the first terminal that is repeated is reported, and by a copy of the error too.
fn are_repeated(alloc: Global) -> Result<bool, Fail> {
    let repeated = TerminalSetError::Repeated(literal(alloc, "b")?);
    match TerminalSet::new(alloc, literals(alloc, &["a", "b", "c", "b", "a"])?) {
        Ok(_) => Ok(false),
        Err(error) => Ok(error.clone(alloc)? == repeated),
    }
}

// Whether the calls with a grammar return what they should.
fn are_right_of(alloc: Global, grammar: &Grammar) -> Result<bool, Fail>
    requires { IsWellFormed grammar.now }
{
    Ok(is_joined(alloc, &grammar.terminals)? && are_copied(alloc, grammar)?)
}

// Whether these calls return what they should. This function alone owns a grammar.
fn are_right_with_grammar(alloc: Global) -> Result<bool, Fail> {
    let grammar = grammar(alloc, EMPTY_FIRST)?;
    are_right_of(alloc, &grammar)
}

// Fails unless each call returns what it should.
fn expect_right(alloc: Global) -> Result<(), Fail> {
    if !are_right_with_grammar(alloc)? {
        return Err(Fail::from("a call with a grammar"));
    }
    if !are_pushed(alloc)? || !is_made_of_pairs(alloc)? || !are_repeated(alloc)? {
        return Err(Fail::from("a call without a grammar"));
    }
    Ok(())
}

#[test]
fn calls(rt: HostRuntime) -> Result<(), Fail> {
    expect_right(rt.alloc())
}
