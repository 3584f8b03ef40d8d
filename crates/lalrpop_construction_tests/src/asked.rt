// What the test asks of one grammar.
//
// The function `counts_of` alone owns a grammar. Each function that owns one has to prove that it
// drops each part of it.
ghost use Rattle.lalrpop_base.specs.Words.{IsWellFormed};

use crate::{moves, word_states};
use lalrpop_base::repr::grammar::Grammar;
use std::alloc::Global;
use std::test::Fail;
use test_fixtures::texts::{CROSSED, EMPTY_FIRST, SUMS, grammar};

// What is asked: the states of a construction with words as lookaheads and a start symbol, or the
// items that begin A, with tokens and without lookahead.
#[derive(Clone, Copy)]
enum Ask {
    Words(&'static str),
    Moves,
    MovesWithoutLookahead,
}

// The numbers of states and of conflicts, for the grammar of a text.
fn counts_of(alloc: Global, ask: Ask, text: &str) -> Result<(usize, usize), Fail> {
    let grammar = grammar(alloc, text)?;
    counts(alloc, ask, &grammar)
}

// The numbers of states and of conflicts, for a grammar; or the number of items and 0.
fn counts(alloc: Global, ask: Ask, grammar: &Grammar) -> Result<(usize, usize), Fail>
    requires { IsWellFormed grammar.now }
{
    match ask {
        Ask::Words(start) => word_states::counts(alloc, grammar, start),
        Ask::Moves => Ok((moves::moves(alloc, grammar)?, 0)),
        Ask::MovesWithoutLookahead => Ok((moves::moves_without_lookahead(alloc, grammar)?, 0)),
    }
}

// What is asked, a grammar, and the expected numbers.
type Case = (Ask, &'static str, (usize, usize));

// Fails unless the numbers of each case are the expected ones. The test makes this call and nothing
// else: the proof of a test that compares takes as long as that of a large function.
fn expect(alloc: Global, cases: &[Case]) -> Result<(), Fail> {
    for (ask, text, expected) in cases {
        let (states, conflicts) = counts_of(alloc, *ask, text)?;
        if (states, conflicts) != *expected {
            return Err(Fail::new(format_args!("{states} states, {conflicts} conflicts: {text}")));
        }
    }
    Ok(())
}

// A grammar with two productions of A.
const TWO: &str = "S = A \"y\"\nA = \"x\"\nA =";

const CASES: [Case; 6] = [
    (Ask::Words("S"), SUMS, (16, 0)),
    (
        Ask::Words("Ty"),
        "Ty = \"int\"\nTy = \"bool\"\nTy = Ty \"->\" Ty",
        (6, 1),
    ),
    (Ask::Words("S"), CROSSED, (13, 0)),
    (Ask::Words("S"), EMPTY_FIRST, (11, 3)),
    (Ask::Moves, TWO, (2, 0)),
    (Ask::MovesWithoutLookahead, TWO, (2, 0)),
];

#[test]
fn constructions(rt: HostRuntime) -> Result<(), Fail> {
    expect(rt.alloc(), &CASES)
}
