// Searches of small grammars. The expected witnesses are the shortest ones, worked out by hand.
ghost use Rattle.lalrpop_base.specs.Words.{IsWellFormed};

use crate::derivations::deep_pair;
use grammar_text::symbols::name_of;
use lalrpop_ambiguity::search::{Search, find_ambiguity};
use lalrpop_base::lookahead::nil::Nil;
use lalrpop_base::lr1_core::state::{BuildError, Lr1TableConstructionError};
use lalrpop_base::repr::grammar::Grammar;
use lalrpop_construction::construction::canonical::build_canonical_states;
use lalrpop_construction::construction::lr::Lr;
use std::alloc::Global;
use std::test::Fail;
use test_fixtures::texts::grammar;

// Sums and products without precedence.
const CALCULATOR: &str = "S = E\nE = E \"+\" E\nE = E \"*\" E\nE = \"NUM\"";

// The conflicts of the canonical states for the start symbol `S`.
fn conflicts<'g>(alloc: Global, grammar: &'g Grammar) -> Result<Lr1TableConstructionError<'g>, Fail>
    requires { IsWellFormed grammar.now }
{
    let lr = Lr::new(alloc, grammar, name_of(alloc, "S")?, Nil)?;
    match build_canonical_states(alloc, grammar, lr, 0) {
        Err(BuildError::Conflicts(error)) => Ok(error),
        _ => Err(Fail::from("no conflicts")),
    }
}

// What is found for each conflict in so many steps, in lines.
fn lines<'g>(
    alloc: Global,
    grammar: &'g Grammar,
    error: &Lr1TableConstructionError<'g>,
    steps: usize,
) -> Result<String, Fail>
    requires { IsWellFormed grammar.now }
{
    let mut lines = String::new(alloc);
    for conflict in &error.conflicts {
        let search = find_ambiguity(alloc, grammar, &error.states, conflict, steps)?;
        lines.push_str(line(alloc, &search)?.as_str())?;
    }
    Ok(lines)
}

// What is found, in a line.
fn line(alloc: Global, search: &Search<'_>) -> Result<String, Fail> {
    match search {
        Search::Found(found) => Ok(format!(in alloc; "{} {}\n", found.left, found.right)?),
        Search::Exhausted => Ok(format!(in alloc; "exhausted\n")?),
        Search::Cut => Ok(format!(in alloc; "cut\n")?),
    }
}

// What is asked of a grammar: searches of so many steps, or deep derivations.
#[derive(Clone, Copy)]
enum Ask {
    Searched(usize),
    Deep,
}

// The answer for the grammar of a text. This function alone owns a grammar, and `of_conflicts`
// alone owns states and conflicts. Each function that owns such a value has to prove that it drops
// each part of it.
fn answer(alloc: Global, ask: Ask, text: &str) -> Result<String, Fail> {
    let grammar = grammar(alloc, text)?;
    answer_of(alloc, ask, &grammar)
}

// The answer for a grammar.
fn answer_of(alloc: Global, ask: Ask, grammar: &Grammar) -> Result<String, Fail>
    requires { IsWellFormed grammar.now }
{
    match ask {
        Ask::Searched(steps) => of_conflicts(alloc, grammar, steps),
        Ask::Deep => deep_pair(alloc, grammar),
    }
}

// The answer for the conflicts of a grammar.
fn of_conflicts(alloc: Global, grammar: &Grammar, steps: usize) -> Result<String, Fail>
    requires { IsWellFormed grammar.now }
{
    let error = conflicts(alloc, grammar)?;
    lines(alloc, grammar, &error, steps)
}

const CALCULATOR_FOUND: &str = "\
[E: [E: E \"*\" E] \"*\" E] [E: E \"*\" [E: E \"*\" E]]
[E: [E: E \"*\" E] \"+\" E] [E: E \"*\" [E: E \"+\" E]]
[E: [E: E \"+\" E] \"*\" E] [E: E \"+\" [E: E \"*\" E]]
[E: [E: E \"+\" E] \"+\" E] [E: E \"+\" [E: E \"+\" E]]
";

const DANGLING_ELSE: &str = "S = T\nT = \"if\" \"e\" T\nT = \"if\" \"e\" T \"else\" T\nT = \"a\"";

const DANGLING_ELSE_FOUND: &str = "\
[T: \"if\" \"e\" [T: \"if\" \"e\" T] \"else\" T] [T: \"if\" \"e\" [T: \"if\" \"e\" T \"else\" T]]
";

// The operators of Lua, by nonterminals of their own. The first conflicts are those of a unary
// operator before a binary one.
const OPERATORS: &str =
    "S = X\nX = \"n\"\nX = X B X\nX = U X\nB = \"+\"\nB = \"-\"\nU = \"-\"\nU = \"not\"";

const OPERATORS_FOUND: &str = "\
[X: [X: U X] [B: \"+\"] X] [X: U [X: X [B: \"+\"] X]]
[X: [X: U X] [B: \"-\"] X] [X: U [X: X [B: \"-\"] X]]
[X: [X: X B X] [B: \"+\"] X] [X: X B [X: X [B: \"+\"] X]]
[X: [X: X B X] [B: \"-\"] X] [X: X B [X: X [B: \"-\"] X]]
";

// A grammar that needs two tokens of lookahead, and is unambiguous.
const TWO_TOKENS: &str = "S = A \"x\" \"y\"\nS = B \"x\" \"z\"\nA = \"a\"\nB = \"a\"";

// An unambiguous grammar whose derivations have no greatest length.
const MIRRORED: &str = "S = P\nP = \"a\" P \"a\"\nP =";

// What is asked, a grammar and the expected answer.
type Case = (Ask, &'static str, &'static str);

// One grammar has a production twice. The last search has too few steps.
const CASES: [Case; 8] = [
    (Ask::Searched(1000), CALCULATOR, CALCULATOR_FOUND),
    (Ask::Searched(1000), DANGLING_ELSE, DANGLING_ELSE_FOUND),
    (Ask::Searched(1000), OPERATORS, OPERATORS_FOUND),
    (Ask::Searched(1000), TWO_TOKENS, "exhausted\n"),
    (Ask::Searched(1000), MIRRORED, "exhausted\ncut\n"),
    (
        Ask::Searched(1000),
        "S = \"a\"\nS = \"a\"",
        "[S: \"a\"] [S: \"a\"]\n",
    ),
    (Ask::Searched(1), CALCULATOR, "cut\ncut\ncut\ncut\n"),
    (Ask::Deep, CALCULATOR, "true"),
];

// Fails unless each answer is the expected one. The proof of a test that compares takes as long as
// that of a large function.
fn expect(alloc: Global, cases: &[Case]) -> Result<(), Fail> {
    for (ask, text, expected) in cases {
        let answer = answer(alloc, *ask, text)?;
        if answer.as_str() != *expected {
            return Err(Fail::new(format_args!("{answer} is not {expected}")));
        }
    }
    Ok(())
}

#[test]
fn searches(rt: HostRuntime) -> Result<(), Fail> {
    expect(rt.alloc(), &CASES)
}
