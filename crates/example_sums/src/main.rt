//! `example_sums` builds a grammar of sums, prints its tables, and parses a sum by them. Then it
//! explains the conflict of an ambiguous grammar of sums.
#![tactic(auto)]

ghost use Rattle.std.specs.Prelude.{IfOk};
ghost use Rattle.lalrpop_base.specs.Words.{IsWellFormed};

use grammar_text::builder::SymbolText::{Literal, Nonterminal};
use grammar_text::{BuilderError, GrammarBuilder, SymbolText, literals, name_of};
use lalrpop_base::lr1_core::state::{Action, Lr1TableConstructionError};
use lalrpop_base::{Grammar, Lr1Conflict};
use lalrpop_lr1::explain::explain;
use lalrpop_lr1::{ExplainedItem, ParseError, is_own_error, parse, report_text};
use lalrpop_tables::{Options, build_states};
use std::alloc::Global;

fn main(rt: HostRuntime) -> anyhow::Result<()> {
    let alloc = rt.alloc();
    let grammar = sums(alloc, &[Nonterminal("Sum"), Literal("+"), Literal("n")])?;
    print_tables(&rt, &grammar)?;
    parse_sum(&rt, &grammar)?;
    let ambiguous = sums(
        alloc,
        &[Nonterminal("Sum"), Literal("+"), Nonterminal("Sum")],
    )?;
    parse_sum(&rt, &ambiguous)
}

// A grammar of sums, given the right side of a longer sum.
fn sums(alloc: Global, longer: &[SymbolText<'_>]) -> Result<Grammar, BuilderError>
    ensures { IfOk result IsWellFormed }
{
    let mut builder = GrammarBuilder::new(alloc);
    builder.add_production("S", &[Nonterminal("Sum")])?;
    builder.add_production("Sum", longer)?;
    builder.add_production("Sum", &[Literal("n")])?;
    builder.finish()
}

// Prints the tables of a grammar.
fn print_tables(rt: &HostRuntime, grammar: &Grammar) -> anyhow::Result<()>
    requires { IsWellFormed grammar.now }
{
    let alloc = rt.alloc();
    let outcome = build_states(alloc, grammar, name_of(alloc, "S")?, &Options::default());
    println!(rt; "{}", report_text(alloc, &grammar.terminals, &outcome)?)?;
    Ok(())
}

// Parses a sum, and prints its tree, or the conflicts of the grammar.
fn parse_sum(rt: &HostRuntime, grammar: &Grammar) -> anyhow::Result<()>
    requires { IsWellFormed grammar.now }
{
    let alloc = rt.alloc();
    let start = name_of(alloc, "S")?;
    let tokens = literals(alloc, &["n", "+", "n"])?;
    match parse(alloc, grammar, start, &Options::default(), tokens, 100) {
        Ok(tree) => println!(rt; "{tree}")?,
        Err(ParseError::Conflicts(error)) => print_conflicts(rt, grammar, &error)?,
        Err(error) => println!(rt; "{error}")?,
    }
    Ok(())
}

// Prints the conflicts of a grammar, each with examples of how its two actions come about.
fn print_conflicts<'grammar>(
    rt: &HostRuntime,
    grammar: &'grammar Grammar,
    error: &Lr1TableConstructionError<'grammar>,
) -> anyhow::Result<()>
    requires { IsWellFormed grammar.now }
{
    println!(rt; "conflicts: {}", error.conflicts.len())?;
    if !is_own_error(grammar, error) {
        return Ok(());
    }
    for explained in explain(rt.alloc(), grammar, error, 3)? {
        print_head(rt, grammar, explained.conflict)?;
        print_item(rt, "reduce", &explained.reduction)?;
        let other = match explained.conflict.action {
            Action::Shift(..) => "shift in",
            Action::Reduce(_) => "reduce",
        };
        for item in &explained.others {
            print_item(rt, other, item)?;
        }
    }
    Ok(())
}

// Prints the state and the tokens of a conflict.
fn print_head(
    rt: &HostRuntime,
    grammar: &Grammar,
    conflict: &Lr1Conflict<'_>,
) -> anyhow::Result<()> {
    print!(rt; "in state {} on", conflict.state)?;
    for token in conflict.lookahead.iter(&grammar.terminals) {
        print!(rt; " {token}")?;
    }
    println!(rt; "")?;
    Ok(())
}

// Prints what is done, the item by which it is done, and its examples.
fn print_item(rt: &HostRuntime, what: &str, item: &ExplainedItem<'_>) -> anyhow::Result<()> {
    println!(rt; "  {what} {}, dot at {}", item.production, item.index)?;
    for example in &item.examples {
        println!(rt; "    {example}")?;
    }
    Ok(())
}
