//! `example_json` makes the tables of a grammar of JSON once, and parses several inputs by them. Of
//! each tree it prints how many values it has, and how deep they are nested.
#![tactic(auto)]

use grammar_text::{literals, name_of, read};
use lalrpop_base::{Grammar, Lr1State, NonterminalString, are_coherent};
use lalrpop_lr1::interpret::interpret;
use lalrpop_lr1::{InterpretError, ParseTree};
use lalrpop_tables::{Options, build_states};
use std::alloc::Global;

// A grammar of JSON. A lexer would make the tokens `STRING` and `NUMBER` of a text.
const JSON: &str = "S = Value
Value = Object
Value = Array
Value = \"STRING\"
Value = \"NUMBER\"
Value = \"true\"
Value = \"false\"
Value = \"null\"
Object = \"{\" \"}\"
Object = \"{\" Members \"}\"
Members = Member
Members = Members \",\" Member
Member = \"STRING\" \":\" Value
Array = \"[\" \"]\"
Array = \"[\" Values \"]\"
Values = Value
Values = Values \",\" Value
";

// The steps that a parse may take.
const LIMIT: usize = 1_000;

fn main(rt: HostRuntime) -> anyhow::Result<()> {
    let alloc = rt.alloc();
    let grammar = read(alloc, JSON)?;
    let states = build_states(alloc, &grammar, name_of(alloc, "S")?, &Options::default())?;
    println!(rt; "{} states", states.len())?;
    parse_json(
        &rt,
        &grammar,
        &states,
        "{ STRING : [ NUMBER , [ ] , null ] }",
    )?;
    parse_json(&rt, &grammar, &states, "[ true , false ]")?;
    parse_json(&rt, &grammar, &states, "[ true , ]")
}

// Parses tokens with blanks between them, and prints what the tree has, or why there is none.
fn parse_json(
    rt: &HostRuntime,
    grammar: &Grammar,
    states: &[Lr1State<'_>],
    text: &str,
) -> anyhow::Result<()> {
    let alloc = rt.alloc();
    let mut words = Vec::new(alloc);
    for word in text.split_whitespace() {
        words.push(word)?;
    }
    let tokens = literals(alloc, &words)?;
    // `build_states` promises both, and a caller with proofs cites that.
    if !are_coherent(states) {
        return Ok(());
    }
    if states.is_empty() {
        return Ok(());
    }
    match interpret(alloc, states, &grammar.terminals, tokens, LIMIT) {
        Ok(tree) => println!(rt; "{text}: {} values, {} deep", values(&tree), depth(&tree))?,
        Err(InterpretError::Refused(_, token)) => println!(rt; "{text}: refused at {token}")?,
        Err(error) => println!(rt; "{text}: {error}")?,
    }
    Ok(())
}

// How many values a tree has. A walk with a list of its own, as in `ParseTree::terminals`, takes no
// stack for each level.
fn values(tree: &ParseTree) -> u64 {
    match tree {
        ParseTree::Terminal(_) => 0,
        ParseTree::Nonterminal(name, children) => {
            let mut count: u64 = if is_value(name) { 1 } else { 0 };
            for child in children {
                count = count.saturating_add(values(child));
            }
            count
        }
    }
}

// How deep values are nested in a tree.
fn depth(tree: &ParseTree) -> u64 {
    match tree {
        ParseTree::Terminal(_) => 0,
        ParseTree::Nonterminal(name, children) => {
            let mut deepest = 0;
            for child in children {
                deepest = deepest.max(depth(child));
            }
            deepest.saturating_add(if is_value(name) { 1 } else { 0 })
        }
    }
}

// Whether a node is a value.
fn is_value(name: &NonterminalString) -> bool {
    name.text.as_str() == "Value"
}
