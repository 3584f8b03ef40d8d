//! `example_calculator` computes what expressions are worth. It makes the table of a grammar once,
//! and parses several texts by it. An error says where it is, what was found, and what may stand
//! there.
#![tactic(auto)]

mod actions;
mod lexer;
mod messages;

use actions::{Fault, Numbers};
use grammar_text::{name_of, read};
use lalrpop_tables::{Options, build_states};
use lexer::{Lexer, Token};
use messages::{fault_text, refusal_text};
use parse_tables::table::ParseTable;
use std::alloc::Global;
use table_parser::error::TableParseError;
use table_parser::events::parse_events;
use table_parser::values::{ValueError, ValueStack};

// Expressions. The number of a line, from 0, is that of its action.
const GRAMMAR: &str = "S = Sum
Sum = Sum \"+\" Product
Sum = Sum \"-\" Product
Sum = Product
Product = Product \"*\" Factor
Product = Product \"/\" Factor
Product = Factor
Factor = \"NUMBER\"
Factor = \"(\" Sum \")\"
Factor = \"-\" Factor
";

// The steps that a parse may take.
const LIMIT: usize = 1_000_000;

// Texts that have a value, and texts that have none.
const TEXTS: [&str; 10] = [
    "1 + 2 * 3",
    "2 * (3 + 4) - -1",
    "7 / 2",
    "99999999999999999999",
    "2 * (3 + )",
    "1 +\n2 3",
    "(12",
    "8 / (4 - 2 * 2)",
    "12 % 5",
    "9223372036854775807 + 1",
];

fn main(rt: HostRuntime) -> anyhow::Result<()> {
    let alloc = rt.alloc();
    let table = table_of(alloc, GRAMMAR)?;
    for text in TEXTS {
        println!(rt; "{}", answer(alloc, &table, text)?)?;
    }
    Ok(())
}

// The table of a grammar, which serves any number of texts.
fn table_of(alloc: Global, grammar: &str) -> anyhow::Result<ParseTable> {
    let grammar = read(alloc, grammar)?;
    let states = build_states(alloc, &grammar, name_of(alloc, "S")?, &Options::default())?;
    Ok(ParseTable::new(alloc, &grammar, &states)?)
}

// What a text is worth, or what is wrong with it.
fn answer(alloc: Global, table: &ParseTable, text: &str) -> anyhow::Result<String> {
    match tokens_of(alloc, text) {
        Ok(tokens) => parsed(alloc, table, &tokens),
        Err(fault) => Ok(fault_text(alloc, &fault)?),
    }
}

// The tokens of a text.
fn tokens_of(alloc: Global, text: &str) -> Result<Vec<Token>, Fault> {
    let mut lexer = Lexer::new(alloc);
    for character in text.chars() {
        lexer.take(character)?;
    }
    lexer.into_tokens()
}

// What tokens are worth, or what is wrong with them.
fn parsed(alloc: Global, table: &ParseTable, tokens: &[Token]) -> anyhow::Result<String> {
    let bits = messages::bits_of(alloc, table, tokens)?;
    let mut stack = ValueStack::new(alloc, Numbers::new(table, tokens));
    match parse_events(alloc, table, LIMIT, bits.iter().copied(), &mut stack) {
        Ok(()) => match stack.into_value() {
            Some(value) => Ok(format!(in alloc; "{value}")?),
            None => Ok(String::from_str(alloc, "no value")?),
        },
        Err(TableParseError::Refused(refusal)) => {
            Ok(refusal_text(alloc, table, tokens, &bits, &refusal, LIMIT)?)
        }
        Err(TableParseError::Stopped(ValueError::Stopped(fault))) => Ok(fault_text(alloc, &fault)?),
        Err(error) => Ok(format!(in alloc; "{error}")?),
    }
}
