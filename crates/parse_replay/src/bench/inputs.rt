//! The grammars, and the terminals that are parsed.
use grammar_text::{name_of, read};
use lalrpop_base::repr::TerminalString;
use lalrpop_tables::{Options, build_states};
use parse_tables::table::ParseTable;
use std::alloc::Global;

// Sums and products.
const CALCULATOR: &str = "S = E
E = E \"+\" T
E = E \"-\" T
E = T
T = T \"*\" F
T = T \"/\" F
T = F
F = \"n\"
F = \"(\" E \")\"
";

// Values of JSON.
const JSON: &str = "S = Value
Value = Object
Value = Array
Value = \"string\"
Value = \"number\"
Value = \"true\"
Value = \"false\"
Value = \"null\"
Object = \"{\" \"}\"
Object = \"{\" Members \"}\"
Members = Member
Members = Members \",\" Member
Member = \"string\" \":\" Value
Array = \"[\" \"]\"
Array = \"[\" Elements \"]\"
Elements = Value
Elements = Elements \",\" Value
";

/// The table of a language: `json`, or the calculator.
pub fn table_of(alloc: Global, language: &str) -> anyhow::Result<ParseTable> {
    let text = match language {
        "json" => JSON,
        _ => CALCULATOR,
    };
    let grammar = read(alloc, text)?;
    let states = build_states(alloc, &grammar, name_of(alloc, "S")?, &Options::default())?;
    Ok(ParseTable::new(alloc, &grammar, &states)?)
}

/// A table, and the bits of terminals: first some, then some that are repeated, then the last.
#[derive(Drop)]
pub struct Input<'a> {
    pub table: &'a ParseTable,
    pub first: Vec<u32>,
    pub repeated: Vec<u32>,
    pub last: Vec<u32>,
}

impl Input<'_> {
    /// The input of a language by its table.
    pub fn of<'a>(
        alloc: Global,
        language: &str,
        table: &'a ParseTable,
    ) -> anyhow::Result<Input<'a>> {
        match language {
            "json" => made(
                alloc,
                table,
                &["["],
                &[
                    "{", "string", ":", "[", "number", ",", "number", ",", "true", "]", ",",
                    "string", ":", "{", "string", ":", "null", "}", "}", ",",
                ],
                &["number", "]"],
            ),
            _ => made(
                alloc,
                table,
                &[],
                &["n", "+", "n", "*", "(", "n", "-", "n", ")", "/"],
                &["n"],
            ),
        }
    }
}

// The input by a table, from the texts of literals.
fn made<'a>(
    alloc: Global,
    table: &'a ParseTable,
    first: &[&str],
    repeated: &[&str],
    last: &[&str],
) -> anyhow::Result<Input<'a>> {
    Ok(Input {
        table,
        first: bits_of(alloc, table, first)?,
        repeated: bits_of(alloc, table, repeated)?,
        last: bits_of(alloc, table, last)?,
    })
}

// The bits of the literals of texts.
fn bits_of(alloc: Global, table: &ParseTable, texts: &[&str]) -> anyhow::Result<Vec<u32>> {
    let mut bits = Vec::new(alloc);
    for text in texts {
        bits.push(bit_of(table, text))?;
    }
    Ok(bits)
}

// The bit of the literal of a text, or that of the end.
fn bit_of(table: &ParseTable, text: &str) -> u32 {
    let mut bit: u32 = 0;
    for terminal in table.terminals().all() {
        if is_literal(terminal, text) {
            return bit;
        }
        bit = bit.saturating_add(1);
    }
    bit
}

// Whether a terminal is the literal of a text.
fn is_literal(terminal: &TerminalString, text: &str) -> bool {
    match terminal {
        TerminalString::Literal(literal) => literal.as_str() == text,
        _ => false,
    }
}
