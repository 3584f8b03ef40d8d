//! The grammar of JSON, and its table.
use grammar_text::{name_of, read};
use lalrpop_base::repr::TerminalString;
use lalrpop_tables::{Options, build_states};
use parse_tables::table::ParseTable;
use std::alloc::Global;

// The grammar of RFC 8259. The number of a line, from 0, is that of its action. Both lists are left
// recursive, so that the stack stays small.
const GRAMMAR: &str = "Text = Value
Value = Object
Value = Array
Value = \"string\"
Value = \"number\"
Value = \"true\"
Value = \"false\"
Value = \"null\"
Object = \"{\" \"}\"
Object = \"{\" Members \"}\"
Members = Member
Members = Members \",\" Member
Member = \"string\" \":\" Value
Array = \"[\" \"]\"
Array = \"[\" Elements \"]\"
Elements = Value
Elements = Elements \",\" Value
";

/// The terminal of a string.
pub const STRING: &str = "string";

/// The terminal of a number.
pub const NUMBER: &str = "number";

/// The table, which serves any number of texts.
pub fn json_table(alloc: Global) -> anyhow::Result<ParseTable> {
    let grammar = read(alloc, GRAMMAR)?;
    let states = build_states(
        alloc,
        &grammar,
        name_of(alloc, "Text")?,
        &Options::default(),
    )?;
    Ok(ParseTable::new(alloc, &grammar, &states)?)
}

/// The bit of a terminal. Without such a terminal it is the bit of the end.
pub fn bit_of(table: &ParseTable, terminal: &str) -> u32 {
    let mut bit: u32 = 0;
    for other in table.terminals().all() {
        if text_of(other) == terminal {
            return bit;
        }
        bit = bit.saturating_add(1);
    }
    bit
}

/// The text of a terminal.
pub fn text_of(terminal: &TerminalString) -> &str {
    match terminal {
        TerminalString::Literal(text) => text.as_str(),
        TerminalString::Bare(text) => text.as_str(),
        TerminalString::Error => "error",
    }
}
