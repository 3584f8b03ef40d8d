//! The names of expected tokens, for a message.
ghost use Rattle.std.specs.Prelude.{◌≡◌, ◌++◌, IfOk, OnOk, map, string_bytes};
ghost use Rattle.lalrpop_base.specs.Words.{rising, seen, token_of};
ghost use Rattle.expecting_parser.specs.Names.{listed, name_text, separator};

use lalrpop_base::lookahead::token::TokenRef;
use lalrpop_base::lookahead::token_set::TokenSet;
use lalrpop_base::memory::OutOfMemory;
use parse_tables::table::ParseTable;
use std::alloc::Global;

/// The names of the tokens of a set, by rising bit, in one text. For example it is
/// `"*", "+" or end of input`. A terminal is written as it prints.
pub fn expected_text(
    alloc: Global,
    table: &ParseTable,
    tokens: &TokenSet,
) -> Result<String, OutOfMemory>
    ensures { IfOk result (λ text. string_bytes text ≡
        listed (map name_text (map (token_of table.now.terminals) (rising tokens.now)))) }
{
    let mut text = String::new(alloc);
    let mut left = tokens.len();
    for token in tokens.iter(table.terminals()) {
        left = left.saturating_sub(1);
        push_name(&mut text, &token)?;
        text.push_str(between(left))?;
    }
    Ok(text)
}

// Appends the name of a token.
fn push_name(text: &mut String, token: &TokenRef<'_>) -> Result<(), OutOfMemory>
    ensures { OnOk result
        (string_bytes text.new ≡ string_bytes text.old ++ name_text (seen token.now)) }
{
    match token {
        TokenRef::Eof => text.push_str("end of input")?,
        TokenRef::Error => text.push_str("Error")?,
        TokenRef::Terminal(terminal) => write!(text, "{terminal}")?,
    }
    Ok(())
}

// What is between a name and the next one, if so many come after it.
fn between(left: usize) -> &'static str
    ensures { result.now ≡ separator left }
{
    match left {
        0 => "",
        1 => " or ",
        _ => ", ",
    }
}
