//! The message for an input that is refused.
ghost use Rattle.std.specs.Prelude.{◌≡◌, ◌<◌, ◌^◌, ◌++◌, IfOk, OnOk, Some, string_bytes, suc};
ghost use Rattle.std.specs.List.{flat_map};
ghost use Rattle.parse_pictures.specs.RefusalTexts.{expected_end, expected_text, expected_words, place_text, refusal_words, wrong_token};

use super::expected::Expected;
use lalrpop_collections::memory::OutOfMemory;
use lalrpop_grammar::repr::TerminalString;
use std::alloc::Global;

/// Why an input is refused: which token is wrong, and what is expected in its place. `count` is the
/// number of terminals before it. The place in the text is counted from 1. `OutOfMemory` if an
/// allocation fails.
pub fn refusal_text(
    alloc: Global,
    tokens: &[TerminalString],
    count: usize,
    expected: &Expected,
) -> Result<String, OutOfMemory>
    ensures { IfOk result
        (λ text. string_bytes text ≡ refusal_words tokens.now count expected.now) }
{
    let mut text = String::new(alloc);
    push_place(&mut text, tokens, count)?;
    text.push_str("; expected:")?;
    push_expected(&mut text, expected)?;
    Ok(text)
}

// Appends which token is wrong.
fn push_place(text: &mut String, tokens: &[TerminalString], count: usize) -> Result<(), OutOfMemory>
    ensures { OnOk result (string_bytes text.new ≡ string_bytes text.old ++ place_text tokens.now
        count) }
{
    let _fits = tokens.len();
    match tokens.get(count) {
        Some(token) => push_wrong(text, count, token)?,
        None => text.push_str("the input ends too early")?,
    }
    Ok(())
}

// Appends which token is wrong, after a number of others.
fn push_wrong(text: &mut String, count: usize, token: &TerminalString) -> Result<(), OutOfMemory>
    requires { suc count < 2 ^ 64 }
    ensures { OnOk result (string_bytes text.new ≡ string_bytes text.old ++ wrong_token count
        (Some token.now)) }
{
    let place = count + 1;
    write!(text, "token {place}, {token}, is wrong")?;
    Ok(())
}

// Appends what is expected, each token after a space.
fn push_expected(text: &mut String, expected: &Expected) -> Result<(), OutOfMemory>
    ensures { OnOk result (string_bytes text.new ≡ string_bytes text.old ++ expected_words
        expected.now) }
{
    push_terminals(text, &expected.terminals)?;
    push_end(text, expected.end)?;
    Ok(())
}

// Appends terminals, each after a space.
fn push_terminals(text: &mut String, terminals: &[TerminalString]) -> Result<(), OutOfMemory>
    ensures { OnOk result (string_bytes text.new ≡ string_bytes text.old ++ flat_map expected_text
        terminals.now) }
{
    for terminal in terminals {
        push_terminal(text, terminal)?;
    }
    Ok(())
}

// Appends a terminal after a space.
fn push_terminal(text: &mut String, terminal: &TerminalString) -> Result<(), OutOfMemory>
    ensures { OnOk result (string_bytes text.new ≡ string_bytes text.old ++ expected_text
        terminal.now) }
{
    write!(text, " {terminal}")?;
    Ok(())
}

// Appends the end of the input, if it is expected.
fn push_end(text: &mut String, is_expected: bool) -> Result<(), OutOfMemory>
    ensures { OnOk result (string_bytes text.new ≡ string_bytes text.old ++ expected_end
        is_expected) }
{
    if is_expected {
        text.push_str(" Eof")?;
    }
    Ok(())
}
