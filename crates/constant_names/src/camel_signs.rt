//! The words of characters that are no letters, each with a capital.
ghost use Rattle.std.specs.Prelude.{◌≡◌, ◌++◌, OnOk, string_bytes};
ghost use Rattle.constant_names.specs.CamelSigns.{camel_sign, high_sign, low_sign, middle_sign, sign_word};

use std::alloc::AllocError;

/// Appends the word of a sign. A sign of ASCII has a word, and any other character has
/// `U` and its number in hexadecimal. An error is an allocation failure.
pub(crate) fn push_sign(text: &mut String, c: char) -> Result<(), AllocError>
    ensures { OnOk result (string_bytes text.new ≡ string_bytes text.old ++ camel_sign c) }
{
    let word = sign_word(c);
    if !word.is_empty() {
        text.push_str(word)?;
        return Ok(());
    }
    write!(text, "U{:x}", c as u32)?;
    Ok(())
}

// The word of a sign of ASCII, or nothing for another character.
fn sign_word(c: char) -> &'static str
    ensures { result.now ≡ sign_word c }
{
    let low = low_sign(c);
    if !low.is_empty() {
        return low;
    }
    let middle = middle_sign(c);
    if !middle.is_empty() {
        return middle;
    }
    high_sign(c)
}

// The word of a sign before the digits.
fn low_sign(c: char) -> &'static str
    ensures { result.now ≡ low_sign c }
{
    match c {
        '!' => "Bang",
        '#' => "Hash",
        '$' => "Dollar",
        '%' => "Percent",
        '&' => "Amp",
        '\'' => "Quote",
        '(' => "Lparen",
        ')' => "Rparen",
        '*' => "Star",
        '+' => "Plus",
        ',' => "Comma",
        '-' => "Minus",
        '.' => "Dot",
        '/' => "Slash",
        _ => "",
    }
}

// The word of a sign between the digits and the capitals.
fn middle_sign(c: char) -> &'static str
    ensures { result.now ≡ middle_sign c }
{
    match c {
        ':' => "Colon",
        ';' => "Semicolon",
        '<' => "Lt",
        '=' => "Eq",
        '>' => "Gt",
        '?' => "Question",
        '@' => "At",
        _ => "",
    }
}

// The word of a sign after the capitals.
fn high_sign(c: char) -> &'static str
    ensures { result.now ≡ high_sign c }
{
    match c {
        '[' => "Lbracket",
        '\\' => "Backslash",
        ']' => "Rbracket",
        '^' => "Caret",
        '`' => "Backquote",
        '{' => "Lbrace",
        '|' => "Pipe",
        '}' => "Rbrace",
        '~' => "Tilde",
        _ => "",
    }
}
