//! The words of characters that are no letters.
ghost use Rattle.std.specs.Prelude.{◌≡◌, ◌++◌, OnOk, string_bytes};
ghost use Rattle.constant_names.specs.Signs.{high_sign, low_sign, middle_sign, sign_word, upper_sign};

use std::alloc::AllocError;

/// Appends the word of a sign in capitals. A sign of ASCII has a word, and any other character has
/// `U` and its number in hexadecimal. An error is an allocation failure.
pub(crate) fn push_sign(text: &mut String, c: char) -> Result<(), AllocError>
    ensures { OnOk result (string_bytes text.new ≡ string_bytes text.old ++ upper_sign c) }
{
    let word = sign_word(c);
    if !word.is_empty() {
        text.push_str(word)?;
        return Ok(());
    }
    write!(text, "U{:X}", c as u32)?;
    Ok(())
}

// The word of a sign of ASCII, or nothing for another character.
fn sign_word(c: char) -> &'static str
    ensures { result.now ≡ sign_word c }
{
    let low = low_sign(c);
    if !low.is_empty() {
        return low;
    }
    let middle = middle_sign(c);
    if !middle.is_empty() {
        return middle;
    }
    high_sign(c)
}

// The word of a sign before the digits.
fn low_sign(c: char) -> &'static str
    ensures { result.now ≡ low_sign c }
{
    match c {
        '!' => "BANG",
        '#' => "HASH",
        '$' => "DOLLAR",
        '%' => "PERCENT",
        '&' => "AMP",
        '\'' => "QUOTE",
        '(' => "LPAREN",
        ')' => "RPAREN",
        '*' => "STAR",
        '+' => "PLUS",
        ',' => "COMMA",
        '-' => "MINUS",
        '.' => "DOT",
        '/' => "SLASH",
        _ => "",
    }
}

// The word of a sign between the digits and the capitals.
fn middle_sign(c: char) -> &'static str
    ensures { result.now ≡ middle_sign c }
{
    match c {
        ':' => "COLON",
        ';' => "SEMICOLON",
        '<' => "LT",
        '=' => "EQ",
        '>' => "GT",
        '?' => "QUESTION",
        '@' => "AT",
        _ => "",
    }
}

// The word of a sign after the capitals.
fn high_sign(c: char) -> &'static str
    ensures { result.now ≡ high_sign c }
{
    match c {
        '[' => "LBRACKET",
        '\\' => "BACKSLASH",
        ']' => "RBRACKET",
        '^' => "CARET",
        '`' => "BACKQUOTE",
        '{' => "LBRACE",
        '|' => "PIPE",
        '}' => "RBRACE",
        '~' => "TILDE",
        _ => "",
    }
}
