//! The words of a text, each of which begins with a capital.
ghost use Rattle.std.specs.Prelude.{◌≡◌, ◌++◌, OnOk, string_bytes};
ghost use Rattle.std.specs.Str.{chars};
ghost use Rattle.constant_names.specs.Camel.{camel_from, camel_letters, camel_text, next_camel};

use crate::camel_signs::push_sign;
use crate::classes::{begins, has_word, is_letter};
use std::alloc::AllocError;

/// Appends the words of a text. Each begins with a capital, and its other letters are small. A text
/// without a word has the word `Underscore`. An error is an allocation failure.
pub fn push_camel(text: &mut String, name: &str) -> Result<(), AllocError>
    ensures { OnOk result (string_bytes text.new ≡
        string_bytes text.old ++ camel_text name.now) }
{
    if has_word(name) {
        return push_words(text, name);
    }
    text.push_str("Underscore")?;
    Ok(())
}

// Appends the words of a text.
fn push_words(text: &mut String, name: &str) -> Result<(), AllocError>
    ensures { OnOk result (string_bytes text.new ≡
        string_bytes text.old ++ camel_from 95 (chars name.now)) }
{
    let mut before = '_';
    for c in name.chars() {
        push_next(text, before, c)?;
        before = c;
    }
    Ok(())
}

// Appends what a character adds after another one.
fn push_next(text: &mut String, before: char, c: char) -> Result<(), AllocError>
    ensures { OnOk result (string_bytes text.new ≡ string_bytes text.old ++ next_camel before c) }
{
    if c == '_' {
        return Ok(());
    }
    push_letters(text, begins(before, c), c)
}

// Appends the letters that a character other than an underscore gives to a name, at the beginning
// of a word or in it.
fn push_letters(text: &mut String, is_first: bool, c: char) -> Result<(), AllocError>
    ensures { OnOk result (string_bytes text.new ≡
        string_bytes text.old ++ camel_letters is_first c) }
{
    if !is_letter(c) {
        return push_sign(text, c);
    }
    if is_first {
        text.push(c.to_ascii_uppercase())?;
    } else {
        text.push(c.to_ascii_lowercase())?;
    }
    Ok(())
}
