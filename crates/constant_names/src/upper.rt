//! The words of a text in capitals, with underscores between them.
ghost use Rattle.std.specs.Prelude.{◌≡◌, ◌&&◌, ◌||◌, ◌++◌, OnOk, string_bytes};
ghost use Rattle.constant_names.specs.Upper.{next_upper, separator, upper_from, upper_letters, upper_text};
ghost use Rattle.std.specs.Str.{chars};
ghost use Rattle.constant_names.specs.Words.{begins, is_word_part};

use crate::classes::{begins, has_word, is_letter};
use crate::signs::push_sign;
use std::alloc::AllocError;

/// Appends the words of a text in capitals. They come after other words of the name if `more`. A
/// text without a word has the word `UNDERSCORE`. An error is an allocation failure.
pub fn push_upper(text: &mut String, name: &str, more: bool) -> Result<(), AllocError>
    ensures { OnOk result (string_bytes text.new ≡
        string_bytes text.old ++ upper_text more name.now) }
{
    if has_word(name) {
        return push_words(text, name, more);
    }
    if more {
        text.push_str("_")?;
    }
    text.push_str("UNDERSCORE")?;
    Ok(())
}

// Appends the words of a text.
fn push_words(text: &mut String, name: &str, more: bool) -> Result<(), AllocError>
    ensures { OnOk result (string_bytes text.new ≡
        string_bytes text.old ++ upper_from 95 more (chars name.now)) }
{
    let mut before = '_';
    let mut more = more;
    for c in name.chars() {
        push_next(text, before, more, c)?;
        more = has_begun(more, c);
        before = c;
    }
    Ok(())
}

// Whether there is a word of the name up to a character.
fn has_begun(more: bool, c: char) -> bool
    ensures { result ≡ (more || is_word_part c) }
{
    more || c != '_'
}

// Appends what a character adds after another one, and after words if `more`.
fn push_next(text: &mut String, before: char, more: bool, c: char) -> Result<(), AllocError>
    ensures { OnOk result (string_bytes text.new ≡
        string_bytes text.old ++ next_upper before more c) }
{
    if c == '_' {
        return Ok(());
    }
    push_separator(text, before, more, c)?;
    push_letters(text, c)
}

// Appends an underscore if a character begins a word that comes after others.
fn push_separator(text: &mut String, before: char, more: bool, c: char) -> Result<(), AllocError>
    ensures { OnOk result (string_bytes text.new ≡
        string_bytes text.old ++ separator (more && begins before c)) }
{
    if !more {
        return Ok(());
    }
    if !begins(before, c) {
        return Ok(());
    }
    text.push_str("_")?;
    Ok(())
}

// Appends the letters that a character other than an underscore gives to a name.
fn push_letters(text: &mut String, c: char) -> Result<(), AllocError>
    ensures { OnOk result (string_bytes text.new ≡ string_bytes text.old ++ upper_letters c) }
{
    if is_letter(c) {
        text.push(c.to_ascii_uppercase())?;
        return Ok(());
    }
    push_sign(text, c)
}
