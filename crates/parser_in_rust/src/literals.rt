//! Texts as literals of Rust.
ghost use Rattle.std.specs.Prelude.{◌≡◌, ◌++◌, IfOk, OnOk, map, string_bytes};
ghost use Rattle.std.specs.List.{flat_map};
ghost use Rattle.std.specs.Str.{chars};
ghost use Rattle.parser_in_rust.specs.Literals.{char_text, quoted};
ghost use Rattle.symbol_texts.specs.Texts.{texts_of};

use std::alloc::{AllocError, Global};
use symbol_texts::comments::push_visible_char;

/// The literals of texts. An error is an allocation failure.
pub(crate) fn quoted_texts(alloc: Global, texts: &[String]) -> Result<Vec<String>, AllocError>
    ensures { IfOk result (λ literals. texts_of literals.items ≡
        map quoted (texts_of texts.now)) }
{
    let mut literals = Vec::new(alloc);
    for text in texts {
        literals.push(quoted(alloc, text)?)?;
    }
    Ok(literals)
}

/// The literal of a text. An error is an allocation failure.
pub(crate) fn quoted(alloc: Global, text: &str) -> Result<String, AllocError>
    ensures { IfOk result (λ literal. string_bytes literal ≡ quoted text.now) }
{
    let mut literal = String::from_str(alloc, "\"")?;
    push_chars(&mut literal, text)?;
    literal.push_str("\"")?;
    Ok(literal)
}

// Appends the characters of a text as a literal has them.
fn push_chars(literal: &mut String, text: &str) -> Result<(), AllocError>
    ensures { OnOk result (string_bytes literal.new ≡
        string_bytes literal.old ++ flat_map char_text (chars text.now)) }
{
    for c in text.chars() {
        push_char(literal, c)?;
    }
    Ok(())
}

// Appends a character as a literal has it.
fn push_char(literal: &mut String, c: char) -> Result<(), AllocError>
    ensures { OnOk result (string_bytes literal.new ≡ string_bytes literal.old ++ char_text c) }
{
    if c == '"' || c == '\\' {
        literal.push_str("\\")?;
        literal.push(c)?;
        return Ok(());
    }
    push_visible_char(literal, c)
}
