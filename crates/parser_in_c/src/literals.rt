//! Texts as literals of C.
ghost use Rattle.std.specs.Prelude.{◌≡◌, ◌++◌, IfOk, OnOk, map, string_bytes};
ghost use Rattle.std.specs.List.{flat_map};
ghost use Rattle.parser_in_c.specs.Literals.{byte_text, quoted};
ghost use Rattle.symbol_texts.specs.Texts.{texts_of};

use std::alloc::{AllocError, Global};

/// The literals of texts. An error is an allocation failure.
pub(crate) fn quoted_texts(alloc: Global, texts: &[String]) -> Result<Vec<String>, AllocError>
    ensures { IfOk result (λ literals. texts_of literals.items ≡
        map quoted (texts_of texts.now)) }
{
    let mut literals = Vec::new(alloc);
    for text in texts {
        literals.push(quoted(alloc, text)?)?;
    }
    Ok(literals)
}

/// The literal of a text. An error is an allocation failure.
pub(crate) fn quoted(alloc: Global, text: &str) -> Result<String, AllocError>
    ensures { IfOk result (λ literal. string_bytes literal ≡ quoted text.now) }
{
    let mut literal = String::from_str(alloc, "\"")?;
    push_bytes(&mut literal, text.as_bytes())?;
    literal.push_str("\"")?;
    Ok(literal)
}

// Appends bytes as a literal has them.
fn push_bytes(literal: &mut String, bytes: &[u8]) -> Result<(), AllocError>
    ensures { OnOk result (string_bytes literal.new ≡
        string_bytes literal.old ++ flat_map byte_text bytes.now) }
{
    for byte in bytes {
        push_byte(literal, *byte)?;
    }
    Ok(())
}

// Appends a byte as a literal has it. A question mark has a backslash, since two may begin a
// trigraph.
fn push_byte(literal: &mut String, byte: u8) -> Result<(), AllocError>
    ensures { OnOk result (string_bytes literal.new ≡
        string_bytes literal.old ++ byte_text byte) }
{
    if byte < 32 || byte > 126 {
        write!(literal, "\\{}{}{}", byte / 64, byte / 8 % 8, byte % 8)?;
        return Ok(());
    }
    if byte == b'"' || byte == b'?' || byte == b'\\' {
        literal.push_str("\\")?;
    }
    literal.push(char::from(byte))?;
    Ok(())
}
