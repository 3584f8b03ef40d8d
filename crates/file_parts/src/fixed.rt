//! Fixed texts in which names have a prefix.
ghost use Rattle.std.specs.Prelude.{◌≡◌, ◌++◌, OnOk, string_bytes};
ghost use Rattle.file_parts.specs.Fixed.{fixed_char, fixed_text};

use std::alloc::AllocError;

/// Appends a fixed text. The prefix of names in small letters is in the place of each `@`, and that
/// of names in capitals in the place of each `$`. An error is an allocation failure.
pub fn push_fixed(text: &mut String, fixed: &str, small: &str, big: &str) -> Result<(), AllocError>
    ensures { OnOk result (string_bytes text.new ≡
        string_bytes text.old ++ fixed_text small.now big.now fixed.now) }
{
    for c in fixed.chars() {
        push_char(text, c, small, big)?;
    }
    Ok(())
}

// Appends a character of a fixed text, or the prefix in its place.
fn push_char(text: &mut String, c: char, small: &str, big: &str) -> Result<(), AllocError>
    ensures { OnOk result (string_bytes text.new ≡
        string_bytes text.old ++ fixed_char small.now big.now c) }
{
    match c {
        '@' => text.push_str(small)?,
        '$' => text.push_str(big)?,
        _ => text.push(c)?,
    }
    Ok(())
}
