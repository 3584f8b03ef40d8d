//! Texts between quotes, for Graphviz.
ghost use Rattle.std.specs.Prelude.{◌≡◌, ◌++◌, OnOk, string_bytes};
ghost use Rattle.parse_pictures.specs.TreeGraphs.{quoted_char, quoted_text};

use lalrpop_collections::memory::OutOfMemory;
use table_pictures::escape::visible;

/// Appends a text as it is between quotes of a label. A control character is shown by its picture,
/// and `&` by its name, since Graphviz reads the names of characters.
pub(crate) fn push_quoted(text: &mut String, shown: &str) -> Result<(), OutOfMemory>
    ensures { OnOk result
        (string_bytes text.new ≡ string_bytes text.old ++ quoted_text shown.now) }
{
    for c in shown.chars() {
        push_quoted_char(text, c)?;
    }
    Ok(())
}

// Appends a character as it is between quotes of a label.
fn push_quoted_char(text: &mut String, c: char) -> Result<(), OutOfMemory>
    ensures { OnOk result (string_bytes text.new ≡ string_bytes text.old ++ quoted_char c) }
{
    match c {
        '"' => text.push_str("\\\"")?,
        '\\' => text.push_str("\\\\")?,
        '&' => text.push_str("&amp;")?,
        '\u{FFFE}' | '\u{FFFF}' => text.push('\u{FFFD}')?,
        _ => text.push(visible(c))?,
    }
    Ok(())
}
