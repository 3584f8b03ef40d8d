//! Escaping texts of a grammar for XML and HTML.
ghost use Rattle.std.specs.Prelude.{◌≡◌, ◌++◌, OnOk, count_by, string_bytes};
ghost use Rattle.table_pictures.specs.Escape.{inert, is_markup, is_opening, line_char, pictured, pictured_lines, pictured_text, xml_char, xml_text};

use lalrpop_base::memory::OutOfMemory;

/// Appends a text as XML, for a label of Graphviz. A control character is shown by its picture. One
/// without a picture, or a character that XML does not have, is shown by U+FFFD. A backslash is
/// written twice, since Graphviz replaces some letters after a backslash by other texts.
pub(crate) fn push_xml(text: &mut String, shown: &str) -> Result<(), OutOfMemory>
    ensures text { OnOk result
        (string_bytes text.new ≡ string_bytes text.old ++ xml_text shown.now) }
    ensures no_markup { OnOk result (count_by is_markup (string_bytes text.new) ≡ count_by is_markup
        (string_bytes text.old)) }
{
    for c in shown.chars() {
        push_xml_char(text, c)?;
    }
    Ok(())
}

// Appends a character as XML, for a label of Graphviz.
fn push_xml_char(text: &mut String, c: char) -> Result<(), OutOfMemory>
    ensures { OnOk result (string_bytes text.new ≡ string_bytes text.old ++ xml_char c) }
{
    match c {
        '&' => text.push_str("&amp;")?,
        '<' => text.push_str("&lt;")?,
        '>' => text.push_str("&gt;")?,
        '"' => text.push_str("&quot;")?,
        '\\' => text.push_str("\\\\")?,
        '\u{FFFE}' | '\u{FFFF}' => text.push('\u{FFFD}')?,
        _ => text.push(visible(c))?,
    }
    Ok(())
}

/// Appends a text with each control character shown by its picture.
pub fn push_visible(text: &mut String, shown: &str) -> Result<(), OutOfMemory>
    ensures { OnOk result (string_bytes text.new ≡ string_bytes text.old ++ pictured_text shown.now) }
{
    for c in shown.chars() {
        text.push(visible(c))?;
    }
    Ok(())
}

/// Appends a text of several lines with each control character shown by its picture. The ends of
/// lines stay.
pub fn push_visible_lines(text: &mut String, shown: &str) -> Result<(), OutOfMemory>
    ensures { OnOk result
        (string_bytes text.new ≡ string_bytes text.old ++ pictured_lines shown.now) }
{
    for c in shown.chars() {
        push_line_char(text, c)?;
    }
    Ok(())
}

// Appends the end of a line, or another character as it is shown.
fn push_line_char(text: &mut String, c: char) -> Result<(), OutOfMemory>
    ensures { OnOk result (string_bytes text.new ≡ string_bytes text.old ++ line_char c) }
{
    match c {
        '\n' => text.push_str("\n")?,
        _ => text.push(visible(c))?,
    }
    Ok(())
}

/// The picture of a control character, or any other character as it is. U+FFFD is the picture of the
/// control characters from U+0080 on.
pub fn visible(c: char) -> char
    ensures { result ≡ pictured c }
{
    let code = c as u32;
    if code < 32 {
        return char::from_u32(0x2400 + code).unwrap_or('\u{FFFD}');
    }
    if code == 127 {
        return '\u{2421}';
    }
    if code >= 128 && code < 160 {
        return '\u{FFFD}';
    }
    c
}

/// Appends a JSON text so that no part of it begins or ends an element of HTML. In JSON `<` is only
/// in strings, and `\u003c` means the same there.
pub(crate) fn push_inert(text: &mut String, json: &str) -> Result<(), OutOfMemory>
    ensures text { OnOk result
        (string_bytes text.new ≡ string_bytes text.old ++ inert json.now) }
    ensures no_opening { OnOk result (count_by is_opening (string_bytes text.new) ≡ count_by
        is_opening (string_bytes text.old)) }
{
    let mut rest = json;
    while let Some((before, behind)) = rest.split_once('<') {
        text.push_str(before)?;
        text.push_str("\\u003c")?;
        rest = behind;
    }
    text.push_str(rest)?;
    Ok(())
}
