//! The lists of constants and of texts of a file for Rust.
ghost use Rattle.std.specs.Prelude.{◌≡◌, ◌++◌, OnOk, string_bytes};
ghost use Rattle.std.specs.List.{flat_map};
ghost use Rattle.parser_in_rust.specs.Lists.{list_head, literal_line, literals_text, member_line, members_text};

use file_parts::parts::Constant;
use std::alloc::AllocError;

/// Appends the list of all constants of a kind.
pub(crate) fn push_members(
    text: &mut String,
    comment: &str,
    name: &str,
    kind: &str,
    constants: &[Constant],
) -> Result<(), AllocError>
    ensures { OnOk result (string_bytes text.new ≡
        string_bytes text.old ++ members_text comment.now name.now kind.now constants.now) }
{
    text.push_str("/// ")?;
    text.push_str(comment)?;
    text.push_str(", by number\n#[rustfmt::skip]\npub static ")?;
    push_head(text, name, kind, constants.len())?;
    push_member_lines(text, kind, constants)?;
    text.push_str("];\n\n")?;
    Ok(())
}

// Appends the name and the type of a list.
fn push_head(text: &mut String, name: &str, kind: &str, len: usize) -> Result<(), AllocError>
    ensures { OnOk result (string_bytes text.new ≡
        string_bytes text.old ++ list_head name.now kind.now len) }
{
    text.push_str(name)?;
    text.push_str(": [")?;
    text.push_str(kind)?;
    write!(text, "; {len}] = [\n")?;
    Ok(())
}

// Appends the lines of the constants of a kind.
fn push_member_lines(
    text: &mut String,
    kind: &str,
    constants: &[Constant],
) -> Result<(), AllocError>
    ensures { OnOk result (string_bytes text.new ≡
        string_bytes text.old ++ flat_map (member_line kind.now) constants.now) }
{
    for constant in constants {
        push_member(text, kind, constant)?;
    }
    Ok(())
}

// Appends the line of a constant of a kind.
fn push_member(text: &mut String, kind: &str, constant: &Constant) -> Result<(), AllocError>
    ensures { OnOk result (string_bytes text.new ≡
        string_bytes text.old ++ member_line kind.now constant.now) }
{
    text.push_str("    ")?;
    text.push_str(kind)?;
    text.push_str("::")?;
    text.push_str(&constant.name)?;
    text.push_str(",\n")?;
    Ok(())
}

/// Appends a list of texts, of which the literals are given.
pub(crate) fn push_literals(
    text: &mut String,
    comment: &str,
    name: &str,
    literals: &[String],
) -> Result<(), AllocError>
    ensures { OnOk result (string_bytes text.new ≡
        string_bytes text.old ++ literals_text comment.now name.now literals.now) }
{
    text.push_str("/// ")?;
    text.push_str(comment)?;
    text.push_str("\n#[rustfmt::skip]\nstatic ")?;
    push_head(text, name, "&str", literals.len())?;
    push_literal_lines(text, literals)?;
    text.push_str("];\n\n")?;
    Ok(())
}

// Appends the lines of literals.
fn push_literal_lines(text: &mut String, literals: &[String]) -> Result<(), AllocError>
    ensures { OnOk result (string_bytes text.new ≡
        string_bytes text.old ++ flat_map literal_line literals.now) }
{
    for literal in literals {
        push_literal(text, literal)?;
    }
    Ok(())
}

// Appends the line of a literal.
fn push_literal(text: &mut String, literal: &String) -> Result<(), AllocError>
    ensures { OnOk result (string_bytes text.new ≡
        string_bytes text.old ++ literal_line literal.now) }
{
    text.push_str("    ")?;
    text.push_str(literal)?;
    text.push_str(",\n")?;
    Ok(())
}
