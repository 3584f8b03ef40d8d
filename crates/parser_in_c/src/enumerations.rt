//! The constants of a file for C, and the texts of symbols.
ghost use Rattle.std.specs.Prelude.{◌≡◌, ◌++◌, List, OnOk, string_bytes};
ghost use Rattle.std.specs.List.{flat_map};
ghost use Rattle.parser_in_c.specs.Enumerations.{comma_before, counts_text, enumeration_text, literal_line, literals_text, member_line, members_text};

use crate::file::CFile;
use file_parts::fixed::push_fixed;
use file_parts::parts::Constant;
use std::alloc::AllocError;

/// Appends an enumeration of constants.
pub(crate) fn push_enumeration(
    text: &mut String,
    file: &CFile,
    kind: &str,
    letter: &str,
    constants: &[Constant],
) -> Result<(), AllocError>
    ensures { OnOk result (string_bytes text.new ≡
        string_bytes text.old ++ enumeration_text file.now kind.now letter.now constants.now) }
{
    text.push_str("typedef enum {\n")?;
    push_members(text, &file.big, letter, constants)?;
    text.push_str("} ")?;
    text.push_str(&file.small)?;
    text.push_str(kind)?;
    text.push_str(";\n\n")?;
    Ok(())
}

// Appends the lines of constants, with a comma after each but the last.
fn push_members(
    text: &mut String,
    big: &str,
    letter: &str,
    constants: &[Constant],
) -> Result<(), AllocError>
    ensures { OnOk result (string_bytes text.new ≡
        string_bytes text.old ++ members_text big.now letter.now constants.now) }
{
    for (number, constant) in constants.iter().enumerate() {
        let comma = comma_before(&constants[number + 1..]);
        push_member(text, big, letter, constant, comma)?;
    }
    Ok(())
}

// The comma before further constants, or nothing if there are none.
fn comma_before(rest: &[Constant]) -> &'static str
    ensures { result.now ≡ comma_before rest.now }
{
    if rest.is_empty() { "" } else { "," }
}

// Appends the line of a constant.
fn push_member(
    text: &mut String,
    big: &str,
    letter: &str,
    constant: &Constant,
    comma: &str,
) -> Result<(), AllocError>
    ensures { OnOk result (string_bytes text.new ≡
        string_bytes text.old ++ member_line big.now letter.now comma.now constant.now) }
{
    text.push_str("    ")?;
    text.push_str(big)?;
    text.push_str(letter)?;
    text.push_str(&constant.name)?;
    text.push_str(comma)?;
    text.push_str(" // ")?;
    text.push_str(&constant.comment)?;
    text.push_str("\n")?;
    Ok(())
}

/// Appends how many terminals and productions there are, and how many bytes a set has.
pub(crate) fn push_counts(text: &mut String, file: &CFile) -> Result<(), AllocError>
    ensures { OnOk result (string_bytes text.new ≡ string_bytes text.old ++ counts_text file.now) }
{
    push_fixed(text, "enum {\n    $TERMINALS = ", &file.small, &file.big)?;
    write!(text, "{}", file.terminals.len())?;
    push_fixed(text, ",\n    $PRODUCTIONS = ", &file.small, &file.big)?;
    write!(text, "{}", file.productions.len())?;
    push_fixed(text, ",\n    $SET_BYTES = ", &file.small, &file.big)?;
    write!(text, "{}", file.set_bytes)?;
    text.push_str("\n};\n\n")?;
    Ok(())
}

/// Appends an array of literals.
pub(crate) fn push_literals(
    text: &mut String,
    file: &CFile,
    name: &str,
    comment: &str,
    literals: &[String],
) -> Result<(), AllocError>
    ensures { OnOk result (string_bytes text.new ≡
        string_bytes text.old ++ literals_text file.now name.now comment.now literals.now) }
{
    text.push_str("// ")?;
    text.push_str(comment)?;
    text.push_str("\nstatic const char *const ")?;
    text.push_str(&file.small)?;
    text.push_str(name)?;
    text.push_str("[] = {\n")?;
    push_literal_lines(text, literals)?;
    text.push_str("};\n\n")?;
    Ok(())
}

// Appends the lines of literals.
fn push_literal_lines(text: &mut String, literals: &[String]) -> Result<(), AllocError>
    ensures { OnOk result (string_bytes text.new ≡
        string_bytes text.old ++ flat_map literal_line literals.now) }
{
    for literal in literals {
        push_literal(text, literal)?;
    }
    Ok(())
}

// Appends the line of a literal.
fn push_literal(text: &mut String, literal: &String) -> Result<(), AllocError>
    ensures { OnOk result (string_bytes text.new ≡
        string_bytes text.old ++ literal_line literal.now) }
{
    text.push_str("    ")?;
    text.push_str(literal)?;
    text.push_str(",\n")?;
    Ok(())
}
