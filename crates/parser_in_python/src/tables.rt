//! The texts of symbols and the arrays of a file for Python.
ghost use Rattle.std.specs.Prelude.{◌≡◌, ◌++◌, OnOk, string_bytes};
ghost use Rattle.std.specs.List.{flat_map};
ghost use Rattle.parser_in_python.specs.Tables.{array_text, literal_line, tables_text};

use crate::file::PythonFile;
use file_parts::numbers::push_numbers;
use file_parts::parts::Array;
use std::alloc::{AllocError, Global};

/// The lines before the texts of terminals.
pub(crate) const BEFORE_TERMINAL_TEXTS: &str = r##"# fmt: off
# the texts of the terminals
_TERMINAL_TEXTS: tuple[str, ...] = (
"##;

/// The lines between these and the names of nonterminals.
pub(crate) const BEFORE_NONTERMINAL_TEXTS: &str = r##")
# the names of the nonterminals
_NONTERMINAL_TEXTS: tuple[str, ...] = (
"##;

/// The lines between the arrays and the number of bytes of a set.
pub(crate) const AFTER_ARRAYS: &str = r##"# fmt: on
# how many bytes a set has
_SET_BYTES = "##;

/// The lines after that number.
pub(crate) const AFTER_SET_BYTES: &str = r##"
_TERMINALS = tuple(Terminal)
_PRODUCTIONS = tuple(Production)


"##;

/// Appends the texts of symbols and the arrays.
pub(crate) fn push_tables(
    alloc: Global,
    text: &mut String,
    file: &PythonFile,
) -> Result<(), AllocError>
    ensures { OnOk result (string_bytes text.new ≡ string_bytes text.old ++ tables_text file.now) }
{
    text.push_str(BEFORE_TERMINAL_TEXTS)?;
    push_literals(text, &file.terminal_literals)?;
    text.push_str(BEFORE_NONTERMINAL_TEXTS)?;
    push_literals(text, &file.nonterminal_literals)?;
    text.push_str(")\n")?;
    push_arrays(alloc, text, &file.arrays)?;
    text.push_str(AFTER_ARRAYS)?;
    write!(text, "{}", file.set_bytes)?;
    text.push_str(AFTER_SET_BYTES)?;
    Ok(())
}

// Appends the lines of literals.
fn push_literals(text: &mut String, literals: &[String]) -> Result<(), AllocError>
    ensures { OnOk result (string_bytes text.new ≡
        string_bytes text.old ++ flat_map literal_line literals.now) }
{
    for literal in literals {
        push_literal(text, literal)?;
    }
    Ok(())
}

// Appends the line of a literal.
fn push_literal(text: &mut String, literal: &String) -> Result<(), AllocError>
    ensures { OnOk result (string_bytes text.new ≡
        string_bytes text.old ++ literal_line literal.now) }
{
    text.push_str("    ")?;
    text.push_str(literal)?;
    text.push_str(",\n")?;
    Ok(())
}

// Appends arrays.
fn push_arrays(alloc: Global, text: &mut String, arrays: &[Array]) -> Result<(), AllocError>
    ensures { OnOk result (string_bytes text.new ≡
        string_bytes text.old ++ flat_map array_text arrays.now) }
{
    for array in arrays {
        push_array(alloc, text, array)?;
    }
    Ok(())
}

// Appends an array with its comment.
fn push_array(alloc: Global, text: &mut String, array: &Array) -> Result<(), AllocError>
    ensures { OnOk result (string_bytes text.new ≡ string_bytes text.old ++ array_text array.now) }
{
    text.push_str("# ")?;
    text.push_str(&array.comment)?;
    text.push_str("\n_")?;
    text.push_str(&array.name)?;
    text.push_str(": tuple[int, ...] = (\n")?;
    push_numbers(alloc, text, "    ", &array.numbers)?;
    text.push_str(")\n")?;
    Ok(())
}
