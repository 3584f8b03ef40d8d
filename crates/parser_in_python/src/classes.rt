//! The classes of constants of a file for Python.
ghost use Rattle.std.specs.Prelude.{◌≡◌, ◌++◌, OnOk, string_bytes};
ghost use Rattle.parser_in_python.specs.Classes.{classes_text, member_line, members_from};

use crate::file::PythonFile;
use file_parts::parts::Constant;
use std::alloc::AllocError;

/// The lines before the terminals.
pub(crate) const BEFORE_TERMINALS: &str = r##"
import sys
from collections.abc import Iterable
from enum import IntEnum
from typing import Optional, Protocol


class Terminal(IntEnum):
    """A terminal, or the end of the input."""

"##;

/// The lines between the terminals and the nonterminals.
pub(crate) const BEFORE_NONTERMINALS: &str = r##"
    @property
    def text(self) -> str:
        """Its text."""
        return _TERMINAL_TEXTS[self]


class Nonterminal(IntEnum):
    """A nonterminal."""

"##;

/// The lines between the nonterminals and the productions.
pub(crate) const BEFORE_PRODUCTIONS: &str = r##"
    @property
    def text(self) -> str:
        """Its name."""
        return _NONTERMINAL_TEXTS[self]


class Production(IntEnum):
    """A production."""

"##;

/// The lines after the productions.
pub(crate) const AFTER_PRODUCTIONS: &str = r##"
    @property
    def left(self) -> Nonterminal:
        """The nonterminal on its left side."""
        return Nonterminal(_LEFT[self])

    @property
    def length(self) -> int:
        """How many symbols its right side has."""
        return _LENGTH[self]


"##;

/// Appends the classes of terminals, nonterminals and productions.
pub(crate) fn push_classes(text: &mut String, file: &PythonFile) -> Result<(), AllocError>
    ensures { OnOk result (string_bytes text.new ≡
        string_bytes text.old ++ classes_text file.now) }
{
    text.push_str(BEFORE_TERMINALS)?;
    push_members(text, &file.terminals)?;
    text.push_str(BEFORE_NONTERMINALS)?;
    push_members(text, &file.nonterminals)?;
    text.push_str(BEFORE_PRODUCTIONS)?;
    push_members(text, &file.productions)?;
    text.push_str(AFTER_PRODUCTIONS)?;
    Ok(())
}

// Appends the lines of constants.
fn push_members(text: &mut String, constants: &[Constant]) -> Result<(), AllocError>
    ensures { OnOk result (string_bytes text.new ≡
        string_bytes text.old ++ members_from 0 constants.now) }
{
    for (number, constant) in constants.iter().enumerate() {
        push_member(text, number, constant)?;
    }
    Ok(())
}

// Appends the line of a constant with its number.
fn push_member(text: &mut String, number: usize, constant: &Constant) -> Result<(), AllocError>
    ensures { OnOk result (string_bytes text.new ≡
        string_bytes text.old ++ member_line number constant.now) }
{
    text.push_str("    ")?;
    text.push_str(&constant.name)?;
    write!(text, " = {number}  # ")?;
    text.push_str(&constant.comment)?;
    text.push_str("\n")?;
    Ok(())
}
