//! What a file for Rust has, and its text.
ghost use Rattle.std.specs.Prelude.{◌≡◌, ◌++◌, OnOk, string_bytes};
ghost use Rattle.parser_in_rust.specs.File.{constants_text, file_text};

use crate::arrays::push_tables;
use crate::driver::DRIVER;
use crate::enumerations::push_enumeration;
use crate::interface::{INTERFACE, LOOKUP};
use crate::lists::{push_literals, push_members};
use file_parts::parts::{Array, Constant};
use std::alloc::{AllocError, Global};

/// The lines before the enumerations.
pub(crate) const HEAD: &str = r##"
#![allow(dead_code, non_camel_case_types, clippy::all)]
#![forbid(unsafe_code)]

extern crate alloc;

use alloc::format;
use alloc::string::String;
use alloc::vec::Vec;

"##;

/// What a file for Rust has. The last terminal is the end of the input. Comments of symbols and
/// productions are code, so they have backquotes.
#[derive(Debug, Drop)]
pub struct RustFile {
    /// The comment at the top, with the line ends.
    pub heading: String,
    pub terminals: Vec<Constant>,
    pub nonterminals: Vec<Constant>,
    pub productions: Vec<Constant>,
    /// The texts of the terminals and the names of the nonterminals, as literals.
    pub terminal_literals: Vec<String>,
    pub nonterminal_literals: Vec<String>,
    pub arrays: Vec<Array>,
    /// How many bytes a set of terminals has.
    pub set_bytes: u32,
}

/// Appends the text of a file. An error is an allocation failure.
pub fn push_file(alloc: Global, text: &mut String, file: &RustFile) -> Result<(), AllocError>
    ensures { OnOk result (string_bytes text.new ≡ string_bytes text.old ++ file_text file.now) }
{
    text.push_str(&file.heading)?;
    text.push_str(HEAD)?;
    push_constants(text, file)?;
    text.push_str("/// how many bytes a set has\nconst SET_BYTES: usize = ")?;
    write!(text, "{}", file.set_bytes)?;
    text.push_str(";\n\n")?;
    push_tables(alloc, text, &file.arrays)?;
    text.push_str(LOOKUP)?;
    text.push_str("\n")?;
    text.push_str(INTERFACE)?;
    text.push_str("\n")?;
    text.push_str(DRIVER)?;
    Ok(())
}

// Appends the constants, the lists of them, and the texts of symbols.
fn push_constants(text: &mut String, file: &RustFile) -> Result<(), AllocError>
    ensures { OnOk result (string_bytes text.new ≡
        string_bytes text.old ++ constants_text file.now) }
{
    push_enumeration(
        text,
        "A terminal, or the end of the input.",
        "Terminal",
        &file.terminals,
    )?;
    push_enumeration(text, "A nonterminal.", "Nonterminal", &file.nonterminals)?;
    push_enumeration(text, "A production.", "Production", &file.productions)?;
    push_members(
        text,
        "the terminals",
        "TERMINALS",
        "Terminal",
        &file.terminals,
    )?;
    push_members(
        text,
        "the nonterminals",
        "NONTERMINALS",
        "Nonterminal",
        &file.nonterminals,
    )?;
    push_members(
        text,
        "the productions",
        "PRODUCTIONS",
        "Production",
        &file.productions,
    )?;
    push_literals(
        text,
        "the text of a terminal",
        "TERMINAL_TEXTS",
        &file.terminal_literals,
    )?;
    push_literals(
        text,
        "the name of a nonterminal",
        "NONTERMINAL_TEXTS",
        &file.nonterminal_literals,
    )?;
    Ok(())
}
