//! What a file for C has, and its text.
ghost use Rattle.std.specs.Prelude.{◌≡◌, ◌++◌, OnOk, string_bytes};
ghost use Rattle.parser_in_c.specs.Arrays.{tables_text};
ghost use Rattle.parser_in_c.specs.Enumerations.{counts_text, enumeration_text, literals_text};
ghost use Rattle.parser_in_c.specs.File.{constants_text, file_text};

use crate::arrays::push_tables;
use crate::driver::DRIVER;
use crate::enumerations::{push_counts, push_enumeration, push_literals};
use crate::lookup::{INTERFACE, LOOKUP};
use file_parts::fixed::push_fixed;
use file_parts::parts::{Array, Constant};
use std::alloc::{AllocError, Global};

/// What a file for C has. Names have no prefix. The last terminal is the end of the input.
#[derive(Debug, Drop)]
pub struct CFile {
    /// The comment at the top, with the line ends.
    pub heading: String,
    /// The prefixes of names, in small letters and in capitals.
    pub small: String,
    pub big: String,
    pub terminals: Vec<Constant>,
    pub nonterminals: Vec<Constant>,
    pub productions: Vec<Constant>,
    /// The texts of the terminals and the names of the nonterminals, as literals.
    pub terminal_literals: Vec<String>,
    pub nonterminal_literals: Vec<String>,
    pub arrays: Vec<Array>,
    /// How many bytes a set of terminals has.
    pub set_bytes: u32,
}

/// Appends the text of a file. An error is an allocation failure.
pub fn push_file(alloc: Global, text: &mut String, file: &CFile) -> Result<(), AllocError>
    ensures { OnOk result (string_bytes text.new ≡ string_bytes text.old ++ file_text file.now) }
{
    text.push_str(&file.heading)?;
    push_fixed(
        text,
        "\n#ifndef $TABLES\n#define $TABLES\n\n#include <stddef.h>\n#include <stdint.h>\n\n",
        &file.small,
        &file.big,
    )?;
    push_constants(text, file)?;
    push_tables(alloc, text, &file.small, &file.arrays)?;
    push_fixed(text, LOOKUP, &file.small, &file.big)?;
    text.push_str("\n")?;
    push_fixed(text, INTERFACE, &file.small, &file.big)?;
    text.push_str("\n")?;
    push_fixed(text, DRIVER, &file.small, &file.big)?;
    text.push_str("\n#endif\n")?;
    Ok(())
}

// Appends the constants and the texts of symbols.
fn push_constants(text: &mut String, file: &CFile) -> Result<(), AllocError>
    ensures { OnOk result (string_bytes text.new ≡
        string_bytes text.old ++ constants_text file.now) }
{
    push_enumeration(text, file, "terminal", "T_", &file.terminals)?;
    push_enumeration(text, file, "nonterminal", "N_", &file.nonterminals)?;
    push_enumeration(text, file, "production", "P_", &file.productions)?;
    push_counts(text, file)?;
    push_literals(
        text,
        file,
        "terminal_texts",
        "the text of a terminal",
        &file.terminal_literals,
    )?;
    push_literals(
        text,
        file,
        "nonterminal_texts",
        "the name of a nonterminal",
        &file.nonterminal_literals,
    )?;
    Ok(())
}
