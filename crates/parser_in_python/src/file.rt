//! What a file for Python has, and its text.
ghost use Rattle.std.specs.Prelude.{◌≡◌, ◌++◌, OnOk, string_bytes};
ghost use Rattle.parser_in_python.specs.File.{file_text};

use crate::classes::push_classes;
use crate::driver::{DRIVER, LOOKUP};
use crate::tables::push_tables;
use file_parts::parts::{Array, Constant};
use std::alloc::{AllocError, Global};

/// What a file for Python has. The last terminal is the end of the input. Names of arrays are in
/// capitals.
#[derive(Debug, Drop)]
pub struct PythonFile {
    /// The comment at the top, with the line ends.
    pub heading: String,
    pub terminals: Vec<Constant>,
    pub nonterminals: Vec<Constant>,
    pub productions: Vec<Constant>,
    /// The texts of the terminals and the names of the nonterminals, as literals.
    pub terminal_literals: Vec<String>,
    pub nonterminal_literals: Vec<String>,
    pub arrays: Vec<Array>,
    /// How many bytes a set of terminals has.
    pub set_bytes: u32,
}

/// Appends the text of a file. An error is an allocation failure.
pub fn push_file(alloc: Global, text: &mut String, file: &PythonFile) -> Result<(), AllocError>
    ensures { OnOk result (string_bytes text.new ≡ string_bytes text.old ++ file_text file.now) }
{
    text.push_str(&file.heading)?;
    push_classes(text, file)?;
    push_tables(alloc, text, file)?;
    text.push_str(LOOKUP)?;
    text.push_str("\n\n")?;
    text.push_str(DRIVER)?;
    Ok(())
}
