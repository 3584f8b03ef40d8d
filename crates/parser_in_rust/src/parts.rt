//! The parts of a file for Rust that come from a grammar.
ghost use Rattle.std.specs.Prelude.{◌≡◌, [], ◌∷◌, ◌++◌, IfOk, codes, map, string_bytes};
ghost use Rattle.parser_in_rust.specs.Literals.{quoted};
ghost use Rattle.parser_in_rust.specs.Parts.{IsFileOf};
ghost use Rattle.symbol_texts.specs.Texts.{texts_of};

use crate::file::RustFile;
use crate::literals::{quoted, quoted_texts};
use file_parts::parts::Array;
use std::alloc::{AllocError, Global};
use symbol_texts::constants::{nonterminal_constants, production_constants, terminal_constants};
use symbol_texts::grammar::GrammarTexts;
use symbol_texts::style::Style;

/// The file for a grammar, with a comment at its top and with arrays. An error is an allocation
/// failure.
pub fn file_of(
    alloc: Global,
    grammar: &GrammarTexts,
    heading: String,
    arrays: Vec<Array>,
    set_bytes: u32,
) -> Result<RustFile, AllocError>
    ensures { IfOk result (λ file. IsFileOf file grammar.now (string_bytes heading)
        arrays.items set_bytes) }
{
    let terminals = terminal_constants(alloc, Style::Camel, "`", &grammar.terminals)?;
    let nonterminals = nonterminal_constants(alloc, Style::Camel, "`", &grammar.nonterminals)?;
    let productions = production_constants(alloc, Style::Camel, "`", &grammar.productions)?;
    Ok(RustFile {
        heading,
        terminals,
        nonterminals,
        productions,
        terminal_literals: terminal_literals(alloc, &grammar.terminals)?,
        nonterminal_literals: quoted_texts(alloc, &grammar.nonterminals)?,
        arrays,
        set_bytes,
    })
}

// The literals of the texts of terminals, and that of the end of the input.
fn terminal_literals(alloc: Global, terminals: &[String]) -> Result<Vec<String>, AllocError>
    ensures { IfOk result (λ literals. texts_of literals.items ≡
        map quoted (texts_of terminals.now) ++ quoted (codes "end of input") ∷ []) }
{
    let mut literals = quoted_texts(alloc, terminals)?;
    literals.push(quoted(alloc, "end of input")?)?;
    Ok(literals)
}
