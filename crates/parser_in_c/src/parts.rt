//! The parts of a file for C that come from a grammar.
ghost use Rattle.std.specs.Prelude.{◌≡◌, [], ◌∷◌, ◌++◌, IfOk, codes, map, string_bytes};
ghost use Rattle.parser_in_c.specs.Literals.{quoted};
ghost use Rattle.parser_in_c.specs.Parts.{IsFileOf};
ghost use Rattle.std.specs.Str.{str_to_ascii_uppercase};
ghost use Rattle.symbol_texts.specs.Texts.{texts_of};

use crate::file::CFile;
use crate::literals::{quoted, quoted_texts};
use file_parts::parts::Array;
use std::alloc::{AllocError, Global};
use symbol_texts::constants::{nonterminal_constants, production_constants, terminal_constants};
use symbol_texts::grammar::GrammarTexts;
use symbol_texts::style::Style;

/// The file for a grammar, with a comment at its top, with names that begin with a prefix, and with
/// arrays. An error is an allocation failure.
pub fn file_of(
    alloc: Global,
    grammar: &GrammarTexts,
    heading: String,
    prefix: &str,
    arrays: Vec<Array>,
    set_bytes: u32,
) -> Result<CFile, AllocError>
    ensures { IfOk result (λ file. IsFileOf file grammar.now (string_bytes heading) prefix.now
        arrays.items set_bytes) }
{
    let terminals = terminal_constants(alloc, Style::Capitals, "", &grammar.terminals)?;
    let nonterminals = nonterminal_constants(alloc, Style::Capitals, "", &grammar.nonterminals)?;
    let productions = production_constants(alloc, Style::Capitals, "", &grammar.productions)?;
    Ok(CFile {
        heading,
        small: small_prefix(alloc, prefix)?,
        big: big_prefix(alloc, prefix)?,
        terminals,
        nonterminals,
        productions,
        terminal_literals: terminal_literals(alloc, &grammar.terminals)?,
        nonterminal_literals: quoted_texts(alloc, &grammar.nonterminals)?,
        arrays,
        set_bytes,
    })
}

// The prefix of names in small letters: as it is given, and an underscore.
fn small_prefix(alloc: Global, prefix: &str) -> Result<String, AllocError>
    ensures { IfOk result (λ name. string_bytes name ≡ prefix.now ++ codes "_") }
{
    let mut name = String::from_str(alloc, prefix)?;
    name.push_str("_")?;
    Ok(name)
}

// The prefix of names in capitals: the capitals of what is given, and an underscore.
fn big_prefix(alloc: Global, prefix: &str) -> Result<String, AllocError>
    ensures { IfOk result (λ name. string_bytes name ≡
        str_to_ascii_uppercase prefix.now ++ codes "_") }
{
    let mut name = String::from_str(alloc, prefix)?;
    name.make_ascii_uppercase();
    name.push_str("_")?;
    Ok(name)
}

// The literals of the texts of terminals, and that of the end of the input.
fn terminal_literals(alloc: Global, terminals: &[String]) -> Result<Vec<String>, AllocError>
    ensures { IfOk result (λ literals. texts_of literals.items ≡
        map quoted (texts_of terminals.now) ++ quoted (codes "end of input") ∷ []) }
{
    let mut literals = quoted_texts(alloc, terminals)?;
    literals.push(quoted(alloc, "end of input")?)?;
    Ok(literals)
}
