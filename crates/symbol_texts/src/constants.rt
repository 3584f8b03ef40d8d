//! The constants of a generated parser: names with comments.
ghost use Rattle.std.specs.Prelude.{◌≡◌, IfOk, string_bytes};
ghost use Rattle.std.specs.List.{zip};
ghost use Rattle.symbol_texts.specs.Comments.{nonterminal_comments, production_comments, terminal_comments};
ghost use Rattle.symbol_texts.specs.Constants.{constant_text, constant_texts};
ghost use Rattle.symbol_texts.specs.Names.{nonterminal_names, production_names, terminal_names};
ghost use Rattle.symbol_texts.specs.Texts.{texts_of};

use crate::comment_lists::{nonterminal_comments, production_comments, terminal_comments};
use crate::grammar::ProductionText;
use crate::names::{nonterminal_names, production_names, terminal_names};
use crate::style::Style;
use file_parts::parts::Constant;
use std::alloc::{AllocError, Global};

/// The constants of terminals and of the end of the input. In comments each terminal is between two
/// quotes. An error is an allocation failure.
pub fn terminal_constants(
    alloc: Global,
    style: Style,
    quote: &str,
    terminals: &[String],
) -> Result<Vec<Constant>, AllocError>
    ensures { IfOk result (λ constants. constant_texts constants.items ≡ zip
        (terminal_names style (texts_of terminals.now))
        (terminal_comments quote.now (texts_of terminals.now))) }
{
    let names = terminal_names(alloc, style, terminals)?;
    let comments = terminal_comments(alloc, quote, terminals)?;
    constants(alloc, &names, &comments)
}

/// The constants of nonterminals. In comments each is between two quotes. An error is an allocation
/// failure.
pub fn nonterminal_constants(
    alloc: Global,
    style: Style,
    quote: &str,
    nonterminals: &[String],
) -> Result<Vec<Constant>, AllocError>
    ensures { IfOk result (λ constants. constant_texts constants.items ≡ zip
        (nonterminal_names style (texts_of nonterminals.now))
        (nonterminal_comments quote.now (texts_of nonterminals.now))) }
{
    let names = nonterminal_names(alloc, style, nonterminals)?;
    let comments = nonterminal_comments(alloc, quote, nonterminals)?;
    constants(alloc, &names, &comments)
}

/// The constants of productions. In comments each is between two quotes. An error is an allocation
/// failure.
pub fn production_constants(
    alloc: Global,
    style: Style,
    quote: &str,
    productions: &[ProductionText],
) -> Result<Vec<Constant>, AllocError>
    ensures { IfOk result (λ constants. constant_texts constants.items ≡ zip
        (production_names style productions.now)
        (production_comments quote.now productions.now)) }
{
    let names = production_names(alloc, style, productions)?;
    let comments = production_comments(alloc, quote, productions)?;
    constants(alloc, &names, &comments)
}

// The constants of names and comments, as many as there are of both.
fn constants(
    alloc: Global,
    names: &[String],
    comments: &[String],
) -> Result<Vec<Constant>, AllocError>
    ensures { IfOk result (λ constants. constant_texts constants.items ≡
        zip (texts_of names.now) (texts_of comments.now)) }
{
    let mut constants = Vec::new(alloc);
    for (number, name) in names.iter().enumerate() {
        if number >= comments.len() {
            return Ok(constants);
        }
        constants.push(constant(alloc, name, &comments[number])?)?;
    }
    Ok(constants)
}

// The constant of a name and a comment.
fn constant(alloc: Global, name: &String, comment: &String) -> Result<Constant, AllocError>
    ensures { IfOk result (λ constant. constant_text constant ≡
        (string_bytes name.now, string_bytes comment.now)) }
{
    Ok(Constant {
        name: String::from_str(alloc, name)?,
        comment: String::from_str(alloc, comment)?,
    })
}
