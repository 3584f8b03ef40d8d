//! The comments of all constants of a kind.
ghost use Rattle.std.specs.Prelude.{◌≡◌, IfOk, map, string_bytes};
ghost use Rattle.symbol_texts.specs.Comments.{nonterminal_comments, production_comments, quoted_name, quoted_production, quoted_terminal, terminal_comments};
ghost use Rattle.symbol_texts.specs.Texts.{texts_of};

use crate::comments::{push_production, push_terminal};
use crate::grammar::ProductionText;
use std::alloc::{AllocError, Global};

/// The comments of terminals and of the end of the input. Each terminal is between two quotes.
pub(crate) fn terminal_comments(
    alloc: Global,
    quote: &str,
    terminals: &[String],
) -> Result<Vec<String>, AllocError>
    ensures { IfOk result (λ comments. texts_of comments.items ≡
        terminal_comments quote.now (texts_of terminals.now)) }
{
    let mut comments = Vec::new(alloc);
    for terminal in terminals {
        comments.push(quoted_terminal(alloc, quote, terminal)?)?;
    }
    comments.push(String::from_str(alloc, "the end of the input")?)?;
    Ok(comments)
}

// The comment of a terminal.
fn quoted_terminal(alloc: Global, quote: &str, terminal: &String) -> Result<String, AllocError>
    ensures { IfOk result (λ comment. string_bytes comment ≡
        quoted_terminal quote.now (string_bytes terminal.now)) }
{
    let mut comment = String::from_str(alloc, quote)?;
    push_terminal(&mut comment, terminal)?;
    comment.push_str(quote)?;
    Ok(comment)
}

/// The comments of nonterminals, each between two quotes.
pub(crate) fn nonterminal_comments(
    alloc: Global,
    quote: &str,
    nonterminals: &[String],
) -> Result<Vec<String>, AllocError>
    ensures { IfOk result (λ comments. texts_of comments.items ≡
        nonterminal_comments quote.now (texts_of nonterminals.now)) }
{
    let mut comments = Vec::new(alloc);
    for nonterminal in nonterminals {
        comments.push(quoted_name(alloc, quote, nonterminal)?)?;
    }
    Ok(comments)
}

// The comment of a nonterminal.
fn quoted_name(alloc: Global, quote: &str, name: &String) -> Result<String, AllocError>
    ensures { IfOk result (λ comment. string_bytes comment ≡
        quoted_name quote.now (string_bytes name.now)) }
{
    let mut comment = String::from_str(alloc, quote)?;
    comment.push_str(name)?;
    comment.push_str(quote)?;
    Ok(comment)
}

/// The comments of productions, each between two quotes.
pub(crate) fn production_comments(
    alloc: Global,
    quote: &str,
    productions: &[ProductionText],
) -> Result<Vec<String>, AllocError>
    ensures { IfOk result (λ comments. texts_of comments.items ≡
        production_comments quote.now productions.now) }
{
    let mut comments = Vec::new(alloc);
    for production in productions {
        comments.push(quoted_production(alloc, quote, production)?)?;
    }
    Ok(comments)
}

// The comment of a production.
fn quoted_production(
    alloc: Global,
    quote: &str,
    production: &ProductionText,
) -> Result<String, AllocError>
    ensures { IfOk result (λ comment. string_bytes comment ≡
        quoted_production quote.now production.now) }
{
    let mut comment = String::from_str(alloc, quote)?;
    push_production(&mut comment, production)?;
    comment.push_str(quote)?;
    Ok(comment)
}
