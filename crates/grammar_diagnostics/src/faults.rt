//! The faulty word of a line.
ghost use Rattle.std.specs.Prelude.{◌≡◌, map, option_map};
ghost use Rattle.grammar_diagnostics.specs.Faults.{fault_after_mark, fault_of, fault_view, first_reason, lone_fault, mark_fault, other_fault, right_fault, word_reason, is_symbol};
ghost use Rattle.grammar_diagnostics.specs.Pieces.{piece_view};

use crate::pieces::Piece;
use crate::reason::Reason;
use grammar_text::symbols::{is_a_name, unquoted};

/// A faulty word, and what is wrong with it.
#[derive(Clone, Copy)]
pub(crate) struct Fault<'t> {
    pub(crate) reason: Reason,
    pub(crate) word: Piece<'t>,
}

/// The faulty word of a line of these words. `None` if the line is a grammar line.
pub(crate) fn fault_of<'t>(words: &[Piece<'t>]) -> Option<Fault<'t>>
    ensures { option_map fault_view result ≡ fault_of (map piece_view words.now) }
{
    let (first, others) = words.split_first()?;
    let Some((second, rest)) = others.split_first() else {
        return Some(lone_fault(*first));
    };
    if second.text == "=" && is_a_name(first.text) {
        return right_fault(rest);
    }
    mark_fault(*first, *second, rest)
}

// What is wrong with the first word of a line without a second one.
fn lone_fault(word: Piece<'_>) -> Fault<'_>
    ensures { fault_view result ≡ lone_fault (piece_view word.entry) }
{
    let reason = first_reason(word.text);
    Fault { reason, word }
}

// What is wrong with the first word of a line.
fn first_reason(word: &str) -> Reason
    ensures { result ≡ first_reason word.now }
{
    if word == "=" {
        return Reason::NoLeftSide;
    }
    if is_a_name(word) {
        return Reason::NoEquals;
    }
    Reason::LeftSide
}

// The first word of a right side that is no symbol.
fn right_fault<'t>(words: &[Piece<'t>]) -> Option<Fault<'t>>
    ensures { option_map fault_view result ≡ right_fault (map piece_view words.now) }
{
    for word in words {
        if !is_symbol(word.text) {
            return Some(Fault {
                reason: word_reason(word.text),
                word: *word,
            });
        }
    }
    None
}

// Whether a word is a name or a literal.
fn is_symbol(word: &str) -> bool
    ensures { result ≡ is_symbol word.now }
{
    is_a_name(word) || unquoted(word).is_some()
}

// What is wrong with a word of a right side that is no symbol.
fn word_reason(word: &str) -> Reason
    ensures { result ≡ word_reason word.now }
{
    if word == "\"\"" {
        return Reason::EmptyLiteral;
    }
    Reason::Symbol
}

// The faulty word of a line without a name and `=` at its beginning. `None` if the line is a mark.
fn mark_fault<'t>(first: Piece<'t>, second: Piece<'t>, rest: &[Piece<'t>]) -> Option<Fault<'t>>
    ensures { option_map fault_view result
        ≡ mark_fault (piece_view first.entry) (piece_view second.entry) (map piece_view rest.now) }
{
    if first.text == "inline" && is_a_name(second.text) {
        return fault_after_mark(rest);
    }
    Some(other_fault(first, second))
}

// What is wrong after a mark: its first word, if there is one.
fn fault_after_mark<'t>(rest: &[Piece<'t>]) -> Option<Fault<'t>>
    ensures { option_map fault_view result ≡ fault_after_mark (map piece_view rest.now) }
{
    let (word, _others) = rest.split_first()?;
    Some(Fault {
        reason: Reason::AfterMark,
        word: *word,
    })
}

// The faulty one of two words that begin neither a production nor a mark.
fn other_fault<'t>(first: Piece<'t>, second: Piece<'t>) -> Fault<'t>
    ensures { fault_view result ≡ other_fault (piece_view first.entry) (piece_view second.entry) }
{
    if !is_a_name(first.text) {
        return lone_fault(first);
    }
    if first.text == "inline" {
        return Fault {
            reason: Reason::Mark,
            word: second,
        };
    }
    Fault {
        reason: Reason::NotEquals,
        word: second,
    }
}
