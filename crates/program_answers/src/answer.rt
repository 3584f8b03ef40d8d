//! The result of a program for the file of a grammar: what it shows, or why it cannot show it.
ghost use Rattle.std.specs.Prelude.{◌≡◌, ◌++◌, IfOk, IfSome, Some, Option, map, option_map, string_bytes, codes, List, ℕ, false};
ghost use Rattle.std.specs.Fmt.{decimal};
ghost use Rattle.lalrpop_base.specs.Words.{IsWellFormed};
ghost use Rattle.program_answers.specs.Answers.{file_name, IsAnswerTo, IsAnswerToGrammar};
ghost use Rattle.program_answers.specs.Texts.{line};

use crate::ask::Ask;
use grammar_text::grammar::read;
use grammar_text::read_error::ReadError;
use lalrpop_base::memory::OutOfMemory;
use lalrpop_base::repr::NonterminalString;
use lalrpop_base::repr::grammar::Grammar;
use lalrpop_base::repr::norm_error::NormError;
use lalrpop_construction::options::Method;
use lalrpop_inline::inline::inline;
use std::alloc::Global;
use std::io::{ErrorKind, Read};
use text_pieces::TextPieces;

/// What is shown of a grammar.
#[derive(Drop)]
pub struct Shown {
    /// The exit status.
    pub status: u8,
    /// The text for standard output.
    pub text: TextPieces,
    /// The text for standard error, which is written after the output. It is empty if there is
    /// nothing to remark.
    pub remark: String,
}

impl Shown {
    /// What is shown with a text in one piece. `OutOfMemory` if an allocation fails.
    pub fn of(alloc: Global, status: u8, text: String, remark: String) -> Result<Shown, OutOfMemory>
        ensures status { IfOk result (λ shown. shown.status ≡ status) }
        ensures text { IfOk result (λ shown. shown.text ≡ string_bytes text) }
        ensures remark { IfOk result (λ shown. shown.remark ≡ remark) }
    {
        Ok(Shown {
            status,
            text: TextPieces::of(alloc, text)?,
            remark,
        })
    }
}

/// The result of a program, which decides its outputs and its exit status.
#[derive(Drop)]
pub enum Answer {
    /// What is shown of the grammar.
    Output(Shown),
    /// A message for standard error: the file, a line or a mark in it is faulty.
    Fault(String),
    /// The arguments are no request.
    Usage,
    /// There are more actions than numbers for them, in the text or after inlining.
    TooManyActions,
    /// An allocation failed.
    Memory,
}

/// The first argument, which is the name of the file. It is empty if there are no arguments.
pub fn first_word(words: &[String]) -> &str
    ensures { result.now ≡ file_name (map string_bytes words.now) }
{
    match words.first() {
        Some(word) => word.as_str(),
        None => "",
    }
}

/// The result for a request and a file. `file` is `None` if the file could not be opened.
/// `OutOfMemory` if an allocation fails.
pub fn answer_to<A: Ask, R: Read + Drop>(
    alloc: Global,
    ask: &A,
    name: &str,
    method: Method,
    file: Option<R>,
) -> Result<Answer, OutOfMemory>
    ensures { IfOk result
        (IsAnswerTo (A.IsShown ask.now method) name.now (option_map R.remaining file)) }
{
    let Some(reader) = file else {
        return Ok(Answer::Fault(cannot_read(alloc, name)?));
    };
    match text_of(alloc, reader)? {
        None => Ok(Answer::Fault(cannot_read(alloc, name)?)),
        Some(text) => answer_to_text(alloc, ask, method, text.as_str()),
    }
}

/// The message for a file that cannot be read.
pub fn cannot_read(alloc: Global, name: &str) -> Result<String, OutOfMemory>
    ensures { IfOk result (λ text. string_bytes text ≡ line (codes "cannot read " ++ name.now)) }
{
    Ok(format!(in alloc; "cannot read {name}\n")?)
}

// The message for a line that is no grammar line. Lines are counted from 1.
fn faulty_line(alloc: Global, number: usize) -> Result<String, OutOfMemory>
    ensures { IfOk result (λ text. string_bytes text ≡ line
        (codes "line " ++ decimal number ++ codes ": not a grammar line")) }
{
    Ok(format!(in alloc; "line {number}: not a grammar line\n")?)
}

/// The text of a file. `None` if the file cannot be read or is not UTF-8.
pub fn text_of<R: Read + Drop>(alloc: Global, mut reader: R) -> Result<Option<String>, OutOfMemory>
    ensures { IfOk result
        (λ text. IfSome text (λ t. IfSome (R.remaining reader) (λ bytes. string_bytes t ≡ bytes))) }
{
    let mut bytes = Vec::new(alloc);
    if let Err(e) = reader.read_to_end(&mut bytes) {
        if e.kind() == ErrorKind::OutOfMemory {
            return Err(OutOfMemory);
        }
        return Ok(None);
    }
    match String::from_utf8(bytes) {
        Ok(text) => Ok(Some(text)),
        Err(_) => Ok(None),
    }
}

// The result for a request and the text of the file.
fn answer_to_text<A: Ask>(
    alloc: Global,
    ask: &A,
    method: Method,
    text: &str,
) -> Result<Answer, OutOfMemory>
    ensures { (name : List ℕ) →
        IfOk result (IsAnswerTo (A.IsShown ask.now method) name (Some (Some text.now))) }
{
    match read(alloc, text) {
        Ok(grammar) => answer_to_grammar(alloc, ask, method, grammar),
        Err(ReadError::Line(number)) => Ok(Answer::Fault(faulty_line(alloc, number)?)),
        Err(ReadError::TooManyActions) => Ok(Answer::TooManyActions),
        Err(ReadError::Memory) => Err(OutOfMemory),
    }
}

// The result for a request and a grammar. The marked nonterminals of the grammar are inlined first.
fn answer_to_grammar<A: Ask>(
    alloc: Global,
    ask: &A,
    method: Method,
    grammar: Grammar,
) -> Result<Answer, OutOfMemory>
    requires well_formed { IsWellFormed grammar }
    requires canonical { grammar.algorithm.lalr ≡ false }
    ensures { IfOk result (IsAnswerToGrammar (A.IsShown ask.now method) grammar) }
{
    match inline(alloc, grammar) {
        Ok(inlined) => Ok(Answer::Output(ask.shown(alloc, method, &inlined)?)),
        Err(NormError::Cycle { span: _, name }) => Ok(Answer::Fault(cyclic_inline(alloc, &name)?)),
        Err(NormError::TooManyActions) => Ok(Answer::TooManyActions),
        Err(NormError::Memory) => Err(OutOfMemory),
    }
}

// The message for a marked nonterminal that would have to be inlined into itself.
fn cyclic_inline(alloc: Global, name: &NonterminalString) -> Result<String, OutOfMemory>
    ensures { IfOk result
        (λ text. string_bytes text ≡ line (codes "cyclic inline of " ++ name.now.text)) }
{
    Ok(format!(in alloc; "cyclic inline of {name}\n")?)
}
