//! The program `lrshow`, over any reader and writers.
ghost use Rattle.std.specs.Prelude.{◌≡◌, ℕ, List, [], IfOk, map, option_map, string_bytes};
ghost use Rattle.program_answers.specs.Written.{IsResultWritten};
ghost use Rattle.program_answers.specs.declared.answer.Answer.{Answer};
ghost use Rattle.lrshow_run.specs.Answers.{IsShowAnswer, IsTextAnswer};
ghost use Rattle.lrshow_check.specs.Check.{IsCheckAnswer};
ghost use Rattle.lrshow_arguments.specs.Help.{usage, IsText};
ghost use Rattle.lrshow_check.specs.Output.{IsOutput};
ghost use Rattle.lrshow_arguments.specs.Words.{check_view, text_view};

use crate::request::ShowRequest;
use lalrpop_base::memory::OutOfMemory;
use lalrpop_tables::build::Method;
use lrshow_arguments::help::{USAGE, text_of};
use lrshow_arguments::words::{Check, Text, check_of, request_of, text_for};
use lrshow_check::check::check_file;
use program_answers::answer::{Answer, Shown, answer_to, first_word};
use program_answers::tell::tell;
use std::alloc::Global;
use std::io::{Read, Write};

/// Runs the program on its arguments and returns the exit status. `file` is `None` if the file
/// could not be opened. The whole text is made before a byte goes to `out`.
pub fn run<R: Read, O: Write, E: Write>(
    alloc: Global,
    words: &[String],
    method: Method,
    file: Option<R>,
    out: &mut O,
    err: &mut E,
) -> u8
where
    R: Drop,
    ensures { (answer : Answer)
        × IsShowAnswer method (map string_bytes words.now) (option_map R.remaining file) answer
        × IsResultWritten usage answer result
        (O.contents out.old) (O.contents out.new) (E.contents err.old) (E.contents err.new) }
{
    let answer = answer_of(alloc, words, method, file);
    tell(&answer, USAGE, out, err)
}

/// The result of the program for its arguments. `file` reads the file that the first argument
/// names, and is `None` if that could not be opened.
pub fn answer_of<R: Read + Drop>(
    alloc: Global,
    words: &[String],
    method: Method,
    file: Option<R>,
) -> Answer
    ensures { IsShowAnswer method (map string_bytes words.now)
        (option_map R.remaining file) result }
{
    if let Some(asked) = text_for(words) {
        return text_answer(alloc, asked);
    }
    if let Some(check) = check_of(words) {
        return checked(alloc, check, first_word(words), method, file);
    }
    let Some(request) = request_of(words) else {
        return Answer::Usage;
    };
    let request = ShowRequest { request };
    match answer_to(alloc, &request, first_word(words), method, file) {
        Ok(answer) => answer,
        Err(_) => Answer::Memory,
    }
}

// The result of a check.
fn checked<R: Read + Drop>(
    alloc: Global,
    check: Check<'_>,
    name: &str,
    method: Method,
    file: Option<R>,
) -> Answer
    ensures { IsCheckAnswer method (check_view check.entry) name.now (option_map R.remaining file) result }
{
    match check_file(alloc, check, name, method, file) {
        Ok(answer) => answer,
        Err(_) => Answer::Memory,
    }
}

// The result for a text that needs no file.
fn text_answer(alloc: Global, asked: Text) -> Answer
    ensures { IsTextAnswer (text_view asked) result }
{
    match text_shown(alloc, asked) {
        Ok(shown) => Answer::Output(shown),
        Err(_) => Answer::Memory,
    }
}

// What is shown for a text that needs no file.
fn text_shown(alloc: Global, asked: Text) -> Result<Shown, OutOfMemory>
    ensures { IfOk result (λ s. (text : List ℕ) × IsText (text_view asked) text
        × IsOutput 0 text [] s) }
{
    let text = text_of(alloc, asked)?;
    Shown::of(alloc, 0, text, String::new(alloc))
}
