//! The program `lrtab`, over any reader and writers.
ghost use Rattle.std.specs.Prelude.{◌≡◌, map, option_map, string_bytes};
ghost use Rattle.program_answers.specs.declared.answer.Answer.{Answer};
ghost use Rattle.lrtab_run.specs.Words.{request_of};
ghost use Rattle.program_answers.specs.Answers.{file_name};
ghost use Rattle.lrtab_run.specs.Answers.{usage, IsAnswer};
ghost use Rattle.program_answers.specs.Written.{IsResultWritten};

use crate::answer::{Answer, answer_to, first_word};
use crate::tell::tell;
use crate::words::request_of;
use lalrpop_tables::build::Method;
use std::alloc::Global;
use std::io::{Read, Write};

/// Runs the program on its arguments and returns the exit status. `file` is `None` if the file
/// could not be opened. The whole text is made before a byte goes to `out`.
pub fn run<R: Read, O: Write, E: Write>(
    alloc: Global,
    words: &[String],
    method: Method,
    file: Option<R>,
    out: &mut O,
    err: &mut E,
) -> u8
where
    R: Drop,
    ensures { (answer : Answer)
        × IsAnswer method (request_of (map string_bytes words.now))
        (file_name (map string_bytes words.now)) (option_map R.remaining file) answer
        × IsResultWritten usage answer result
        (O.contents out.old) (O.contents out.new) (E.contents err.old) (E.contents err.new) }
{
    let answer = answer_of(alloc, words, method, file);
    tell(&answer, USAGE, out, err)
}

const USAGE: &str = "usage: lrtab FILE START (parse LIMIT TOKEN.. | report | explain)\n";

/// The result of the program for its arguments. `file` reads the file that the first argument
/// names, and is `None` if that could not be opened.
pub fn answer_of<R: Read + Drop>(
    alloc: Global,
    words: &[String],
    method: Method,
    file: Option<R>,
) -> Answer
    ensures { IsAnswer method (request_of (map string_bytes words.now))
        (file_name (map string_bytes words.now)) (option_map R.remaining file) result }
{
    let Some(request) = request_of(words) else {
        return Answer::Usage;
    };
    match answer_to(alloc, &request, first_word(words), method, file) {
        Ok(answer) => answer,
        Err(_) => Answer::Memory,
    }
}
