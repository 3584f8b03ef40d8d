//! A call that asks what a program prints of a grammar.
ghost use Rattle.std.specs.Prelude.{◌≡◌, map, string_bytes};
ghost use Rattle.lr1_calls.specs.Calls.{IsAnswered, IsAnswerOf, IsAnswerToCall, method_for};

use crate::put::put_answer;
use crate::words::arguments_of;
use lalrpop_construction::options::Method;
use program_answers::answer::Answer;
use std::alloc::Global;

/// What `lrtab` or `lrshow` prints of the grammar text `text`. `words` is what is after the
/// name of the file on the command line, with a byte 0 between two words. As much of the text as
/// fits goes to `out`, and the length of the whole text to `length`. The result is the status.
pub fn ask(
    alloc: Global,
    text: &[u8],
    words: &[u8],
    canonical: bool,
    out: &mut [u8],
    length: &mut usize,
) -> u8
    ensures { IsAnswered canonical words.now text.now result out.old out.new length.new }
{
    let answer = answer_to_call(alloc, text, words, method_for(canonical));
    put_answer(&answer, out, length)
}

/// The method that a flag asks for.
pub(crate) fn method_for(canonical: bool) -> Method
    ensures { result ≡ method_for canonical }
{
    if canonical {
        Method::Canonical
    } else {
        Method::Lane
    }
}

// The result for the words of a call and a grammar text.
fn answer_to_call(alloc: Global, text: &[u8], words: &[u8], method: Method) -> Answer
    ensures { IsAnswerToCall method words.now text.now result }
{
    match arguments_of(alloc, words) {
        Ok(arguments) => answer_of(alloc, text, &arguments, method),
        Err(_) => Answer::Memory,
    }
}

// The result of `lrtab` if the arguments are a request of it, and else the result of `lrshow`.
fn answer_of(alloc: Global, text: &[u8], arguments: &[String], method: Method) -> Answer
    ensures { IsAnswerOf method (map string_bytes arguments.now) text.now result }
{
    if lrtab_run::words::request_of(arguments).is_some() {
        return lrtab_run::run::answer_of(alloc, arguments, method, Some(text));
    }
    lrshow_run::run::answer_of(alloc, arguments, method, Some(text))
}
