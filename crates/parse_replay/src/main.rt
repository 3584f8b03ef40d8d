//! `parse_replay` prints what `lrtab FILE START parse LIMIT TOKEN..` prints. It parses by a parse
//! table and makes nodes, so that the stored cases of `lrtab` test these. With `expected` in the
//! place of `parse`, it prints the tokens that may come after the given ones, each in a line. With
//! `bench` as its first argument, it parses made inputs, so that instructions can be counted.
#![tactic(auto)]

mod bench;
mod request;
mod shown;
mod texts;

use bench::bench_text;
use lalrpop_tables::build::Method;
use program_answers::answer::{Answer, Shown, answer_to, first_word};
use program_answers::host::{given_method, given_words, out_of_memory};
use program_answers::tell::tell;
use request::request_of;
use std::alloc::Global;
use std::fs;
use std::fs::File;
use std::process::ExitCode;

// The usage text of `lrtab`, whose cases have it.
const USAGE: &str = "usage: lrtab FILE START (parse LIMIT TOKEN.. | report | explain)\n";

fn main(rt: HostRuntime) -> ExitCode {
    let Ok(words) = given_words(&rt) else {
        return out_of_memory(&rt);
    };
    let Ok(method) = given_method(&rt) else {
        return out_of_memory(&rt);
    };
    let file: Option<File> = match words.first() {
        Some(name) => fs::open(&rt, name.as_str()).ok(),
        None => None,
    };
    let answer = answer_of(rt.alloc(), &words, method, file);
    ExitCode::from(tell(&answer, USAGE, &mut rt.stdout(), &mut rt.stderr()))
}

// The result for the arguments and the file that the first one names.
fn answer_of(alloc: Global, words: &[String], method: Method, file: Option<File>) -> Answer {
    if let Some((first, others)) = words.split_first() {
        if first.as_str() == "bench" {
            return bench_answer(alloc, others).unwrap_or(Answer::Memory);
        }
    }
    let Some(request) = request_of(words) else {
        return Answer::Usage;
    };
    match answer_to(alloc, &request, first_word(words), method, file) {
        Ok(answer) => answer,
        Err(_) => Answer::Memory,
    }
}

// The result for the arguments after `bench`.
fn bench_answer(alloc: Global, words: &[String]) -> anyhow::Result<Answer> {
    let text = bench_text(alloc, words)?;
    Ok(Answer::Output(Shown::of(alloc, 0, text, String::new(alloc))?))
}
