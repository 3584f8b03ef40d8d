//! `lrshow` shows the tables of a grammar, or its conflicts, in a form for other tools: as JSON, as
//! a graph, or as a page.
#![tactic(auto)]

use lrshow_run::run::run;
use program_answers::answer::first_word;
use program_answers::host::{given_method, given_words, out_of_memory};
use std::fs;
use std::fs::File;
use std::io::Lock;
use std::process::ExitCode;

fn main(rt: HostRuntime) -> ExitCode {
    let Ok(words) = given_words(&rt) else {
        return out_of_memory(&rt);
    };
    let Ok(method) = given_method(&rt) else {
        return out_of_memory(&rt);
    };
    let alloc = rt.alloc();
    let (mut out, mut err) = (rt.stdout(), rt.stderr());
    if first_word(&words) == "-" {
        let file = Some(rt.stdin().lock());
        return ExitCode::from(run(alloc, &words, method, file, &mut out, &mut err));
    }
    let file: Option<File> = match words.first() {
        Some(name) => fs::open(&rt, name.as_str()).ok(),
        None => None,
    };
    ExitCode::from(run(alloc, &words, method, file, &mut out, &mut err))
}
