//! `lrtab` reads a grammar text. It parses tokens by the tables of the grammar, reports the tables
//! or conflicts, or explains the conflicts.
#![tactic(auto)]

use lrtab_run::host::{given_method, given_words, out_of_memory};
use lrtab_run::run::run;
use std::fs;
use std::fs::File;
use std::process::ExitCode;

fn main(rt: HostRuntime) -> ExitCode {
    let Ok(words) = given_words(&rt) else {
        return out_of_memory(&rt);
    };
    let Ok(method) = given_method(&rt) else {
        return out_of_memory(&rt);
    };
    let file: Option<File> = match words.first() {
        Some(name) => fs::open(&rt, name.as_str()).ok(),
        None => None,
    };
    ExitCode::from(run(
        rt.alloc(),
        &words,
        method,
        file,
        &mut rt.stdout(),
        &mut rt.stderr(),
    ))
}
