//! The program that asks the libraries' public calls the questions of case files.
//!
//! - `lalrpop_bench FILE..` compares the results with the expected texts of the files.
//! - `lalrpop_bench refuse FILE..` asks cases while allocations are refused in the calls.
//! - `lalrpop_bench time FILE START` prints the time of each part of making the tables of a
//!   grammar.
#![tactic(auto)]

mod ask;
mod compare;
mod refuse;
mod show;

use crate::compare::{Tally, compare_file};
use crate::refuse::refuse_in_files;
use anyhow::Context;
use std::process::ExitCode;
use std::{env, fs};
use table_timing::timing::time_file;

const USAGE: &str = "usage: lalrpop_bench FILE.. | refuse FILE.. | time FILE START";

fn main(rt: HostRuntime) -> ExitCode {
    match run(&rt) {
        Ok(status) => ExitCode::from(status),
        Err(error) => {
            let _ = eprintln!(rt; "lalrpop_bench: {error}");
            ExitCode::from(3)
        }
    }
}

// Does what the arguments ask for, and returns the exit status.
fn run(rt: &HostRuntime) -> anyhow::Result<u8> {
    let mut words = Vec::new(rt.alloc());
    for word in env::args(rt)?.skip(1) {
        words.push(word)?;
    }
    let Some((first, others)) = words.split_first() else {
        return usage(rt);
    };
    if first.as_str() == "refuse" {
        return refuse_in_files(rt, others);
    }
    if first.as_str() == "time" {
        return run_time(rt, others);
    }
    Ok(compare_files(rt, &words)?.status())
}

// Prints how to call the program, and returns the exit status 2.
fn usage(rt: &HostRuntime) -> anyhow::Result<u8> {
    eprintln!(rt; "{USAGE}")?;
    Ok(2)
}

// Times the parts for the file and the start symbol that the arguments name.
fn run_time(rt: &HostRuntime, words: &[String]) -> anyhow::Result<u8> {
    let Some((name, others)) = words.split_first() else {
        return usage(rt);
    };
    let Some((start, more)) = others.split_first() else {
        return usage(rt);
    };
    if !more.is_empty() {
        return usage(rt);
    }
    match time_file(rt, name.as_str(), start.as_str())? {
        Some(status) => Ok(status),
        None => usage(rt),
    }
}

// Compares the files that the arguments name.
fn compare_files(rt: &HostRuntime, names: &[String]) -> anyhow::Result<Tally> {
    let mut all = Tally::default();
    for name in names {
        let tally = file_tally(rt, name.as_str())?;
        all.add(&tally);
    }
    println!(rt; "{} agree, {} differ", all.agree, all.differ)?;
    Ok(all)
}

// Compares a file, and prints how many of its cases agree.
fn file_tally(rt: &HostRuntime, name: &str) -> anyhow::Result<Tally> {
    let Ok(bytes) = fs::read(rt, name) else {
        println!(rt; "{name}: cannot be read")?;
        return Ok(Tally::unread());
    };
    let (report, tally) = compare_file(rt.alloc(), name, &bytes).context("out of memory")?;
    print!(rt; "{report}")?;
    println!(rt; "{name}: {} agree, {} differ", tally.agree, tally.differ)?;
    Ok(tally)
}
