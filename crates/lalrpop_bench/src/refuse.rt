//! Refusing allocations in turn: the results of the public calls if memory ends in them.
use crate::ask::answer;
use anyhow::Context;
use case_files::case_file::{Case, CaseFile};
use lalrpop_base::memory::OutOfMemory;
use refused_growth::attempts::{Attempt, Outcome, refused_in_turn};
use std::alloc::{AllocError, Global};
use std::fs;
use table_questions::question::{Question, QuestionError};

/// The greatest number of cases of each call that are asked.
const CASES: usize = 3;

/// A question that can be asked again, with the grammar and the expected text of its case.
#[derive(Drop)]
struct Asked<'case> {
    question: Question<'case>,
    grammar: &'case str,
    expected: &'case str,
}

impl Attempt for Asked<'_> {
    fn attempt(&mut self, alloc: Global) -> Option<bool> {
        match answer(alloc, &self.question, self.grammar) {
            Ok(text) => Some(text.as_str() == self.expected),
            Err(QuestionError::Memory) => None,
            Err(QuestionError::Call | QuestionError::Argument(_)) => Some(false),
        }
    }
}

/// Asks the first cases of each call over and over. Each turn has a little more memory than the one
/// before. It prints the number of turns of each case in which an allocation was refused. The exit
/// status is 0 if each such turn reported an allocation failure, the last turn gave the expected
/// text, and each case had such a turn. It is 2 if a file cannot be read, and else 1.
pub(crate) fn refuse_in_files(rt: &HostRuntime, names: &[String]) -> anyhow::Result<u8> {
    let mut cases = Vec::new(rt.alloc());
    for name in names {
        let Ok(bytes) = fs::read(rt, name.as_str()) else {
            println!(rt; "{name}: cannot be read")?;
            return Ok(2);
        };
        take_bytes(rt.alloc(), &bytes, &mut cases).context("out of memory")?;
    }
    refuse_in_cases(rt, &cases)
}

// Takes the first cases of each call in the bytes of a file.
fn take_bytes(alloc: Global, bytes: &[u8], cases: &mut Vec<Case>) -> Result<(), OutOfMemory> {
    let text = String::from_utf8_lossy(alloc, bytes)?;
    let file = CaseFile::new(alloc, text.as_str())?;
    Ok(take_cases(file, cases)?)
}

// Takes the first cases of each call in a file, up to `CASES` of a call.
fn take_cases(file: CaseFile, cases: &mut Vec<Case>) -> Result<(), AllocError> {
    for case in file.cases {
        if count_of(cases, call_of(&case)) < CASES {
            cases.push(case)?;
        }
    }
    Ok(())
}

// The call that a case asks.
fn call_of(case: &Case) -> &str {
    match case.question.as_str().split_once(' ') {
        Some((call, _)) => call,
        None => case.question.as_str(),
    }
}

// The number of cases that ask a call.
fn count_of(cases: &[Case], call: &str) -> usize {
    cases.iter().filter(|case| call_of(case) == call).count()
}

// Asks cases over and over, and prints the outcome of each.
fn refuse_in_cases(rt: &HostRuntime, cases: &[Case]) -> anyhow::Result<u8> {
    let mut turns: usize = 0;
    let mut faults: usize = 0;
    for case in cases {
        let outcome = refuse_case(rt.alloc(), case).context("out of memory")?;
        let question = case.question.as_str();
        match outcome {
            Outcome::Refused(count) => {
                println!(rt; "{question}: {count} turns refused")?;
                turns = turns.saturating_add(count);
                if count == 0 {
                    faults = faults.saturating_add(1);
                }
            }
            Outcome::Wrong(turn) => {
                println!(rt; "{question}: another answer in turn {turn}")?;
                faults = faults.saturating_add(1);
            }
            Outcome::TooLarge => {
                println!(rt; "{question}: too little memory in each turn")?;
                faults = faults.saturating_add(1);
            }
        }
    }
    println!(rt;
        "{} cases, {turns} turns refused, {faults} faults",
        cases.len()
    )?;
    Ok(if faults == 0 { 0 } else { 1 })
}

// Asks a case in turn after turn, up to the first turn with enough memory.
fn refuse_case(alloc: Global, case: &Case) -> Result<Outcome, OutOfMemory> {
    let question = Question::new(alloc, case.question.as_str())?;
    let mut asked = Asked {
        question,
        grammar: case.grammar.as_str(),
        expected: case.expected.as_str(),
    };
    Ok(refused_in_turn(alloc, &mut asked)?)
}
