//! Comparing results with the expected texts.
use crate::ask::answer;
use case_files::case_file::{Case, CaseFile};
use lalrpop_base::memory::OutOfMemory;
use std::alloc::Global;
use table_questions::question::{Question, QuestionError};

/// The numbers of cases that agree and that differ, and whether something could not be asked.
#[derive(Clone, Copy, Default)]
pub(crate) struct Tally {
    pub(crate) agree: usize,
    pub(crate) differ: usize,
    is_faulty: bool,
}

impl Tally {
    /// The tally of a file that cannot be read.
    pub(crate) fn unread() -> Self {
        Tally {
            is_faulty: true,
            ..Tally::default()
        }
    }

    /// Adds the tally of a file.
    pub(crate) fn add(&mut self, other: &Tally) {
        self.agree = self.agree.saturating_add(other.agree);
        self.differ = self.differ.saturating_add(other.differ);
        self.is_faulty = self.is_faulty || other.is_faulty;
    }

    /// The exit status of the program: 2 if something could not be asked, 1 if a case differs, and
    /// else 0.
    pub(crate) fn status(&self) -> u8 {
        if self.is_faulty {
            2
        } else if self.differ > 0 {
            1
        } else {
            0
        }
    }
}

/// Asks the cases of a file. The text reports the faults and the cases that differ.
pub(crate) fn compare_file(
    alloc: Global,
    name: &str,
    bytes: &[u8],
) -> Result<(String, Tally), OutOfMemory> {
    let mut report = String::new(alloc);
    let mut tally = Tally::default();
    compare_bytes(alloc, &mut report, &mut tally, name, bytes)?;
    Ok((report, tally))
}

// Asks the cases of the bytes of a file.
fn compare_bytes(
    alloc: Global,
    report: &mut String,
    tally: &mut Tally,
    name: &str,
    bytes: &[u8],
) -> Result<(), OutOfMemory> {
    let text = String::from_utf8_lossy(alloc, bytes)?;
    if text.as_bytes() != bytes {
        let line = first_other_line(text.as_bytes(), bytes);
        write!(report, "{name}, line {line}: not UTF-8\n")?;
        tally.is_faulty = true;
    }
    let file = CaseFile::new(alloc, text.as_str())?;
    compare_cases(alloc, report, tally, name, &file)
}

// Reports the faults of a file, and asks its cases.
fn compare_cases(
    alloc: Global,
    report: &mut String,
    tally: &mut Tally,
    name: &str,
    file: &CaseFile,
) -> Result<(), OutOfMemory> {
    for fault in &file.faults {
        write!(report, "{name}, line {}: {}\n", fault.line, fault.what)?;
        tally.is_faulty = true;
    }
    for case in &file.cases {
        compare_case(alloc, report, tally, name, case)?;
    }
    Ok(())
}

// The number of the first line in which two texts differ, counted from 1.
fn first_other_line(a: &[u8], b: &[u8]) -> usize {
    let mut line: usize = 1;
    for (x, y) in a.iter().zip(b) {
        if x != y {
            return line;
        }
        if *x == b'\n' {
            line = line.saturating_add(1);
        }
    }
    line
}

// Asks a case, and counts it.
fn compare_case(
    alloc: Global,
    report: &mut String,
    tally: &mut Tally,
    name: &str,
    case: &Case,
) -> Result<(), OutOfMemory> {
    let question = Question::new(alloc, case.question.as_str())?;
    match answer(alloc, &question, case.grammar.as_str()) {
        Ok(text) => compare_texts(report, tally, name, case, text.as_str()),
        Err(QuestionError::Memory) => Err(OutOfMemory),
        Err(QuestionError::Call) => {
            tally.is_faulty = true;
            write!(
                report,
                "{name}, line {}: no call is named {}\n",
                case.line, question.call
            )?;
            Ok(())
        }
        Err(QuestionError::Argument(number)) => {
            tally.is_faulty = true;
            write!(
                report,
                "{name}, line {}: argument {number} of {}\n",
                case.line, question.call
            )?;
            Ok(())
        }
    }
}

// Compares a result with the expected text, and reports the first line that differs.
fn compare_texts(
    report: &mut String,
    tally: &mut Tally,
    name: &str,
    case: &Case,
    text: &str,
) -> Result<(), OutOfMemory> {
    if text == case.expected.as_str() {
        tally.agree = tally.agree.saturating_add(1);
        return Ok(());
    }
    tally.differ = tally.differ.saturating_add(1);
    write!(
        report,
        "{name}, line {}: ask {}\n",
        case.line, case.question
    )?;
    let (expected, returned) = first_difference(case.expected.as_str(), text);
    write!(report, "  expected: {expected}\n  returned: {returned}\n")?;
    Ok(())
}

// The first lines in which two texts differ. A line is empty if its text has ended.
fn first_difference<'a>(a: &'a str, b: &'a str) -> (&'a str, &'a str) {
    let mut left = a;
    let mut right = b;
    while let Some((x, more)) = left.split_once('\n') {
        let (y, others) = first_line(right);
        if x != y {
            return (x, y);
        }
        left = more;
        right = others;
    }
    let (y, _) = first_line(right);
    (left, y)
}

// The first line of a text, and the text after it.
fn first_line(text: &str) -> (&str, &str) {
    match text.split_once('\n') {
        Some((line, more)) => (line, more),
        None => (text, ""),
    }
}
