//! Runs of the program `lrtab` with a reader that fails, and with outputs that take one byte in a
//! call and close. `lrshow` reads and writes by the same functions of `program_answers`.
use lalrpop_tables::build::Method;
use lrtab_run::run::run;
use std::alloc::{AllocError, Global};
use std::io;
use std::io::{ErrorKind, Read, Write};
use std::process::Abort;
use std::test::Fail;

const ONE: &str = "S = \"x\"";

const TREE: &str = "[S: \"x\"]\n";

const USAGE: &str = "usage: lrtab FILE START (parse LIMIT TOKEN.. | report | explain)\n";

/// What a writer does after it has taken its bytes.
#[derive(Clone, Copy, Debug)]
enum Then {
    Fails,
    TakesNothing,
    IsInterrupted,
}

/// A writer that takes one byte in a call, and `left` bytes in all.
#[derive(Drop)]
struct Closing {
    left: usize,
    taken: usize,
    then: Then,
}

impl Write for Closing {
    fn write(&mut self, buf: &[u8]) -> io::Result<usize> {
        if self.left == 0 {
            return match self.then {
                Then::Fails => Err(io::Error::from(ErrorKind::BrokenPipe)),
                Then::TakesNothing => Ok(0),
                Then::IsInterrupted => Err(io::Error::from(ErrorKind::Interrupted)),
            };
        }
        let n = buf.len().min(1);
        self.left = self.left.saturating_sub(n);
        self.taken = self.taken.saturating_add(n);
        Ok(n)
    }

    fn flush(&mut self) -> io::Result<()> {
        Ok(())
    }
}

/// A reader whose every read fails.
#[derive(Drop)]
struct Broken;

impl Read for Broken {
    fn read(&mut self, _buf: &mut [u8]) -> io::Result<usize> {
        Err(io::Error::from(ErrorKind::Other))
    }
}

/// The arguments of a command line, which spaces separate.
fn words_of(alloc: Global, line: &str) -> Result<Vec<String>, AllocError> {
    let mut words = Vec::new(alloc);
    for word in line.split_whitespace() {
        words.push(word.to_string(alloc)?)?;
    }
    Ok(words)
}

// Tries a file of which no read succeeds.
fn broken_file(rt: &impl Abort, alloc: Global) -> Result<(), Fail> {
    let words = words_of(alloc, "a/f S parse 2 x")?;
    let mut out = Vec::new(alloc);
    let mut err = Vec::new(alloc);
    let status = run(
        alloc,
        &words,
        Method::Lane,
        Some(Broken),
        &mut out,
        &mut err,
    );
    assert_eq!(rt; status, 2);
    assert_eq!(rt; out.len(), 0);
    assert_eq!(rt; err.as_slice(), b"cannot read a/f\n".as_slice());
    Ok(())
}

// Runs the program with an output that takes `left` bytes. If these are fewer than those of the
// tree, the program must report that it cannot write.
fn closed_after(
    rt: &impl Abort,
    alloc: Global,
    words: &[String],
    then: Then,
    left: usize,
) -> Result<(), Fail> {
    let mut err = Vec::new(alloc);
    let mut out = Closing {
        left,
        taken: 0,
        then,
    };
    let file = Some(ONE.as_bytes());
    let got = run(alloc, words, Method::Lane, file, &mut out, &mut err);
    let whole = TREE.len();
    let expected: u8 = if left < whole { 2 } else { 0 };
    let said = if left < whole { "cannot write\n" } else { "" };
    assert_eq!(rt; out.taken, left, "{then:?} after {left}");
    assert_eq!(rt; got, expected, "{then:?} after {left}");
    assert_eq!(rt; err.as_slice(), said.as_bytes(), "{then:?} after {left}");
    Ok(())
}

// Tries outputs that take each number of bytes up to the whole tree.
fn each_closed_output(rt: &impl Abort, alloc: Global, then: Then) -> Result<(), Fail> {
    let words = words_of(alloc, "f S parse 2 x")?;
    for left in 0..=TREE.len() {
        closed_after(rt, alloc, &words, then, left)?;
    }
    Ok(())
}

// Runs the program on wrong arguments, with a standard error that takes `left` bytes.
fn closed_error_after(
    rt: &impl Abort,
    alloc: Global,
    words: &[String],
    then: Then,
    left: usize,
) -> Result<(), Fail> {
    let mut out = Vec::new(alloc);
    let mut err = Closing {
        left,
        taken: 0,
        then,
    };
    let file = Some(ONE.as_bytes());
    let status = run(alloc, words, Method::Lane, file, &mut out, &mut err);
    assert_eq!(rt; status, 2, "{then:?} after {left}");
    assert_eq!(rt; out.len(), 0, "{then:?} after {left}");
    assert_eq!(rt; err.taken, left, "{then:?} after {left}");
    Ok(())
}

// If standard error fails, nothing can be reported.
fn each_closed_error(rt: &impl Abort, alloc: Global, then: Then) -> Result<(), Fail> {
    let words = words_of(alloc, "f S parse")?;
    for left in 0..=USAGE.len() {
        closed_error_after(rt, alloc, &words, then, left)?;
    }
    Ok(())
}

#[test]
fn files_and_outputs_that_fail(rt: HostRuntime) -> Result<(), Fail> {
    let alloc = rt.alloc();
    for then in [Then::Fails, Then::TakesNothing, Then::IsInterrupted] {
        each_closed_output(&rt, alloc, then)?;
        each_closed_error(&rt, alloc, then)?;
    }
    broken_file(&rt, alloc)
}
