//! Case files: grammars with questions, each with the expected text.
use lalrpop_base::memory::OutOfMemory;
use std::alloc::Global;

/// A question on a grammar, and the expected text.
#[derive(Drop)]
pub struct Case {
    /// The number of the line of the question, counted from 1.
    pub line: usize,
    /// The question, without `ask`.
    pub question: String,
    /// The text of the grammar.
    pub grammar: String,
    /// The expected text.
    pub expected: String,
}

/// A fault of a case file: a line where it is not allowed.
#[derive(Drop)]
pub struct Fault {
    /// The number of the line, counted from 1.
    pub line: usize,
    /// What is wrong, for a message.
    pub what: &'static str,
}

// The part of a case file that a line is in.
#[derive(Clone, Copy, PartialEq, Eq)]
enum Part {
    Outside,
    Grammar,
    Owed,
    // Outside of blocks, after a line that was reported as a fault.
    Lost,
}

/// The cases of the lines so far, and their faults.
#[derive(Drop)]
pub struct CaseFile {
    alloc: Global,
    part: Part,
    grammar: String,
    asked: usize,
    question: String,
    expected: String,
    pub cases: Vec<Case>,
    pub faults: Vec<Fault>,
}

impl CaseFile {
    /// The cases of a text, and its faults. `OutOfMemory` if an allocation fails.
    pub fn new(alloc: Global, text: &str) -> Result<Self, OutOfMemory> {
        let mut file = CaseFile::empty(alloc);
        file.add_all(text)?;
        Ok(file)
    }

    // Adds the lines of a text.
    fn add_all(&mut self, text: &str) -> Result<(), OutOfMemory> {
        let mut rest = text;
        let mut number: usize = 1;
        while let Some((line, more)) = rest.split_once('\n') {
            self.add(number, line)?;
            rest = more;
            number = number.saturating_add(1);
        }
        if !rest.is_empty() {
            self.add(number, rest)?;
        }
        if self.part == Part::Grammar || self.part == Part::Owed {
            self.fault(number, "the last block has no end")?;
        }
        Ok(())
    }

    // A file without lines.
    fn empty(alloc: Global) -> Self {
        CaseFile {
            alloc,
            part: Part::Outside,
            grammar: String::new(alloc),
            asked: 0,
            question: String::new(alloc),
            expected: String::new(alloc),
            cases: Vec::new(alloc),
            faults: Vec::new(alloc),
        }
    }

    // Adds a line.
    fn add(&mut self, number: usize, line: &str) -> Result<(), OutOfMemory> {
        if line == "grammar" {
            return self.begin(number);
        }
        match self.part {
            Part::Outside | Part::Lost => self.add_outside(number, line),
            Part::Grammar => self.add_to_grammar(number, line),
            Part::Owed => self.add_to_owed(number, line),
        }
    }

    // Begins a block.
    fn begin(&mut self, number: usize) -> Result<(), OutOfMemory> {
        if self.part == Part::Grammar || self.part == Part::Owed {
            self.fault(number, "the block before has no end")?;
        }
        self.part = Part::Grammar;
        self.grammar = String::new(self.alloc);
        Ok(())
    }

    // Adds a line outside of blocks: an empty line or a remark. Any other line is a fault, which is
    // reported once until the next block.
    fn add_outside(&mut self, number: usize, line: &str) -> Result<(), OutOfMemory> {
        if line.is_empty() || line.starts_with('#') || self.part == Part::Lost {
            return Ok(());
        }
        self.part = Part::Lost;
        self.fault(number, "neither a remark nor the head of a block")
    }

    // Adds a line of a grammar, between the head of a block and its first question.
    fn add_to_grammar(&mut self, number: usize, line: &str) -> Result<(), OutOfMemory> {
        if line == "end" {
            self.part = Part::Outside;
            return self.fault(number, "a block without a question");
        }
        match asked_by(line) {
            Some(question) => self.ask(number, question),
            None => push_line(&mut self.grammar, line),
        }
    }

    // Adds a line after a question.
    fn add_to_owed(&mut self, number: usize, line: &str) -> Result<(), OutOfMemory> {
        if line == "end" {
            self.part = Part::Outside;
            return self.finish();
        }
        match asked_by(line) {
            Some(question) => {
                self.finish()?;
                self.ask(number, question)
            }
            None => push_line(&mut self.expected, line),
        }
    }

    // Begins a question. Its expected text is empty so far.
    fn ask(&mut self, number: usize, question: &str) -> Result<(), OutOfMemory> {
        self.part = Part::Owed;
        self.asked = number;
        self.question = String::from_str(self.alloc, question)?;
        self.expected = String::new(self.alloc);
        Ok(())
    }

    // Adds the question and its expected text as a case.
    fn finish(&mut self) -> Result<(), OutOfMemory> {
        let case = Case {
            line: self.asked,
            question: self.question.clone()?,
            grammar: self.grammar.clone()?,
            expected: self.expected.clone()?,
        };
        self.cases.push(case)?;
        Ok(())
    }

    // Adds a fault.
    fn fault(&mut self, line: usize, what: &'static str) -> Result<(), OutOfMemory> {
        self.faults.push(Fault { line, what })?;
        Ok(())
    }
}

// The question that a line asks, if it asks one. A production of a nonterminal `ask` is not a
// question.
fn asked_by(line: &str) -> Option<&str> {
    match line.strip_prefix("ask ") {
        Some(question) if !question.starts_with('=') => Some(question),
        _ => None,
    }
}

// Appends a line and a line end.
fn push_line(text: &mut String, line: &str) -> Result<(), OutOfMemory> {
    text.push_str(line)?;
    text.push_str("\n")?;
    Ok(())
}
