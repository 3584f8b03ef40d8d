//! Questions: the name of a call, and words as its arguments.
use lalrpop_base::memory::OutOfMemory;
use std::alloc::{AllocError, AllocFailed, Global};

/// Why a question has no result.
#[derive(Clone, Copy)]
pub enum QuestionError {
    /// No call has the name.
    Call,
    /// The argument with this number, counted from 1, is missing or does not have the form that the
    /// call expects.
    Argument(usize),
    /// An allocation failed.
    Memory,
}

impl From<OutOfMemory> for QuestionError {
    fn from(_e: OutOfMemory) -> QuestionError {
        QuestionError::Memory
    }
}

impl From<AllocError> for QuestionError {
    fn from(_e: AllocError) -> QuestionError {
        QuestionError::Memory
    }
}

impl<T: Drop> From<AllocFailed<T>> for QuestionError {
    fn from(_e: AllocFailed<T>) -> QuestionError {
        QuestionError::Memory
    }
}

/// The name of a call, and words as its arguments.
#[derive(Drop)]
pub struct Question<'text> {
    pub call: &'text str,
    pub arguments: Vec<&'text str>,
}

impl<'text> Question<'text> {
    /// The question of a line, whose words are separated by spaces.
    pub fn new(alloc: Global, line: &'text str) -> Result<Self, OutOfMemory> {
        let (call, others) = first_word(line);
        let mut arguments = Vec::new(alloc);
        push_words(&mut arguments, others)?;
        Ok(Question { call, arguments })
    }

    /// The argument with a number, counted from 1.
    pub fn argument(&self, number: usize) -> Result<&'text str, QuestionError> {
        match number.checked_sub(1) {
            Some(place) => match self.arguments.get(place) {
                Some(word) => Ok(*word),
                None => Err(QuestionError::Argument(number)),
            },
            None => Err(QuestionError::Argument(number)),
        }
    }

    /// The argument with a number, counted from 1, read as a number.
    pub fn number(&self, number: usize) -> Result<usize, QuestionError> {
        match self.argument(number)?.parse::<usize>() {
            Ok(value) => Ok(value),
            Err(_) => Err(QuestionError::Argument(number)),
        }
    }

    /// The arguments from a number on, counted from 1. The list is empty if there are fewer.
    pub fn from(&self, number: usize) -> &[&'text str] {
        let place = number.saturating_sub(1);
        if place < self.arguments.len() {
            &self.arguments[place..]
        } else {
            &[]
        }
    }

    /// Whether the argument with a number, counted from 1, is the given word.
    pub fn is(&self, number: usize, word: &str) -> bool {
        match self.argument(number) {
            Ok(argument) => argument == word,
            Err(_) => false,
        }
    }

    /// Whether one of the arguments after the first is the given word.
    pub fn has(&self, word: &str) -> bool {
        for argument in self.from(2) {
            if *argument == word {
                return true;
            }
        }
        false
    }

    /// The number of arguments before the first one that is the given word, or of all if none is.
    pub fn until(&self, word: &str) -> usize {
        let mut count: usize = 0;
        for argument in &self.arguments {
            if *argument == word {
                return count;
            }
            count = count.saturating_add(1);
        }
        count
    }
}

// The first word of a line, and the text after it.
fn first_word(line: &str) -> (&str, &str) {
    match line.split_once(' ') {
        Some((word, more)) => (word, more),
        None => (line, ""),
    }
}

// Adds the words of a text, which spaces separate, as arguments.
fn push_words<'text>(arguments: &mut Vec<&'text str>, text: &'text str) -> Result<(), OutOfMemory> {
    let mut rest = text;
    while let Some((word, more)) = rest.split_once(' ') {
        push_word(arguments, word)?;
        rest = more;
    }
    push_word(arguments, rest)
}

// Adds a word as an argument, unless it is empty.
fn push_word<'text>(arguments: &mut Vec<&'text str>, word: &'text str) -> Result<(), OutOfMemory> {
    if !word.is_empty() {
        arguments.push(word)?;
    }
    Ok(())
}
