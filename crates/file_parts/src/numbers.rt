//! The lines of an array of numbers.
ghost use Rattle.std.specs.Prelude.{◌≡◌, ◌+◌, ◌++◌, IfOk, OnOk, length, string_bytes};
ghost use Rattle.file_parts.specs.Lines.{fits, next_column, next_text, number_lines, rest_of, word_of};

use std::alloc::{AllocError, Global};

// How many columns a line has at most.
const WIDTH: usize = 100;

/// Appends the lines of numbers. Each number has a comma after it, and each line begins with
/// `indent`. As many numbers are in a line as fit into 100 columns. An error is an allocation
/// failure.
pub fn push_numbers(
    alloc: Global,
    text: &mut String,
    indent: &str,
    numbers: &[u32],
) -> Result<(), AllocError>
    ensures { OnOk result (string_bytes text.new ≡
        string_bytes text.old ++ number_lines indent.now numbers.now) }
{
    let [first, others @ ..] = numbers else {
        text.push_str(indent)?;
        text.push_str("\n")?;
        return Ok(());
    };
    let column = push_line(alloc, text, indent, *first)?;
    push_rest(alloc, text, indent, column, others)
}

// Appends numbers to a line of which so many columns are filled, and the end of the last line.
fn push_rest(
    alloc: Global,
    text: &mut String,
    indent: &str,
    column: usize,
    numbers: &[u32],
) -> Result<(), AllocError>
    ensures { OnOk result (string_bytes text.new ≡
        string_bytes text.old ++ rest_of indent.now column numbers.now) }
{
    let mut column = column;
    for number in numbers {
        column = push_next(alloc, text, indent, column, *number)?;
    }
    text.push_str("\n")?;
    Ok(())
}

// Appends a number to a line of which so many columns are filled, or to a new one. Returns how many
// columns are filled then.
fn push_next(
    alloc: Global,
    text: &mut String,
    indent: &str,
    column: usize,
    number: u32,
) -> Result<usize, AllocError>
    ensures text { OnOk result (string_bytes text.new ≡
        string_bytes text.old ++ next_text indent.now column number) }
    ensures column { IfOk result (λ c. c ≡ next_column indent.now column number) }
{
    let word = word_of(alloc, number)?;
    if does_fit(column, word.len()) {
        text.push_str(" ")?;
        text.push_str(&word)?;
        return Ok(column + 1 + word.len());
    }
    text.push_str("\n")?;
    push_line(alloc, text, indent, number)
}

// Appends the beginning of a line and its first number. Returns how many columns are filled.
fn push_line(
    alloc: Global,
    text: &mut String,
    indent: &str,
    number: u32,
) -> Result<usize, AllocError>
    ensures text { OnOk result (string_bytes text.new ≡
        string_bytes text.old ++ (indent.now ++ word_of number)) }
    ensures column { IfOk result (λ c. c ≡ length indent.now + length (word_of number)) }
{
    let word = word_of(alloc, number)?;
    let start = text.len();
    text.push_str(indent)?;
    text.push_str(&word)?;
    Ok(text.len() - start)
}

// A number with a comma after it.
fn word_of(alloc: Global, number: u32) -> Result<String, AllocError>
    ensures { IfOk result (λ word. string_bytes word ≡ word_of number) }
{
    format!(in alloc; "{number},")
}

// Whether so many bytes fit into a line after a space.
fn does_fit(column: usize, len: usize) -> bool
    ensures { result ≡ fits column len }
{
    column < WIDTH && len < WIDTH - column
}
