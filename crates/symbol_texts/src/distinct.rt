//! Names that differ.
ghost use Rattle.std.specs.Prelude.{◌≡◌, ◌≤◌, IfOk, bytes_eq, cond, length, string_bytes};
ghost use Rattle.symbol_texts.specs.Distinct.{distinct_names, is_only, name_for, occurrences};
ghost use Rattle.symbol_texts.specs.Texts.{texts_of};

use std::alloc::{AllocError, Global};

/// The names of bases. A base that is not the only one, or that is one of the taken names, gets a
/// mark and its number. Names differ if no base and no taken name has the mark. An error is an
/// allocation failure.
pub fn distinct(
    alloc: Global,
    bases: &[String],
    mark: &str,
    taken: &[String],
) -> Result<Vec<String>, AllocError>
    ensures { IfOk result (λ names. texts_of names.items ≡
        distinct_names (texts_of bases.now) mark.now (texts_of taken.now)) }
{
    let mut names = Vec::new(alloc);
    for (number, base) in bases.iter().enumerate() {
        let only = is_only(base, bases, taken);
        names.push(name_for(alloc, base, number, mark, only)?)?;
    }
    Ok(names)
}

// Whether a base is the only one, and is not taken.
fn is_only(base: &String, bases: &[String], taken: &[String]) -> bool
    ensures { result ≡ is_only (texts_of bases.now) (texts_of taken.now) (string_bytes base.now) }
{
    occurrences(base, bases) == 1 && occurrences(base, taken) == 0
}

// How often a text is in a list.
fn occurrences(text: &String, all: &[String]) -> usize
    ensures is { result ≡ occurrences (string_bytes text.now) (texts_of all.now) }
    ensures few { result ≤ length all.now }
{
    let mut count = 0;
    for other in all {
        count += one_if_same(other, text);
    }
    count
}

// 1 if two texts are the same, and otherwise 0.
fn one_if_same(a: &String, b: &String) -> usize
    ensures { result ≡ cond (bytes_eq (string_bytes a.now) (string_bytes b.now)) 1 0 }
{
    if a.as_str() == b.as_str() { 1 } else { 0 }
}

// The name of a base with a number.
fn name_for(
    alloc: Global,
    base: &String,
    number: usize,
    mark: &str,
    only: bool,
) -> Result<String, AllocError>
    ensures { IfOk result (λ name. string_bytes name ≡
        name_for only mark.now number (string_bytes base.now)) }
{
    let mut name = String::from_str(alloc, base)?;
    if only {
        return Ok(name);
    }
    name.push_str(mark)?;
    write!(name, "{number}")?;
    Ok(name)
}
