//! Questions on token sets.
use super::arguments::{piece_end, token_at, tokens_between};
use case_files::question::{Question, QuestionError};
use case_files::show::words::push_tokens;
use lalrpop_base::lookahead::token_set::TokenSet;
use lalrpop_base::memory::OutOfMemory;
use lalrpop_base::repr::grammar::Grammar;
use lalrpop_base::repr::terminals::TerminalSet;
use std::alloc::Global;
use std::cmp::Ordering;
use std::hash::{DefaultHasher, Hash, Hasher};

/// Appends the result of a question on token sets. Returns `false` if the call has another name.
pub fn answer(
    alloc: Global,
    text: &mut String,
    question: &Question<'_>,
    grammar: &Grammar,
) -> Result<bool, QuestionError> {
    match question.call {
        "token_set" => token_set(alloc, text, question, &grammar.terminals)?,
        "token_sets" => token_sets(alloc, text, question, &grammar.terminals)?,
        _ => return Ok(false),
    }
    Ok(true)
}

// Appends the results of calls on one set: its tokens and bits, whether it has the tokens after the
// comma, and its tokens after `take_eof` was called twice.
fn token_set(
    alloc: Global,
    text: &mut String,
    question: &Question<'_>,
    terminals: &TerminalSet,
) -> Result<(), QuestionError> {
    let after = question.arguments.len().saturating_add(1);
    let comma = piece_end(question, 1, after);
    let mut set = tokens_between(alloc, question, 1, comma, terminals)?;
    push_line(text, "tokens", &set, terminals)?;
    write!(text, "bits {set:?}\n")?;
    push_contained(
        alloc,
        text,
        question,
        comma.saturating_add(1),
        &set,
        terminals,
    )?;
    push_taken(alloc, text, &mut set, terminals)?;
    Ok(())
}

// Appends whether a set has the tokens that the arguments from a number on name. Such a token need
// not be a terminal of the grammar.
fn push_contained(
    alloc: Global,
    text: &mut String,
    question: &Question<'_>,
    from: usize,
    set: &TokenSet,
    terminals: &TerminalSet,
) -> Result<(), QuestionError> {
    for number in from..question.arguments.len().saturating_add(1) {
        let token = token_at(alloc, question, number)?;
        let is_contained = set.contains(&token, terminals);
        write!(text, "contains {token} {is_contained}\n")?;
    }
    Ok(())
}

// Takes `Eof` out of a set twice, and appends what is left.
fn push_taken(
    alloc: Global,
    text: &mut String,
    set: &mut TokenSet,
    terminals: &TerminalSet,
) -> Result<(), OutOfMemory> {
    let first = set.take_eof(terminals);
    let second = set.take_eof(terminals);
    write!(text, "take_eof {first}, then {second}\n")?;
    push_line(text, "left", set, terminals)?;
    push_reserved(alloc, text, set, terminals)
}

// Appends whether a set for which room is reserved is equal to a new one with the same tokens, and
// whether their hashes are equal.
fn push_reserved(
    alloc: Global,
    text: &mut String,
    set: &mut TokenSet,
    terminals: &TerminalSet,
) -> Result<(), OutOfMemory> {
    let mut plain = TokenSet::new(alloc, terminals);
    plain.union_with(set)?;
    set.reserve(terminals.all().len().saturating_add(2))?;
    let are_equal = *set == plain;
    let are_hashed_equally = hash(set) == hash(&plain);
    write!(
        text,
        "equal {are_equal}, equal hashes {are_hashed_equally}\n"
    )?;
    Ok(())
}

// The hash of a set.
fn hash(set: &TokenSet) -> u64 {
    let mut hasher = DefaultHasher::new();
    set.hash(&mut hasher);
    hasher.finish()
}

// Appends the results of calls on two sets, and of taking `Eof` out of the first.
fn token_sets(
    alloc: Global,
    text: &mut String,
    question: &Question<'_>,
    terminals: &TerminalSet,
) -> Result<(), QuestionError> {
    let after = question.arguments.len().saturating_add(1);
    let comma = piece_end(question, 1, after);
    let mut first = tokens_between(alloc, question, 1, comma, terminals)?;
    let second = tokens_between(alloc, question, comma.saturating_add(1), after, terminals)?;
    Ok(push_both(alloc, text, &mut first, &second, terminals)?)
}

// Appends the results of calls on two sets.
fn push_both(
    alloc: Global,
    text: &mut String,
    first: &mut TokenSet,
    second: &TokenSet,
    terminals: &TerminalSet,
) -> Result<(), OutOfMemory> {
    push_line(text, "first", first, terminals)?;
    push_line(text, "second", second, terminals)?;
    write!(text, "lengths {} {}\n", first.len(), second.len())?;
    push_joined(alloc, text, first, second, terminals)?;
    push_compared(text, first, second)?;
    let ended = first.take_eof(terminals);
    write!(text, "end {ended}, ")?;
    push_line(text, "without it", first, terminals)
}

// Appends the union and the intersection of two sets.
fn push_joined(
    alloc: Global,
    text: &mut String,
    first: &TokenSet,
    second: &TokenSet,
    terminals: &TerminalSet,
) -> Result<(), OutOfMemory> {
    let mut union = first.clone(alloc)?;
    let grew = union.union_with(second)?;
    text.push_str("union")?;
    push_tokens(text, &union, terminals)?;
    write!(text, ", grew {grew}\n")?;
    let common = first.intersection(alloc, second)?;
    push_line(text, "intersection", &common, terminals)
}

// Appends whether two sets are disjoint, and their order.
fn push_compared(
    text: &mut String,
    first: &TokenSet,
    second: &TokenSet,
) -> Result<(), OutOfMemory> {
    write!(text, "is_disjoint {}\n", first.is_disjoint(second))?;
    write!(text, "is_intersecting {}\n", first.is_intersecting(second))?;
    let order = match first.cmp(second) {
        Ordering::Less => "less",
        Ordering::Equal => "equal",
        Ordering::Greater => "greater",
    };
    write!(text, "order {order}\n")?;
    Ok(())
}

// Appends a line of a name and tokens.
fn push_line(
    text: &mut String,
    name: &str,
    tokens: &TokenSet,
    terminals: &TerminalSet,
) -> Result<(), OutOfMemory> {
    text.push_str(name)?;
    push_tokens(text, tokens, terminals)?;
    text.push_str("\n")?;
    Ok(())
}
