//! Questions on kernels without lookahead.
use super::items::item_of;
use case_files::question::{Question, QuestionError};
use case_files::show::words::push_item;
use grammar_text::symbols::pieces;
use lalrpop_base::kernel_set::{self, KernelSet};
use lalrpop_base::lookahead::nil::Nil;
use lalrpop_base::memory::OutOfMemory;
use lalrpop_base::repr::grammar::Grammar;
use lalrpop_base::sequence::Sequence;
use lalrpop_tables::build::Kernel;
use std::alloc::Global;

/// Appends the numbers of the kernels that are added, and the kernels that `next` returns between the
/// additions. Returns `false` if the call has another name.
pub fn answer(
    alloc: Global,
    text: &mut String,
    question: &Question<'_>,
    grammar: &Grammar,
) -> Result<bool, QuestionError> {
    if question.call != "kernel_set" {
        return Ok(false);
    }
    let mut set = KernelSet::new(alloc);
    push_kernels(alloc, text, question, grammar, &mut set)?;
    Ok(true)
}

// Does what each argument asks for, on a set.
fn push_kernels<'grammar>(
    alloc: Global,
    text: &mut String,
    question: &Question<'_>,
    grammar: &'grammar Grammar,
    set: &mut KernelSet<Kernel<'grammar, Nil>>,
) -> Result<(), QuestionError> {
    for (place, word) in question.arguments.iter().enumerate() {
        if *word == "next" {
            push_next(text, set.next(), grammar)?;
        } else if !add_kernel(alloc, text, grammar, word, set)? {
            return Err(QuestionError::Argument(place.saturating_add(1)));
        }
    }
    Ok(())
}

// Adds the kernel that an argument names, and appends its number. Returns `false` if it names none.
fn add_kernel<'grammar>(
    alloc: Global,
    text: &mut String,
    grammar: &'grammar Grammar,
    word: &str,
    set: &mut KernelSet<Kernel<'grammar, Nil>>,
) -> Result<bool, OutOfMemory> {
    let Some(kernel) = kernel_of(alloc, grammar, word)? else {
        return Ok(false);
    };
    let copy = kernel_set::Kernel::copy(&kernel, alloc)?;
    let number = set.add_state(copy)?;
    write!(text, "added {number}\n")?;
    Ok(true)
}

// Appends the kernel that `next` returned, or `none`.
fn push_next(
    text: &mut String,
    next: Option<Kernel<'_, Nil>>,
    grammar: &Grammar,
) -> Result<(), OutOfMemory> {
    let Some(kernel) = next else {
        return Ok(text.push_str("next none\n")?);
    };
    text.push_str("next")?;
    for (place, item) in kernel.as_slice().iter().enumerate() {
        text.push_str(if place > 0 { " | " } else { " " })?;
        push_item(text, item, &grammar.terminals)?;
    }
    text.push_str("\n")?;
    Ok(())
}

// The kernel of the items that an argument names, between which `;` is. `None` if a part is no
// item, or if some dots are at the start and others are not.
fn kernel_of<'grammar>(
    alloc: Global,
    grammar: &'grammar Grammar,
    word: &str,
) -> Result<Option<Kernel<'grammar, Nil>>, OutOfMemory> {
    let mut items = Sequence::new(alloc);
    for piece in pieces(alloc, word, ';')? {
        match item_of(grammar, piece, 1) {
            Ok(item) => items.push(item)?,
            Err(_) => return Ok(None),
        }
    }
    if items.as_slice().iter().all(|item| item.index == 0) {
        return Ok(Some(Kernel::start(items)));
    }
    if items.as_slice().iter().all(|item| item.index > 0) {
        return Ok(Some(Kernel::shifted(items)));
    }
    Ok(None)
}
