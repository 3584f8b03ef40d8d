//! Examples of input.
use lalrpop_base::memory::OutOfMemory;
use lalrpop_lr1::trace::{Example, ExampleSymbol, Reduction};
use std::alloc::Global;

/// Appends an example after `head`: its symbols, the place of its cursor and its reductions. Copies
/// of its parts are shown, so that `clone` is tried.
pub(crate) fn push_example(
    alloc: Global,
    text: &mut String,
    head: &str,
    example: &Example,
) -> Result<(), OutOfMemory> {
    text.push_str(head)?;
    for symbol in &example.symbols {
        push_symbol(text, &symbol.clone(alloc)?)?;
    }
    write!(text, " at {} reductions", example.cursor)?;
    push_reductions(alloc, text, &example.reductions)
}

// Appends a symbol of an example after a space. `Epsilon`, which marks a right side without
// symbols, is shown as a pair of parentheses.
fn push_symbol(text: &mut String, symbol: &ExampleSymbol) -> Result<(), OutOfMemory> {
    match symbol {
        ExampleSymbol::Symbol(symbol) => write!(text, " {symbol}")?,
        ExampleSymbol::Epsilon => text.push_str(" ()")?,
    }
    Ok(())
}

// Appends reductions, each after a space, or a hyphen if there are none, and a line end.
fn push_reductions(
    alloc: Global,
    text: &mut String,
    reductions: &[Reduction],
) -> Result<(), OutOfMemory> {
    if reductions.is_empty() {
        text.push_str(" -")?;
    }
    for reduction in reductions {
        let copy = reduction.clone(alloc)?;
        write!(text, " {}..{} {}", copy.start, copy.end, copy.nonterminal)?;
    }
    text.push_str("\n")?;
    Ok(())
}
