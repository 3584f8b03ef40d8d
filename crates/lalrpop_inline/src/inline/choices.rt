//! The ways to inline a nonterminal into a right side: a choice of an alternative for each
//! occurrence.
ghost use Rattle.std.specs.Prelude.{◌≡◌, ◌++◌, map, IfOk, OnOk};
ghost use Rattle.lalrpop_inline.specs.inlining.InlineChoices.{is_named, mentions, inlined, parts, followed, extended, choices, part_symbols, laid_out};

use lalrpop_base::memory::OutOfMemory;
use lalrpop_base::repr::inlined::{InlinedSymbol, clone_inlined_symbols};
use lalrpop_base::repr::{NonterminalString, Production, Symbol, Symbols, clone_symbols};
use lalrpop_base::sequence::Sequence;
use std::alloc::Global;

// Whether a symbol is the nonterminal of a name.
fn is_named(name: &NonterminalString, symbol: &Symbol) -> bool
    ensures { result ≡ is_named name.now symbol.now }
{
    match symbol {
        Symbol::Nonterminal(other) => other == name,
        Symbol::Terminal(_) => false,
    }
}

/// Whether symbols mention a nonterminal.
pub fn mentions(name: &NonterminalString, symbols: &[Symbol]) -> bool
    ensures { result ≡ mentions name.now symbols.now }
{
    symbols.iter().any(|symbol| is_named(name, symbol))
}

/// All choices of an alternative for each occurrence of a nonterminal. The choice for the leftmost
/// occurrence varies slowest. The error is `OutOfMemory` if an allocation fails.
pub fn choices(
    alloc: Global,
    name: &NonterminalString,
    alternatives: &[Production],
    symbols: &[Symbol],
) -> Result<Vec<Sequence<InlinedSymbol>>, OutOfMemory>
    ensures { IfOk result (λ made. made.items ≡ choices name.now alternatives.now symbols.now) }
{
    let mut made = Vec::new(alloc);
    made.push(Sequence::new(alloc))?;
    for symbol in symbols {
        let parts = parts(alloc, name, alternatives, symbol)?;
        made = extended(alloc, made, &parts)?;
    }
    Ok(made)
}

// The parts that may replace a symbol: the alternatives if it is the nonterminal, else the symbol.
fn parts(
    alloc: Global,
    name: &NonterminalString,
    alternatives: &[Production],
    symbol: &Symbol,
) -> Result<Vec<InlinedSymbol>, OutOfMemory>
    ensures { IfOk result (λ made. made.items ≡ parts name.now alternatives.now symbol.now) }
{
    if is_named(name, symbol) {
        return all_inlined(alloc, alternatives);
    }
    let mut made = Vec::new(alloc);
    made.push(InlinedSymbol::Original(symbol.clone(alloc)?))?;
    Ok(made)
}

// A part for each alternative.
fn all_inlined(
    alloc: Global,
    alternatives: &[Production],
) -> Result<Vec<InlinedSymbol>, OutOfMemory>
    ensures { IfOk result (λ made. made.items ≡ map inlined alternatives.now) }
{
    let mut made = Vec::new(alloc);
    for alternative in alternatives {
        made.push(inlined(alloc, alternative)?)?;
    }
    Ok(made)
}

// Each list followed by each of the parts. The list varies slowest.
fn extended(
    alloc: Global,
    fronts: Vec<Sequence<InlinedSymbol>>,
    parts: &[InlinedSymbol],
) -> Result<Vec<Sequence<InlinedSymbol>>, OutOfMemory>
    ensures { IfOk result (λ made. made.items ≡ extended parts.now fronts.items) }
{
    let mut made = Vec::new(alloc);
    for front in fronts {
        extend(alloc, front, parts, &mut made)?;
    }
    Ok(made)
}

// Adds the list followed by each of the parts. The list itself takes the last part, so a single
// part needs no copy.
fn extend(
    alloc: Global,
    mut front: Sequence<InlinedSymbol>,
    parts: &[InlinedSymbol],
    made: &mut Vec<Sequence<InlinedSymbol>>,
) -> Result<(), OutOfMemory>
    ensures { OnOk result (made.new.items ≡ made.old.items ++ followed front parts.now) }
{
    let Some((last, others)) = parts.split_last() else {
        return Ok(());
    };
    for part in others {
        let mut copy = clone_inlined_symbols(alloc, front.as_slice())?;
        copy.push(part.clone(alloc)?)?;
        made.push(copy)?;
    }
    front.push(last.clone(alloc)?)?;
    made.push(front)?;
    Ok(())
}

// An alternative as a part, which replaces the nonterminal.
fn inlined(alloc: Global, alternative: &Production) -> Result<InlinedSymbol, OutOfMemory>
    ensures { IfOk result (λ part. part ≡ inlined alternative.now) }
{
    let symbols = clone_symbols(alloc, alternative.symbols.as_slice())?;
    Ok(InlinedSymbol::Inlined(alternative.action, symbols))
}

/// The right side that the parts of a choice make: their symbols, one part after another.
pub fn laid_out(alloc: Global, parts: &[InlinedSymbol]) -> Result<Symbols, OutOfMemory>
    ensures { IfOk result (λ symbols. symbols ≡ laid_out parts.now) }
{
    let mut symbols = Sequence::new(alloc);
    for part in parts {
        push_part(alloc, part, &mut symbols)?;
    }
    Ok(symbols)
}

// Adds the symbols of a part.
fn push_part(alloc: Global, part: &InlinedSymbol, symbols: &mut Symbols) -> Result<(), OutOfMemory>
    ensures { OnOk result (symbols.new ≡ symbols.old ++ part_symbols part.now) }
{
    match part {
        InlinedSymbol::Original(symbol) => symbols.push(symbol.clone(alloc)?)?,
        InlinedSymbol::Inlined(_, inner) => {
            for symbol in inner.as_slice() {
                symbols.push(symbol.clone(alloc)?)?;
            }
        }
    }
    Ok(())
}
