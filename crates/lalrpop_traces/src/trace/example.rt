//! An input that leads to an item, and what is reduced in it.
ghost use Rattle.std.specs.Prelude.{◌≡◌, IfOk, Some};
ghost use Rattle.std.specs.Fmt.{WritesOnOk};
ghost use Rattle.std.specs.List.{flat_map};
ghost use Rattle.lalrpop_traces.specs.traces.ExampleTexts.{after_mark, before_mark, example_text};
ghost use Rattle.lalrpop_traces.specs.traces.Examples.{IsSameExample};

use lalrpop_base::memory::OutOfMemory;
use lalrpop_base::repr::{NonterminalString, Symbol};
use std::alloc::Global;
use std::cmp::min;
use std::fmt;

/// A symbol of an example, or the place of an empty right side.
#[derive(Debug, Drop, PartialEq, Eq)]
pub enum ExampleSymbol {
    Symbol(Symbol),
    Epsilon,
}

/// A reduction to a nonterminal: of the symbols from the index `start` to before `end`.
#[derive(Debug, Drop, PartialEq, Eq)]
pub struct Reduction {
    pub start: usize,
    pub end: usize,
    pub nonterminal: NonterminalString,
}

/// An input, how many of its symbols were read (`cursor`), and its reductions, the innermost first.
#[derive(Debug, Drop, PartialEq, Eq)]
pub struct Example {
    pub symbols: Vec<ExampleSymbol>,
    pub cursor: usize,
    pub reductions: Vec<Reduction>,
}

impl ExampleSymbol {
    /// A copy of the symbol.
    pub fn clone(&self, alloc: Global) -> Result<Self, OutOfMemory>
        ensures { IfOk result (λ copy. copy ≡ self.now) }
    {
        match self {
            ExampleSymbol::Symbol(symbol) => Ok(ExampleSymbol::Symbol(symbol.clone(alloc)?)),
            ExampleSymbol::Epsilon => Ok(ExampleSymbol::Epsilon),
        }
    }
}

impl Reduction {
    /// A copy of the reduction.
    pub fn clone(&self, alloc: Global) -> Result<Self, OutOfMemory>
        ensures { IfOk result (λ copy. copy ≡ self.now) }
    {
        Ok(Reduction {
            start: self.start,
            end: self.end,
            nonterminal: self.nonterminal.clone(alloc)?,
        })
    }
}

impl Example {
    /// A copy of the example.
    pub fn clone(&self, alloc: Global) -> Result<Self, OutOfMemory>
        ensures { IfOk result (IsSameExample self.now) }
    {
        Ok(Example {
            symbols: clone_symbols(alloc, &self.symbols)?,
            cursor: self.cursor,
            reductions: clone_reductions(alloc, &self.reductions)?,
        })
    }
}

fn clone_symbols(
    alloc: Global,
    symbols: &[ExampleSymbol],
) -> Result<Vec<ExampleSymbol>, OutOfMemory>
    ensures { IfOk result (λ copy. copy.items ≡ symbols.now) }
{
    let mut copy = Vec::new(alloc);
    for symbol in symbols {
        copy.push(symbol.clone(alloc)?)?;
    }
    Ok(copy)
}

fn clone_reductions(alloc: Global, reductions: &[Reduction]) -> Result<Vec<Reduction>, OutOfMemory>
    ensures { IfOk result (λ copy. copy.items ≡ reductions.now) }
{
    let mut copy = Vec::new(alloc);
    for reduction in reductions {
        copy.push(reduction.clone(alloc)?)?;
    }
    Ok(copy)
}

/// Prints the symbols, with `(*)` at the cursor: `E "+" E (*) "+" E`.
impl fmt::Display for Example {
    ghost output = { λ example. Some (example_text example.symbols.items example.cursor) };

    fn fmt<W: fmt::Write>(&self, f: &mut fmt::Formatter<W>) -> fmt::Result {
        let (before, after) = self.symbols.split_at(min(self.cursor, self.symbols.len()));
        show_before(before, f)?;
        f.write_str("(*)")?;
        show_after(after, f)
    }
}

// Writes symbols, each before a space.
fn show_before<W: fmt::Write>(symbols: &[ExampleSymbol], f: &mut fmt::Formatter<W>) -> fmt::Result
    ensures { WritesOnOk W.write_str_gives f.old result (flat_map before_mark symbols.now) f.new }
{
    for symbol in symbols {
        show_one_before(symbol, f)?;
    }
    Ok(())
}

// Writes a symbol before a space. The place of a right side without symbols is not shown.
fn show_one_before<W: fmt::Write>(symbol: &ExampleSymbol, f: &mut fmt::Formatter<W>) -> fmt::Result
    ensures { WritesOnOk W.write_str_gives f.old result (before_mark symbol.now) f.new }
{
    match symbol {
        ExampleSymbol::Symbol(symbol) => write!(f, "{symbol} "),
        ExampleSymbol::Epsilon => Ok(()),
    }
}

// Writes symbols, each after a space.
fn show_after<W: fmt::Write>(symbols: &[ExampleSymbol], f: &mut fmt::Formatter<W>) -> fmt::Result
    ensures { WritesOnOk W.write_str_gives f.old result (flat_map after_mark symbols.now) f.new }
{
    for symbol in symbols {
        show_one_after(symbol, f)?;
    }
    Ok(())
}

// Writes a symbol after a space.
fn show_one_after<W: fmt::Write>(symbol: &ExampleSymbol, f: &mut fmt::Formatter<W>) -> fmt::Result
    ensures { WritesOnOk W.write_str_gives f.old result (after_mark symbol.now) f.new }
{
    match symbol {
        ExampleSymbol::Symbol(symbol) => write!(f, " {symbol}"),
        ExampleSymbol::Epsilon => Ok(()),
    }
}
