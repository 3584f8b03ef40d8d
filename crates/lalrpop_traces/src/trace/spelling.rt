//! The example that a path spells.
ghost use Rattle.std.specs.Prelude.{◌≡◌, ◌≤◌, ◌++◌, List, map, length, slice_get, option_copied, Some, Contains, IfOk, OnOk};
ghost use Rattle.lalrpop_base.specs.Words.{IsFirstSet, HasKnownTerminals};
ghost use Rattle.lalrpop_traces.specs.traces.Examples.{IsExampleOf, path_of, prefixes, suffixes, example_place, place_of, example_reductions, reduced_at, cursor_list, innermost, following};
ghost use Rattle.lalrpop_traces.specs.traces.TraceGraphs.{AreKnownEdges};
ghost use Rattle.lalrpop_grammar.specs.declared.repr.TerminalString.{TerminalString};

use super::enumerator::EnumeratorState;
use super::example::{Example, ExampleSymbol, Reduction};
use super::trace_graph::TraceGraph;
use lalrpop_base::first::FirstSets;
use lalrpop_base::lookahead::token_set::TokenSet;
use lalrpop_base::memory::OutOfMemory;
use lalrpop_base::repr::Symbol;
use std::alloc::Global;

/// FIRST of the innermost cursor and the symbols that follow it.
pub(crate) fn first_of<'grammar>(
    alloc: Global,
    first_sets: &FirstSets<'grammar>,
    graph: &TraceGraph<'grammar>,
    path: &[EnumeratorState],
) -> Result<TokenSet, OutOfMemory>
    requires known { AreKnownEdges first_sets.now.terminals graph.now.edges }
    ensures first { IfOk result
        (IsFirstSet first_sets.now (following graph.now (path_of path.now))) }
{
    let symbols = symbols_behind(alloc, graph, path)?;
    let set = first_sets.first0(alloc, &symbols)?;
    Ok(set)
}

// The innermost cursor, and the suffixes, the innermost first.
fn symbols_behind<'grammar>(
    alloc: Global,
    graph: &TraceGraph<'grammar>,
    path: &[EnumeratorState],
) -> Result<Vec<Symbol>, OutOfMemory>
    ensures known { IfOk result (λ symbols. (terminals : List TerminalString) →
        AreKnownEdges terminals graph.now.edges →
        HasKnownTerminals terminals symbols.items) }
    ensures following { IfOk result
        (λ symbols. symbols.items ≡ following graph.now (path_of path.now)) }
{
    let mut symbols = innermost_cursor(alloc, graph, path)?;
    let mut left = path;
    while let Some((inner, outer)) = left.split_first() {
        push_copies(alloc, graph.labels(inner.number).suffix, &mut symbols)?;
        left = outer;
    }
    Ok(symbols)
}

// The innermost cursor, if there is one.
fn innermost_cursor<'grammar>(
    alloc: Global,
    graph: &TraceGraph<'grammar>,
    path: &[EnumeratorState],
) -> Result<Vec<Symbol>, OutOfMemory>
    ensures known { IfOk result (λ symbols. (terminals : List TerminalString) →
        AreKnownEdges terminals graph.now.edges →
        HasKnownTerminals terminals symbols.items) }
    ensures innermost { IfOk result
        (λ symbols. symbols.items ≡ innermost graph.now (path_of path.now)) }
{
    let Some((inner, _)) = path.split_first() else {
        return Ok(Vec::new(alloc));
    };
    let labels = graph.labels(inner.number);
    let symbols = copy_cursor(alloc, labels.cursor)?;
    Ok(symbols)
}

// The symbol as a list, which is empty if there is none.
fn copy_cursor(alloc: Global, cursor: Option<&Symbol>) -> Result<Vec<Symbol>, OutOfMemory>
    ensures known { IfOk result (λ symbols. (terminals : List TerminalString) →
        ((t : TerminalString) →
        option_copied cursor.entry ≡ Some (Symbol.Terminal t) →
        Contains terminals t) →
        HasKnownTerminals terminals symbols.items) }
    ensures copied { IfOk result
        (λ symbols. symbols.items ≡ cursor_list (option_copied cursor.entry)) }
{
    let mut symbols = Vec::new(alloc);
    if let Some(symbol) = cursor {
        symbols.push(symbol.clone(alloc)?)?;
    }
    Ok(symbols)
}

// Appends copies of symbols to a list.
fn push_copies(alloc: Global, list: &[Symbol], symbols: &mut Vec<Symbol>) -> Result<(), OutOfMemory>
    ensures { OnOk result (symbols.new.items ≡ symbols.old.items ++ list.now) }
{
    for symbol in list {
        symbols.push(symbol.clone(alloc)?)?;
    }
    Ok(())
}

/// The example of a path.
pub(crate) fn example_of<'grammar>(
    alloc: Global,
    graph: &TraceGraph<'grammar>,
    path: &[EnumeratorState],
) -> Result<Example, OutOfMemory>
    ensures { IfOk result (IsExampleOf graph.now (path_of path.now)) }
{
    let mut symbols = Vec::new(alloc);
    push_prefixes(alloc, graph, path, &mut symbols)?;
    let cursor = symbols.len();
    push_place(alloc, graph, path, &mut symbols)?;
    let end = symbols.len();
    push_suffixes(alloc, graph, path, &mut symbols)?;
    let count = symbols.len();
    let reductions = reductions_of(alloc, graph, path, cursor, count - end, count)?;
    Ok(Example {
        symbols,
        cursor,
        reductions,
    })
}

// Appends copies of symbols to those of an example.
fn push_symbols(
    alloc: Global,
    list: &[Symbol],
    symbols: &mut Vec<ExampleSymbol>,
) -> Result<(), OutOfMemory>
    ensures { OnOk result
        (symbols.new.items ≡ symbols.old.items ++ map ExampleSymbol.Symbol list.now) }
{
    for symbol in list {
        symbols.push(ExampleSymbol::Symbol(symbol.clone(alloc)?))?;
    }
    Ok(())
}

// Appends the prefixes, the outermost first.
fn push_prefixes<'grammar>(
    alloc: Global,
    graph: &TraceGraph<'grammar>,
    path: &[EnumeratorState],
    symbols: &mut Vec<ExampleSymbol>,
) -> Result<(), OutOfMemory>
    ensures { OnOk result (symbols.new.items ≡ symbols.old.items ++ map ExampleSymbol.Symbol
        (prefixes graph.now (path_of path.now))) }
{
    let mut left = path;
    while let Some((outermost, inner)) = left.split_last() {
        push_symbols(alloc, graph.labels(outermost.number).prefix, symbols)?;
        left = inner;
    }
    Ok(())
}

// Appends the innermost cursor, or `Epsilon` for an empty right side.
fn push_place<'grammar>(
    alloc: Global,
    graph: &TraceGraph<'grammar>,
    path: &[EnumeratorState],
    symbols: &mut Vec<ExampleSymbol>,
) -> Result<(), OutOfMemory>
    ensures { OnOk result
        (symbols.new.items ≡ symbols.old.items ++ example_place graph.now (path_of path.now)) }
{
    let Some((innermost, _)) = path.split_first() else {
        return Ok(());
    };
    let labels = graph.labels(innermost.number);
    push_cursor(alloc, labels.cursor, labels.prefix, symbols)?;
    Ok(())
}

// Appends a cursor. If there is none, appends `Epsilon` if the prefix is empty.
fn push_cursor(
    alloc: Global,
    cursor: Option<&Symbol>,
    prefix: &[Symbol],
    symbols: &mut Vec<ExampleSymbol>,
) -> Result<(), OutOfMemory>
    ensures { OnOk result (symbols.new.items ≡ symbols.old.items ++ place_of
        (option_copied cursor.entry) prefix.now) }
{
    match cursor {
        Some(symbol) => {
            symbols.push(ExampleSymbol::Symbol(symbol.clone(alloc)?))?;
            Ok(())
        }
        None => {
            if prefix.is_empty() {
                symbols.push(ExampleSymbol::Epsilon)?;
            }
            Ok(())
        }
    }
}

// Appends the suffixes, the innermost first.
fn push_suffixes<'grammar>(
    alloc: Global,
    graph: &TraceGraph<'grammar>,
    path: &[EnumeratorState],
    symbols: &mut Vec<ExampleSymbol>,
) -> Result<(), OutOfMemory>
    ensures { OnOk result (symbols.new.items ≡ symbols.old.items ++ map ExampleSymbol.Symbol
        (suffixes graph.now (path_of path.now))) }
{
    let mut left = path;
    while let Some((innermost, outer)) = left.split_first() {
        push_symbols(alloc, graph.labels(innermost.number).suffix, symbols)?;
        left = outer;
    }
    Ok(())
}

// The reductions of an example, the innermost first. `count` is the number of all its symbols. The
// other numbers count its symbols before and after the innermost cursor.
fn reductions_of<'grammar>(
    alloc: Global,
    graph: &TraceGraph<'grammar>,
    path: &[EnumeratorState],
    before: usize,
    behind: usize,
    count: usize,
) -> Result<Vec<Reduction>, OutOfMemory>
    requires before { before ≡ length (prefixes graph.now (path_of path.now)) }
    requires behind { behind ≡ length (suffixes graph.now (path_of path.now)) }
    requires count { behind ≤ count }
    ensures { IfOk result (λ list. list.items ≡
        example_reductions graph.now count (path_of path.now)) }
{
    let mut reductions = Vec::new(alloc);
    let mut left = path;
    let mut before = before;
    let mut behind = behind;
    while let Some((innermost, outer)) = left.split_first() {
        let labels = graph.labels(innermost.number);
        before -= labels.prefix.len();
        behind -= labels.suffix.len();
        push_reduction(
            alloc,
            graph,
            innermost.number,
            before,
            count - behind,
            &mut reductions,
        )?;
        left = outer;
    }
    Ok(reductions)
}

// Appends the reduction of an edge, if there is such an edge.
fn push_reduction<'grammar>(
    alloc: Global,
    graph: &TraceGraph<'grammar>,
    edge: usize,
    start: usize,
    end: usize,
    reductions: &mut Vec<Reduction>,
) -> Result<(), OutOfMemory>
    ensures { OnOk result (reductions.new.items ≡ reductions.old.items ++ reduced_at
        (slice_get graph.now.edges edge) start end) }
{
    if let Some(nonterminal) = graph.reduced_name(alloc, edge)? {
        reductions.push(Reduction {
            start,
            end,
            nonterminal,
        })?;
    }
    Ok(())
}
