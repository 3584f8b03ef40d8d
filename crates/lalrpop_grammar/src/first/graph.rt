//! The graph of FIRST sets. FIRST of a name has the terminals with which its rests begin, and FIRST
//! of the names with which they begin.
ghost use Rattle.std.specs.Prelude.{◌≡◌, ◌+◌, ◌<◌, ℕ, List, [], length, IfOk, OnOk, Contains};
ghost use Rattle.lalrpop_grammar.specs.declared.repr.Symbol.{Symbol};
ghost use Rattle.lalrpop_grammar.specs.first.FirstGraphs.{IsAdded, IsGraph, IsSized};

use super::names::Names;
use super::rests::Rest;
use crate::lookahead::token_set::TokenSet;
use crate::repr::Symbol;
use crate::repr::terminals::TerminalSet;
use lalrpop_collections::memory::OutOfMemory;
use std::alloc::Global;

// For each name the terminals with which its rests begin, the numbers of the names with a rest that
// begins with it, and whether it has the empty rest. All names without an entry share the last
// number.
#[derive(Drop)]
pub(super) struct Graph {
    pub sets: Vec<TokenSet>,
    pub edges: Vec<Vec<usize>>,
    pub nullable: Vec<bool>,
}

// The graph of some rests.
pub(super) fn graph_of(
    alloc: Global,
    terminals: &TerminalSet,
    names: &Names,
    rests: &[Rest<'_>],
) -> Result<Graph, OutOfMemory>
    requires { (n : ℕ) (l : List Symbol) → Contains rests.now (n, l) → n < length names.now }
    ensures { IfOk result (λ graph. IsGraph terminals.now names.now rests.now graph) }
{
    let mut graph = empty_graph(alloc, terminals, names)?;
    for rest in rests {
        add_rest(terminals, names, rest, &mut graph)?;
    }
    Ok(graph)
}

// The graph of no rests.
fn empty_graph(alloc: Global, terminals: &TerminalSet, names: &Names) -> Result<Graph, OutOfMemory>
    ensures { IfOk result (λ graph. IsGraph terminals.now names.now [] graph) }
{
    let count = names.count();
    let mut sets = Vec::with_capacity(alloc, count)?;
    let mut edges = Vec::with_capacity(alloc, count)?;
    let mut nullable = Vec::with_capacity(alloc, count)?;
    for _name in 0..count {
        sets.push(TokenSet::new(alloc, terminals))?;
        edges.push(Vec::new(alloc))?;
        nullable.push(false)?;
    }
    Ok(Graph {
        sets,
        edges,
        nullable,
    })
}

// Adds a rest to the graph of the rests before it.
fn add_rest(
    terminals: &TerminalSet,
    names: &Names,
    rest: &Rest<'_>,
    graph: &mut Graph,
) -> Result<(), OutOfMemory>
    requires within { rest.now.0 < length names.now }
    requires sized { IsSized (length names.now + 1) graph.old }
    ensures { OnOk result (IsAdded terminals.now names.now rest.now graph.old graph.new) }
{
    let (number, symbols) = rest.parts();
    let Some((first, _after)) = symbols.split_first() else {
        graph.nullable[number] = true;
        return Ok(());
    };
    match first {
        Symbol::Terminal(terminal) => {
            let _all = terminals.all();
            let Some(bit) = terminals.bit(terminal) else {
                return Ok(());
            };
            graph.sets[number].insert_bit(bit)?;
            Ok(())
        }
        Symbol::Nonterminal(name) => {
            graph.edges[names.number(name)].push(number)?;
            Ok(())
        }
    }
}
