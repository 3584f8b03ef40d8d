//! Whether the terminals of a trace graph are in a set.
ghost use Rattle.std.specs.Prelude.{◌≡◌, ◌↔◌, ◌∷◌, [], IsTrue, Some, Contains, option_copied};
ghost use Rattle.lalrpop_grammar.specs.declared.repr.TerminalString.{TerminalString};
ghost use Rattle.lalrpop_base.specs.Words.{HasKnownTerminals};
ghost use Rattle.lalrpop_traces.specs.traces.TraceGraphs.{AreKnownEdges, IsKnownLabel};

use super::trace_graph::TraceGraph;
use lalrpop_base::lr1_core::symbol_sets::SymbolSets;
use lalrpop_base::repr::Symbol;
use lalrpop_base::repr::terminals::TerminalSet;

impl<'grammar> TraceGraph<'grammar> {
    /// Whether each terminal of the cursors and suffixes of the edges is in the set.
    pub fn is_known(&self, terminals: &TerminalSet) -> bool
        ensures { IsTrue result ↔ AreKnownEdges terminals.now self.now.edges }
    {
        for number in 0..self.edges().len() {
            if !is_known_label(terminals, self.labels(number)) {
                return false;
            }
        }
        true
    }
}

// Whether each terminal of the cursor and the suffix is in the set.
fn is_known_label(terminals: &TerminalSet, labels: SymbolSets) -> bool
    ensures { IsTrue result ↔ IsKnownLabel terminals.now labels.entry }
{
    if !is_known_cursor(terminals, labels.cursor) {
        return false;
    }
    are_known(terminals, labels.suffix)
}

// Whether the symbol is in the set, if there is one and it is a terminal.
fn is_known_cursor(terminals: &TerminalSet, cursor: Option<&Symbol>) -> bool
    ensures { IsTrue result ↔ ((t : TerminalString) →
        option_copied cursor.entry ≡ Some (Symbol.Terminal t) →
        Contains terminals.now t) }
{
    match cursor {
        Some(symbol) => is_known(terminals, symbol),
        None => true,
    }
}

// Whether the symbol is in the set, if it is a terminal.
fn is_known(terminals: &TerminalSet, symbol: &Symbol) -> bool
    ensures { IsTrue result ↔ HasKnownTerminals terminals.now (symbol.now ∷ []) }
{
    match symbol {
        Symbol::Terminal(terminal) => terminals.bit(terminal).is_some(),
        Symbol::Nonterminal(_) => true,
    }
}

// Whether each terminal of some symbols is in the set.
fn are_known(terminals: &TerminalSet, symbols: &[Symbol]) -> bool
    ensures { IsTrue result ↔ HasKnownTerminals terminals.now symbols.now }
{
    for symbol in symbols {
        if !is_known(terminals, symbol) {
            return false;
        }
    }
    true
}
