//! An iterator over the edges of a state.
ghost use Rattle.std.specs.Prelude.{◌≡◌, List};
ghost use Rattle.std.specs.Iterator.{YieldsFirstBy, item_count};
ghost use Rattle.lalrpop_states.specs.states.Edges.{StateEdge, seen_edge, state_edges};

use super::coherent::SymbolRef;
use super::state::{State, StateIndex};
use lalrpop_grammar::repr::{NonterminalString, TerminalString};
use std::collections::btree_map;
use std::marker::Model;

/// An iterator over the edges of a state.
#[derive(Drop)]
pub struct Edges<'state> {
    shifts: btree_map::Iter<'state, TerminalString, StateIndex>,
    gotos: btree_map::Iter<'state, NonterminalString, StateIndex>,
}

impl<'state> Model for Edges<'state> {
    ghost use Rattle.std.specs.Prelude.{List};
    ghost use Rattle.lalrpop_states.specs.states.Edges.{StateEdge, state_edges};

    ghost Value = { List StateEdge };

    ghost view = { λ e. state_edges e.shifts e.gotos };
}

impl<'grammar, L> State<'grammar, L> {
    /// The edges of the state: the shifts by rising terminal, and then the gotos by rising name.
    pub fn edges(&self) -> Edges<'_>
        ensures edges { result ≡ state_edges self.now.shifts.entries self.now.gotos.entries }
    {
        Edges {
            shifts: self.shifts.iter(),
            gotos: self.gotos.iter(),
        }
    }
}

impl<'state> Iterator for Edges<'state> {
    type Item = (SymbolRef<'state>, StateIndex);

    ghost next_gives = { YieldsFirstBy seen_edge (λ (edges : List StateEdge). edges) };

    ghost remaining = { item_count (λ (edges : List StateEdge). edges) };

    fn next(&mut self) -> Option<(SymbolRef<'state>, StateIndex)> {
        if let Some((terminal, target)) = self.shifts.next() {
            return Some((SymbolRef::Terminal(terminal), *target));
        }
        let (name, target) = self.gotos.next()?;
        Some((SymbolRef::Nonterminal(name), *target))
    }
}
