//! The data that a pass over states reads.
ghost use Rattle.lalrpop_grammar.specs.declared.repr.NonterminalString.{NonterminalString as Name};
ghost use Rattle.lalrpop_grammar.specs.declared.repr.Symbol.TheVariants.{Nonterminal};
ghost use Rattle.lalrpop_follow_sets.specs.follow_sets.FollowNodes.{IsNodeName, IsPass};
ghost use Rattle.lalrpop_base.specs.Words.{AreExpansions};

use super::nodes::Nodes;
use super::start::Start;
use lalrpop_base::lr1_core::state::Lr1State;
use lalrpop_base::numbers::Numbers;
use lalrpop_base::numbers::suffixes::Suffix;
use lalrpop_base::repr::NonterminalString;
use lalrpop_base::repr::grammar::Grammar;
use lalrpop_construction::construction::numbered_state::NumberedState;

/// States of a grammar as they are and by number, the suffixes of dotted productions, and the nodes
/// of the follow graph.
#[derive(Drop)]
pub(super) struct Pass<'pass, 'grammar> {
    pub(super) grammar: &'grammar Grammar,
    /// The start symbol.
    pub(super) name: &'pass NonterminalString,
    pub(super) states: &'pass [Lr1State<'grammar>],
    pub(super) numbers: &'pass Numbers<'grammar>,
    pub(super) numbered: &'pass [NumberedState],
    pub(super) suffixes: &'pass [Option<Suffix>],
    pub(super) start: &'pass Start,
    pub(super) nodes: &'pass Nodes,
}

impl<'pass, 'grammar> Pass<'pass, 'grammar> {
    /// The numbers of the productions of a node's nonterminal with the dot at the start. `symbol`
    /// is the number of the nonterminal in the node.
    pub(super) fn expansions(&self, symbol: usize) -> &'pass [usize]
        requires { IsPass self.now }
        ensures { (a : Name) →
            IsNodeName self.now symbol a →
            AreExpansions self.now.numbers.now.items.items (Nonterminal a) result.now }
    {
        match self.numbers.expansions.get(symbol) {
            Some(expansions) => expansions,
            None => &self.start.expansions,
        }
    }
}
