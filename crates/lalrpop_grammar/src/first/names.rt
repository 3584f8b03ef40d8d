//! The names of the nonterminals of a grammar, by number.
ghost use Rattle.std.specs.Prelude.{◌≡◌, ◌+◌, ◌≤◌, length, IfOk};
ghost use Rattle.std.specs.Map.{keys_of};
ghost use Rattle.lalrpop_grammar.specs.first.FirstNumbers.{place};

use crate::repr::NonterminalString;
use crate::repr::grammar::Grammar;
use lalrpop_collections::memory::OutOfMemory;
use std::alloc::Global;
use std::marker::Model;

// The names of the nonterminals of a grammar, in their order. The number of a name is its place.
#[derive(Drop)]
pub(super) struct Names {
    names: Vec<NonterminalString>,
}

impl Model for Names {
    ghost use Rattle.std.specs.Prelude.{List};
    ghost use Rattle.std.specs.List.Sorted.{IsStrictlySortedBy};
    ghost use Rattle.lalrpop_grammar.specs.declared.repr.NonterminalString.{NonterminalString};
    ghost use Rattle.lalrpop_grammar.specs.grammars.WellFormed.{name_cmp};

    ghost Value = { List NonterminalString };

    ghost view = { λ names. names.names.items };

    ghost invariant = { λ names. IsStrictlySortedBy name_cmp names.names.items };
}

impl Names {
    // The names that have an entry in the grammar.
    pub(super) fn new(alloc: Global, grammar: &Grammar) -> Result<Self, OutOfMemory>
        ensures { IfOk result (λ names. names ≡ keys_of grammar.now.nonterminals.entries) }
    {
        let mut names = Vec::with_capacity(alloc, grammar.nonterminals.len())?;
        for (name, _entry) in grammar.nonterminals.iter() {
            names.push(name.clone(alloc)?)?;
        }
        Ok(Names { names })
    }

    // One more than the number of names, since all other names share the last number.
    pub(super) fn count(&self) -> usize
        ensures { result ≡ length self.now + 1 }
    {
        self.names.len() + 1
    }

    // The number of a name, or the count of all names if the name is not one of them.
    pub(super) fn number(&self, name: &NonterminalString) -> usize
        ensures place { result ≡ place self.now name.now }
        ensures most { result ≤ length self.now }
    {
        match self.names.binary_search(name) {
            Ok(place) => place,
            Err(_) => self.names.len(),
        }
    }
}
