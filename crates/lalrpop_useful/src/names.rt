//! Sets of names, and the productions of a grammar in one list.
ghost use Rattle.std.specs.Prelude.{◌≡◌, ◌++◌, IfOk, OnOk, map};
ghost use Rattle.lalrpop_grammar.specs.grammars.WellFormed.{productions};

use lalrpop_base::memory::OutOfMemory;
use lalrpop_base::repr::grammar::Grammar;
use lalrpop_base::repr::{NonterminalString, Production};
use lalrpop_collections::collections::Set;
use std::alloc::Global;

/// Names of nonterminals, ascending.
pub type NameSet = Set<NonterminalString>;

// All productions of a grammar, name by name.
pub(crate) fn all_productions<'grammar>(
    alloc: Global,
    grammar: &'grammar Grammar,
) -> Result<Vec<&'grammar Production>, OutOfMemory>
    ensures { IfOk result (λ all. map (λ p. p.now) all.items ≡ productions grammar.now) }
{
    let mut all = Vec::new(alloc);
    for (_name, entry) in grammar.nonterminals.iter() {
        add_each(&mut all, &entry.productions)?;
    }
    Ok(all)
}

// Adds productions to a list.
fn add_each<'grammar>(
    all: &mut Vec<&'grammar Production>,
    productions: &'grammar [Production],
) -> Result<(), OutOfMemory>
    ensures { OnOk result (map (λ p. p.now) all.new.items
        ≡ map (λ p. p.now) all.old.items ++ productions.now) }
{
    for production in productions {
        all.push(production)?;
    }
    Ok(())
}
