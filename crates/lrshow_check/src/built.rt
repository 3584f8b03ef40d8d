//! The tables of a grammar, or its conflicts.
ghost use Rattle.std.specs.Prelude.{◌≡◌, IfOk, false};
ghost use Rattle.lalrpop_base.specs.Words.{IsWellFormed};
ghost use Rattle.lrshow_check.specs.Built.{AreBuilt};

use lalrpop_base::lr1_core::state::{BuildError, Lr1Conflict, Lr1State, Lr1TableConstructionError};
use lalrpop_base::memory::OutOfMemory;
use lalrpop_base::repr::NonterminalString;
use lalrpop_base::repr::grammar::Grammar;
use lalrpop_tables::build::{Method, Options};
use lalrpop_tables::lr1::build_states;
use std::alloc::Global;

/// Tables, without conflicts; or the states with conflicts, and the conflicts.
#[derive(Drop)]
pub struct Built<'grammar> {
    /// The exit status: 0 for tables, 1 for conflicts.
    pub status: u8,
    pub states: Vec<Lr1State<'grammar>>,
    pub conflicts: Vec<Lr1Conflict<'grammar>>,
}

/// The tables of a grammar by a method, or the states with conflicts and the conflicts.
pub fn build<'grammar>(
    alloc: Global,
    grammar: &'grammar Grammar,
    start: NonterminalString,
    method: Method,
) -> Result<Built<'grammar>, OutOfMemory>
    requires well_formed { IsWellFormed grammar.now }
    requires canonical { grammar.now.algorithm.lalr ≡ false }
    ensures { IfOk result
        (λ b. AreBuilt method grammar.now start b.status b.states.items b.conflicts.items) }
{
    let options = Options {
        method,
        ..Options::default()
    };
    match build_states(alloc, grammar, start, &options) {
        Ok(states) => Ok(Built {
            status: 0,
            states,
            conflicts: Vec::new(alloc),
        }),
        Err(BuildError::Conflicts(error)) => Ok(failed(error)),
        Err(BuildError::Memory) => Err(OutOfMemory),
    }
}

// The states and the conflicts of an error, with the exit status 1.
fn failed(error: Lr1TableConstructionError<'_>) -> Built<'_>
    ensures status { result.status ≡ 1 }
    ensures states { result.states.items ≡ error.entry.states.items }
    ensures conflicts { result.conflicts.items ≡ error.entry.conflicts.items }
{
    Built {
        status: 1,
        states: error.states,
        conflicts: error.conflicts,
    }
}
