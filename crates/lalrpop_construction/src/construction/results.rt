//! The results of a construction: states as tables, or an error with their conflicts.
ghost use Rattle.std.specs.Prelude.{◌≡◌, [], IfOk, OnOk, IfErr, ◌++◌, List};
ghost use Rattle.lalrpop_base.specs.Words.{FailWith};
ghost use Rattle.lalrpop_states.specs.declared.lr1_core.state.Conflict.{Conflict};

use super::lr::Lr;
use lalrpop_base::lookahead::Lookahead;
use lalrpop_base::lr1_core::state::{
    BuildError, Conflict, LrResult, State, TableConstructionError,
};
use lalrpop_base::memory::OutOfMemory;
use std::alloc::Global;

/// Adds the conflicts of a state after the others. `OutOfMemory` if an allocation fails.
pub fn push_conflicts<'grammar, L: Lookahead>(
    alloc: Global,
    lr: &Lr<'grammar, L>,
    state: &State<'grammar, L>,
    list: &mut Vec<Conflict<'grammar, L>>,
) -> Result<(), OutOfMemory>
    ensures { OnOk result ((own : List (Conflict L)) × L.lists_conflicts state.now
        lr.now.construction.rules.terminals own × (list.new.items ≡ list.old.items ++ own)) }
{
    let grammar = lr.grammar();
    let mut more = L::conflicts(alloc, state, &grammar.terminals)?;
    list.append(&mut more)?;
    Ok(())
}

/// The states as tables if there is no conflict, or an error with the states and conflicts.
pub fn tables_or_conflicts<'grammar, L: Lookahead>(
    states: Vec<State<'grammar, L>>,
    conflicts: Vec<Conflict<'grammar, L>>,
) -> LrResult<'grammar, L>
    ensures ok { IfOk result
        (λ tables. (tables.items ≡ states.entry.items) × (conflicts.entry.items ≡ [])) }
    ensures failure { IfErr result (FailWith states.entry.items conflicts.entry.items) }
{
    if conflicts.is_empty() {
        return Ok(states);
    }
    Err(BuildError::Conflicts(TableConstructionError { states, conflicts }))
}
