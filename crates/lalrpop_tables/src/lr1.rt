//! LR(1) tables of a grammar.
ghost use Rattle.std.specs.Prelude.{IfOk, IfErr};
ghost use Rattle.lalrpop_base.specs.Words.{IsWellFormed};
ghost use Rattle.lalrpop_tables.specs.collapse.Lalr.{Collapses};
ghost use Rattle.lalrpop_tables.specs.answers.Lr1Answers.{AreTablesOf, AreBuiltTablesOf, FailsOn};
ghost use Rattle.lalrpop_tables.specs.answers.TablesOrCount.{AreTablesOrCount};

use crate::build::{TablesOrCount, build_lr1_states, lr1_states_or_count};
use crate::build_lalr::build_lalr_states;
use lalrpop_base::lr1_core::state::Lr1Result;
use lalrpop_base::memory::OutOfMemory;
use lalrpop_base::repr::NonterminalString;
use lalrpop_base::repr::grammar::Grammar;
use lalrpop_construction::options::{Method, Options};
use lalrpop_state_graph::renumber::renumber;
use std::alloc::Global;

// The states by their construction numbers, collapsed if the grammar and the method ask for it.
fn build_unnumbered_states<'grammar>(
    alloc: Global,
    grammar: &'grammar Grammar,
    start: NonterminalString,
    options: &Options,
) -> Lr1Result<'grammar>
    requires { IsWellFormed grammar.now }
    ensures tables { IfOk result (λ tables. AreBuiltTablesOf (Collapses grammar.now options.now)
        options.now.method options.now.max_copies grammar.now start tables.items) }
    ensures no_tables { IfErr result
        (FailsOn (Collapses grammar.now options.now) options.now.stop_after grammar.now start) }
{
    if grammar.algorithm.lalr {
        return build_lalr_states(alloc, grammar, start, options);
    }
    build_lr1_states(alloc, grammar, start, options)
}

/// The tables of a grammar for a start symbol, or its conflicts. Under `Method::Lane` they are lane
/// tables, if there are such and they pass the check. Else, and under `Method::Canonical`, the
/// canonical construction decides. State 0 is the first. After it come the states with a goto, and
/// then those without. The states of an error keep their construction numbers. The error is
/// `Memory` if an allocation fails.
pub fn build_states<'grammar>(
    alloc: Global,
    grammar: &'grammar Grammar,
    start: NonterminalString,
    options: &Options,
) -> Lr1Result<'grammar>
    requires { IsWellFormed grammar.now }
    // There are tables exactly if the grammar is LR(1), or, if states are collapsed, LALR(1). Else
    // the error has the conflicts.
    ensures tables { IfOk result (λ tables. AreTablesOf (Collapses grammar.now options.now)
        options.now.method options.now.max_copies grammar.now start tables.items) }
    ensures no_tables { IfErr result
        (FailsOn (Collapses grammar.now options.now) options.now.stop_after grammar.now start) }
{
    let states = build_unnumbered_states(alloc, grammar, start, options)?;
    let tables = renumber(alloc, states)?;
    Ok(tables)
}

/// The tables of a grammar for a start symbol, numbered as those of `build_states`, or how many
/// canonical conflicts it has. States are never collapsed, whatever `algorithm.lalr` says. No
/// conflict is listed. All conflicts are counted, since `stop_after` is not read. If they are more
/// than the greatest `usize`, that number is returned. The error is `OutOfMemory` if an allocation
/// fails.
pub fn build_states_or_count<'grammar>(
    alloc: Global,
    grammar: &'grammar Grammar,
    start: NonterminalString,
    options: &Options,
) -> Result<TablesOrCount<'grammar>, OutOfMemory>
    requires { IsWellFormed grammar.now }
    ensures answer { IfOk result (AreTablesOrCount options.now.method options.now.max_copies
        grammar.now start) }
{
    let answer = lr1_states_or_count(alloc, grammar, start, options)?;
    match answer {
        TablesOrCount::Tables(states) => Ok(TablesOrCount::Tables(renumber(alloc, states)?)),
        TablesOrCount::Conflicts(count) => Ok(TablesOrCount::Conflicts(count)),
    }
}
