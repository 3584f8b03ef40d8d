//! The parts that are timed. Each prints its number of states and its milliseconds. The part of
//! FIRST sets prints the number of nonterminals.
ghost use Rattle.lalrpop_base.specs.Words.{IsWellFormed};

use lalrpop_base::first::FirstSets;
use lalrpop_base::lr1_core::coherent::are_coherent;
use lalrpop_base::lr1_core::collapsible::are_collapsible;
use lalrpop_base::lr1_core::state::{
    BuildError, Lr1Result, Lr1State, LrResult, TableConstructionError,
};
use lalrpop_base::memory::OutOfMemory;
use lalrpop_base::repr::NonterminalString;
use lalrpop_base::repr::grammar::Grammar;
use lalrpop_lr1::report::report_text;
use lalrpop_tables::build::{Method, Options, build_lr0_states, build_lr1_states};
use lalrpop_tables::build_lalr::collapse_to_lalr_states;
use lalrpop_tables::check::check_tables;
use lalrpop_tables::lane_table::build_lane_table_states;
use std::io;
use std::time::Instant;

// Prints the name of a part, its number of states, and the time since it began.
fn tell(rt: &HostRuntime, part: &str, states: usize, begun: Instant) -> io::Result<()> {
    let milliseconds = begun.elapsed(rt)?.as_millis();
    println!(rt; "{part}: {states} states in {milliseconds} ms")
}

/// Times the FIRST sets of all nonterminals.
pub(crate) fn time_first(rt: &HostRuntime, grammar: &Grammar) -> anyhow::Result<()>
    requires { IsWellFormed grammar.now }
{
    let begun = Instant::now(rt)?;
    let _sets = FirstSets::new(rt.alloc(), grammar)?;
    let milliseconds = begun.elapsed(rt)?.as_millis();
    let count = grammar.nonterminals.len();
    println!(rt; "FIRST: {count} nonterminals in {milliseconds} ms")?;
    Ok(())
}

/// Times the LR(0) states.
pub(crate) fn time_lr0(
    rt: &HostRuntime,
    grammar: &Grammar,
    start: &NonterminalString,
) -> anyhow::Result<()>
    requires { IsWellFormed grammar.now }
{
    let start = start.clone(rt.alloc())?;
    let begun = Instant::now(rt)?;
    let answer = build_lr0_states(rt.alloc(), grammar, start);
    tell(rt, "LR(0)", count_of(&answer)?, begun)?;
    Ok(())
}

/// Times the lane tables, their check and their report.
pub(crate) fn time_lanes(
    rt: &HostRuntime,
    grammar: &Grammar,
    start: &NonterminalString,
) -> anyhow::Result<()>
    requires { IsWellFormed grammar.now }
{
    let copies = Options::default().max_copies;
    let begun = Instant::now(rt)?;
    let name = start.clone(rt.alloc())?;
    let answer = build_lane_table_states(rt.alloc(), grammar, name, copies);
    tell(rt, "lane tables", count_of(&answer)?, begun)?;
    time_check(rt, grammar, start, &answer)?;
    let begun = Instant::now(rt)?;
    let _text = report_text(rt.alloc(), &grammar.terminals, &answer)?;
    tell(rt, "report", count_of(&answer)?, begun)?;
    Ok(())
}

// Times the check of the result of a construction. States that are not coherent are not checked.
fn time_check<'grammar>(
    rt: &HostRuntime,
    grammar: &'grammar Grammar,
    start: &NonterminalString,
    answer: &Lr1Result<'grammar>,
) -> anyhow::Result<()>
    requires { IsWellFormed grammar.now }
{
    let states = states_of(answer)?;
    if !are_coherent(states) {
        return Ok(());
    }
    if states.is_empty() {
        return Ok(());
    }
    let name = start.clone(rt.alloc())?;
    let begun = Instant::now(rt)?;
    let _passes = check_tables(rt.alloc(), grammar, name, states)?;
    tell(rt, "check", states.len(), begun)?;
    Ok(())
}

/// Times the canonical states and their collapse.
pub(crate) fn time_canonical(
    rt: &HostRuntime,
    grammar: &Grammar,
    start: &NonterminalString,
) -> anyhow::Result<()>
    requires { IsWellFormed grammar.now }
{
    let options = Options {
        method: Method::Canonical,
        ..Options::default()
    };
    let begun = Instant::now(rt)?;
    let name = start.clone(rt.alloc())?;
    let answer = build_lr1_states(rt.alloc(), grammar, name, &options);
    tell(rt, "canonical", count_of(&answer)?, begun)?;
    time_collapse(rt, grammar, own_states_of(answer)?)
}

// Times the collapse of states, if they are collapsible.
fn time_collapse<'grammar>(
    rt: &HostRuntime,
    grammar: &'grammar Grammar,
    states: Vec<Lr1State<'grammar>>,
) -> anyhow::Result<()> {
    if !are_collapsible(&states) {
        return Ok(());
    }
    let begun = Instant::now(rt)?;
    let answer = collapse_to_lalr_states(rt.alloc(), states, &grammar.terminals);
    tell(rt, "collapse", count_of(&answer)?, begun)?;
    Ok(())
}

// The number of states, with or without conflicts.
fn count_of<L>(answer: &LrResult<'_, L>) -> Result<usize, OutOfMemory> {
    match answer {
        Ok(states) => Ok(states.len()),
        Err(BuildError::Conflicts(error)) => Ok(error.states.len()),
        Err(BuildError::Memory) => Err(OutOfMemory),
    }
}

// The states of a result, with or without conflicts.
fn states_of<'a, 'grammar>(
    answer: &'a Lr1Result<'grammar>,
) -> Result<&'a [Lr1State<'grammar>], OutOfMemory> {
    match answer {
        Ok(states) => Ok(states),
        Err(BuildError::Conflicts(error)) => Ok(&error.states),
        Err(BuildError::Memory) => Err(OutOfMemory),
    }
}

// The states of a result by value, with or without conflicts.
fn own_states_of<'grammar>(
    answer: Lr1Result<'grammar>,
) -> Result<Vec<Lr1State<'grammar>>, OutOfMemory> {
    match answer {
        Ok(states) => Ok(states),
        Err(BuildError::Conflicts(error)) => {
            let TableConstructionError {
                states,
                conflicts: _,
            } = error;
            Ok(states)
        }
        Err(BuildError::Memory) => Err(OutOfMemory),
    }
}
