//! Builds the tables of a grammar, and prints them as a parser generator would. Then it checks
//! whether states are tables of the grammar, whatever made them. `check_tables` returns `true` for
//! the tables that were built, and `false` once each reduction has lost the end of input.
#![tactic(auto)]

mod generated;

ghost use Rattle.lalrpop_base.specs.Words.{IsWellFormed};

use generated::{print_actions, print_gotos};
use grammar_text::{name_of, read};
use lalrpop_base::lr1_core::coherent::are_coherent;
use lalrpop_base::lr1_core::state::Lr1State;
use lalrpop_base::memory::OutOfMemory;
use lalrpop_base::repr::NonterminalString;
use lalrpop_base::repr::grammar::Grammar;
use lalrpop_tables::build::Options;
use lalrpop_tables::check::check_tables;
use lalrpop_tables::lr1::build_states;
use std::alloc::Global;

const TEXT: &str = "S = E\nE = E \"+\" T\nE = T\nT = \"n\"";

fn main(rt: HostRuntime) -> anyhow::Result<()> {
    let alloc = rt.alloc();
    let grammar = read(alloc, TEXT)?;
    let start = name_of(alloc, "S")?;
    let mut states = build_states(alloc, &grammar, start.clone(alloc)?, &Options::default())?;
    print_actions(&rt, &grammar, &states)?;
    print_gotos(&rt, &grammar, &states)?;
    let first = start.clone(alloc)?;
    println!(rt; "built: {}", are_tables(alloc, &grammar, first, &states)?)?;
    for state in &mut states {
        for reduction in &mut state.reductions {
            reduction.0.take_eof(&grammar.terminals);
        }
    }
    println!(rt; "changed: {}", are_tables(alloc, &grammar, start, &states)?)?;
    Ok(())
}

// Whether states are tables of the grammar. `check_tables` requires coherent states, and at least
// one. Other states are no tables.
fn are_tables<'grammar>(
    alloc: Global,
    grammar: &'grammar Grammar,
    start: NonterminalString,
    states: &[Lr1State<'grammar>],
) -> Result<bool, OutOfMemory>
    requires { IsWellFormed grammar.now }
{
    if !are_coherent(states) {
        return Ok(false);
    }
    if states.is_empty() {
        return Ok(false);
    }
    check_tables(alloc, grammar, start, states)
}
