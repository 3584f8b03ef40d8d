//! The check of states by the numbers of their items. If it returns `true`, the states are tables.
//! If it returns `false`, they may be tables or not.
mod leading;
mod reached;
mod tokens;

ghost use Rattle.std.specs.Prelude.{◌≡◌, ◌<◌, length, IfOk, IsTrue};
ghost use Rattle.lalrpop_base.specs.Words.{AreCoherent, IsWellFormed, rules_of, AreNumbers};
ghost use Rattle.lalrpop_check.specs.check.Check.{PassCheck};
ghost use Rattle.lalrpop_check.specs.check.ByNumber.{AreListedByNumber};

use self::leading::all_lead_on;
use self::reached::{are_reached, lead_to_first};
use self::tokens::hold_lookaheads;
use crate::check::numbered_states::listed::listed_by_number;
use lalrpop_base::lookahead::nil::Nil;
use lalrpop_base::lr1_core::all_conflicts::have_no_conflict;
use lalrpop_base::lr1_core::state::Lr1State;
use lalrpop_base::memory::OutOfMemory;
use lalrpop_base::numbers::Numbers;
use lalrpop_base::repr::NonterminalString;
use lalrpop_base::repr::grammar::Grammar;
use lalrpop_construction::construction::lr::Lr;
use lalrpop_construction::construction::numbered_state::NumberedState;
use lalrpop_follow_sets::follow_sets::FollowSets;
use std::alloc::Global;

// Whether states that are known to list closures by number pass the check. A `false` says nothing.
fn numbered_pass<'grammar>(
    alloc: Global,
    grammar: &'grammar Grammar,
    start: &NonterminalString,
    states: &[Lr1State<'grammar>],
    numbers: &Numbers<'grammar>,
    numbered: &[NumberedState],
) -> Result<bool, OutOfMemory>
    requires well_formed { IsWellFormed grammar.now }
    requires coherent { AreCoherent states.now }
    requires some { 0 < length states.now }
    requires numbers { AreNumbers (rules_of grammar.now) numbers.now }
    requires listed { AreListedByNumber (rules_of grammar.now) start.now numbers.now
        states.now numbered.now }
    ensures { IfOk result (λ yes. IsTrue yes → PassCheck grammar.now start.now states.now) }
{
    let _terminals = grammar.terminals.all();
    if !all_lead_on(numbers, numbered) {
        return Ok(false);
    }
    if lead_to_first(states) {
        return Ok(false);
    }
    if !are_reached(alloc, numbered)? {
        return Ok(false);
    }
    if !have_no_conflict(alloc, states, &grammar.terminals)? {
        return Ok(false);
    }
    let found = FollowSets::new(alloc, grammar, start, states, numbers, numbered)?;
    let held = hold_lookaheads(alloc, grammar, states, &found, numbered)?;
    Ok(held)
}

/// Whether the numbers of their items show that the states are tables of a grammar. A `false` says
/// nothing.
pub(super) fn pass_by_number<'grammar>(
    alloc: Global,
    grammar: &'grammar Grammar,
    lr: &Lr<'grammar, Nil>,
    start: &NonterminalString,
    states: &[Lr1State<'grammar>],
) -> Result<bool, OutOfMemory>
    requires well_formed { IsWellFormed grammar.now }
    requires coherent { AreCoherent states.now }
    requires some { 0 < length states.now }
    requires rules { lr.now.construction.rules ≡ rules_of grammar.now }
    requires start { lr.now.construction.start ≡ start.now }
    ensures { IfOk result (λ yes. IsTrue yes → PassCheck grammar.now start.now states.now) }
{
    let numbers = lr.numbers();
    let Some(numbered) = listed_by_number(alloc, lr, numbers, states)? else {
        return Ok(false);
    };
    numbered_pass(alloc, grammar, start, states, numbers, &numbered)
}
