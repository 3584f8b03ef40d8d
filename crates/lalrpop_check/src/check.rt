//! The check of tables, whoever made them. If it returns `true`, the tables are faithful.
mod by_number;
mod carrying;
mod closing;
mod numbered_states;
mod states;

ghost use Rattle.std.specs.Prelude.{◌≡◌, ◌↔◌, ◌<◌, IfOk, IsTrue, length};
ghost use Rattle.lalrpop_base.specs.Words.{AreClosed, AreChecked, AreCoherent, contents, AreFaithful, IsWellFormed, productions, rules_of};
ghost use Rattle.lalrpop_check.specs.check.Check.{PassCheck, HoldCarried};

use self::by_number::pass_by_number;
use self::carrying::{all_have_carried, carried};
use self::states::{are_right_states, listed_states, targets};
use lalrpop_base::first::FirstSets;
use lalrpop_base::lookahead::nil::Nil;
use lalrpop_base::lr1_core::state::Lr1State;
use lalrpop_base::memory::OutOfMemory;
use lalrpop_base::repr::NonterminalString;
use lalrpop_base::repr::grammar::Grammar;
use lalrpop_construction::construction::lr::Lr;
use std::alloc::Global;

// Whether the reductions of closed states hold the tokens that are carried to them.
fn hold_carried<'grammar>(
    alloc: Global,
    grammar: &'grammar Grammar,
    first_sets: &FirstSets<'grammar>,
    start: &NonterminalString,
    states: &[Lr1State<'grammar>],
) -> Result<bool, OutOfMemory>
    requires well_formed { IsWellFormed grammar.now }
    requires firsts { first_sets.now ≡ rules_of grammar.now }
    requires closed { AreClosed (productions grammar.now) start.now
        (contents grammar.now.terminals states.now) }
    ensures { IfOk result (λ yes. IsTrue yes ↔ HoldCarried grammar.now start.now states.now) }
{
    let _terminals = grammar.terminals.all();
    let table = carried(alloc, grammar, first_sets, start, states)?;
    let held = all_have_carried(alloc, &table, states)?;
    Ok(held)
}

/// Whether states are tables of a grammar. These conditions are checked:
///
/// - State 0 is the closure of the start symbol's productions.
/// - Each target of an edge is the closure of the moved items.
/// - Transitions and reductions are those of the items.
/// - Each reduction holds the tokens that the states' own edges carry to it.
/// - No state has a conflict.
///
/// Each item of a state is visited a small constant number of times for each token. `OutOfMemory`
/// if an allocation fails.
#[tactic(auto, using(lalrpop_construction::proofs::theory::construction::Lookaheads::nothing_fits))]
pub fn check_tables<'grammar>(
    alloc: Global,
    grammar: &'grammar Grammar,
    start: NonterminalString,
    states: &[Lr1State<'grammar>],
) -> Result<bool, OutOfMemory>
    requires well_formed { IsWellFormed grammar.now }
    requires coherent { AreCoherent states.now }
    requires some { 0 < length states.now }
    ensures exact { IfOk result (λ yes. IsTrue yes ↔ PassCheck grammar.now start states.now) }
    ensures checked { IfOk result (λ yes. IsTrue yes →
        AreChecked (productions grammar.now) start (contents grammar.now.terminals states.now)) }
    ensures faithful { IfOk result (λ yes. IsTrue yes →
        AreFaithful (productions grammar.now) start (contents grammar.now.terminals states.now)) }
{
    let lr = Lr::new(alloc, grammar, start.clone(alloc)?, Nil)?;
    check_over(alloc, grammar, &lr, start, states)
}

/// Returns the same as `check_tables`. The caller passes `lr`, a construction without lookahead of
/// the same grammar and start symbol, so none is made.
pub fn check_over<'grammar>(
    alloc: Global,
    grammar: &'grammar Grammar,
    lr: &Lr<'grammar, Nil>,
    start: NonterminalString,
    states: &[Lr1State<'grammar>],
) -> Result<bool, OutOfMemory>
    requires well_formed { IsWellFormed grammar.now }
    requires coherent { AreCoherent states.now }
    requires some { 0 < length states.now }
    requires rules { lr.now.construction.rules ≡ rules_of grammar.now }
    requires start { lr.now.construction.start ≡ start }
    ensures exact { IfOk result (λ yes. IsTrue yes ↔ PassCheck grammar.now start states.now) }
    ensures checked { IfOk result (λ yes. IsTrue yes →
        AreChecked (productions grammar.now) start (contents grammar.now.terminals states.now)) }
    ensures faithful { IfOk result (λ yes. IsTrue yes →
        AreFaithful (productions grammar.now) start (contents grammar.now.terminals states.now)) }
{
    if pass_by_number(alloc, grammar, lr, &start, states)? {
        return Ok(true);
    }
    let listed = listed_states(alloc, states)?;
    let targets = targets(alloc, states)?;
    if !are_right_states(alloc, grammar, &start, &listed, &targets, states)? {
        return Ok(false);
    }
    let held = hold_carried(alloc, grammar, lr.first_sets(), &start, states)?;
    Ok(held)
}
