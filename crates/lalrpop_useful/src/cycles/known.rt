//! What is known of cyclic nonterminals while they are looked for.
ghost use Rattle.std.specs.Prelude.{◌≡◌, ◌⊎◌, [], IfOk, OnOk, IsTrue, Contains};
ghost use Rattle.lalrpop_collections.specs.lists.CheckSets.{IsAdded};
ghost use Rattle.lalrpop_grammar.specs.grammars.WellFormed.{IsWellFormed, productions, rules_of};
ghost use Rattle.lalrpop_grammar.specs.declared.repr.NonterminalString.{NonterminalString};
ghost use Rattle.lalrpop_useful.specs.useful.Cycles.{AddsCyclic, DerivesAlone, IsCyclic};
ghost use Rattle.lalrpop_useful.specs.useful.KnownCycles.{AddsIf, AreSettledBut, IsKnown, IsNext, Meet};

use super::{derived_alone, visit_right_sides};
use crate::names::NameSet;
use lalrpop_base::exact::equal;
use lalrpop_base::first::FirstSets;
use lalrpop_base::memory::OutOfMemory;
use lalrpop_base::repr::NonterminalString;
use lalrpop_base::repr::grammar::Grammar;
use lalrpop_collections::collections::sets::{add_key, has_key};
use lalrpop_collections::collections::walk::Walk;
use std::alloc::Global;
use std::collections::BTreeSet;

// Settled nonterminals lead alone only to settled ones. One that is done is known to be cyclic or
// not. Each of the last ring that was found derives alone those that are onward.
#[derive(Drop)]
pub(crate) struct Known {
    pub(crate) settled: NameSet,
    pub(crate) done: NameSet,
    pub(crate) cyclic: NameSet,
    pub(crate) ring: NameSet,
    pub(crate) onward: NameSet,
}

impl Known {
    // Nothing is known.
    pub(crate) fn new(alloc: Global) -> Known
        ensures settled { result.settled.keys ≡ [] }
        ensures done { result.done.keys ≡ [] }
        ensures cyclic { result.cyclic.keys ≡ [] }
        ensures ring { result.ring.keys ≡ [] }
    {
        Known {
            settled: BTreeSet::new(alloc),
            done: BTreeSet::new(alloc),
            cyclic: BTreeSet::new(alloc),
            ring: BTreeSet::new(alloc),
            onward: BTreeSet::new(alloc),
        }
    }
}

// Finds out whether a nonterminal is cyclic. If those to which it leads are settled or in the last
// ring, one step is enough, and else a walk is made.
pub(crate) fn decide(
    alloc: Global,
    grammar: &Grammar,
    sets: &FirstSets<'_>,
    name: &NonterminalString,
    known: &mut Known,
) -> Result<(), OutOfMemory>
    requires well_formed { IsWellFormed grammar.now }
    requires sets { sets.now ≡ rules_of grammar.now }
    requires known { IsKnown grammar.now known.old }
    ensures known { OnOk result (IsKnown grammar.now known.new) }
    ensures adds { OnOk result (AddsCyclic (productions grammar.now) name.now
        known.old.cyclic.keys known.new.cyclic.keys) }
{
    if has_key(&known.done, name) {
        return Ok(());
    }
    let next = next_alone(alloc, grammar, sets, name)?;
    if are_settled(&next, name, &known.settled) {
        return settle(alloc, grammar, &next, name, known);
    }
    if has_key(&known.onward, name) && meet(&next, &known.ring) {
        return join_ring(alloc, grammar, &next, name, known);
    }
    walk_from(alloc, grammar, sets, name, known)
}

// The nonterminals to which one leads alone in one step.
pub(crate) fn next_alone(
    alloc: Global,
    grammar: &Grammar,
    sets: &FirstSets<'_>,
    name: &NonterminalString,
) -> Result<NameSet, OutOfMemory>
    requires { sets.now ≡ rules_of grammar.now }
    ensures { IfOk result (λ names. IsNext grammar.now name.now names.keys) }
{
    let mut walk = Walk::new(alloc);
    visit_right_sides(alloc, sets, grammar.productions_for(name), &mut walk)?;
    let Walk { visited, .. } = walk;
    Ok(visited)
}

// Whether each of some names is another name or settled.
fn are_settled(names: &NameSet, name: &NonterminalString, settled: &NameSet) -> bool
    ensures { IsTrue result → AreSettledBut name.now names.now.keys settled.now.keys }
{
    for other in names {
        if !is_settled(other, name, settled) {
            return false;
        }
    }
    true
}

// Whether a name is another one or settled.
fn is_settled(other: &NonterminalString, name: &NonterminalString, settled: &NameSet) -> bool
    ensures { IsTrue result → (other.now ≡ name.now) ⊎ Contains settled.now.keys other.now }
{
    equal(other, name) || has_key(settled, other)
}

// Whether two sets have a name in common.
fn meet(names: &NameSet, others: &NameSet) -> bool
    ensures { IsTrue result → Meet names.now.keys others.now.keys }
{
    for name in names {
        if has_key(others, name) {
            return true;
        }
    }
    false
}

// Settles a nonterminal that leads to settled ones, and perhaps to itself.
fn settle(
    alloc: Global,
    grammar: &Grammar,
    next: &NameSet,
    name: &NonterminalString,
    known: &mut Known,
) -> Result<(), OutOfMemory>
    requires well_formed { IsWellFormed grammar.now }
    requires known { IsKnown grammar.now known.old }
    requires fresh { Contains known.old.done.keys name.now → ⊥ }
    requires next { IsNext grammar.now name.now next.now.keys }
    requires settled { AreSettledBut name.now next.now.keys known.old.settled.keys }
    ensures known { OnOk result (IsKnown grammar.now known.new) }
    ensures adds { OnOk result (AddsCyclic (productions grammar.now) name.now
        known.old.cyclic.keys known.new.cyclic.keys) }
{
    let _names = grammar.nonterminals.len();
    add_if(alloc, has_key(next, name), name, &mut known.cyclic)?;
    add_name(alloc, name, &mut known.settled)?;
    add_name(alloc, name, &mut known.done)?;
    Ok(())
}

// Adds a nonterminal that leads into the last ring and is onward from it.
fn join_ring(
    alloc: Global,
    grammar: &Grammar,
    next: &NameSet,
    name: &NonterminalString,
    known: &mut Known,
) -> Result<(), OutOfMemory>
    requires well_formed { IsWellFormed grammar.now }
    requires known { IsKnown grammar.now known.old }
    requires next { IsNext grammar.now name.now next.now.keys }
    requires onward { Contains known.old.onward.keys name.now }
    requires meets { Meet next.now.keys known.old.ring.keys }
    ensures known { OnOk result (IsKnown grammar.now known.new) }
    ensures adds { OnOk result (AddsCyclic (productions grammar.now) name.now
        known.old.cyclic.keys known.new.cyclic.keys) }
{
    add_name(alloc, name, &mut known.cyclic)?;
    add_name(alloc, name, &mut known.ring)?;
    add_name(alloc, name, &mut known.done)?;
    Ok(())
}

// Finds out by a walk whether a nonterminal is cyclic.
fn walk_from(
    alloc: Global,
    grammar: &Grammar,
    sets: &FirstSets<'_>,
    name: &NonterminalString,
    known: &mut Known,
) -> Result<(), OutOfMemory>
    requires well_formed { IsWellFormed grammar.now }
    requires sets { sets.now ≡ rules_of grammar.now }
    requires known { IsKnown grammar.now known.old }
    ensures known { OnOk result (IsKnown grammar.now known.new) }
    ensures adds { OnOk result (AddsCyclic (productions grammar.now) name.now
        known.old.cyclic.keys known.new.cyclic.keys) }
{
    let derived = derived_alone(alloc, grammar, sets, name)?;
    if has_key(&derived, name) {
        return begin_ring(alloc, grammar, name, derived, known);
    }
    add_name(alloc, name, &mut known.done)?;
    Ok(())
}

// Begins a ring with a nonterminal that derives itself.
fn begin_ring(
    alloc: Global,
    grammar: &Grammar,
    name: &NonterminalString,
    derived: NameSet,
    known: &mut Known,
) -> Result<(), OutOfMemory>
    requires well_formed { IsWellFormed grammar.now }
    requires known { IsKnown grammar.now known.old }
    requires derived { (b : NonterminalString) → Contains derived.keys b →
        DerivesAlone (productions grammar.now) name.now b }
    requires cyclic { IsCyclic (productions grammar.now) name.now }
    ensures known { OnOk result (IsKnown grammar.now known.new) }
    ensures adds { OnOk result (AddsCyclic (productions grammar.now) name.now
        known.old.cyclic.keys known.new.cyclic.keys) }
{
    let mut ring = BTreeSet::new(alloc);
    add_name(alloc, name, &mut ring)?;
    add_name(alloc, name, &mut known.cyclic)?;
    add_name(alloc, name, &mut known.done)?;
    known.ring = ring;
    known.onward = derived;
    Ok(())
}

// Adds a copy of a name to a set, if a test holds.
fn add_if(
    alloc: Global,
    test: bool,
    name: &NonterminalString,
    set: &mut NameSet,
) -> Result<(), OutOfMemory>
    ensures { OnOk result (AddsIf test name.now set.old.keys set.new.keys) }
{
    if test {
        add_name(alloc, name, set)?;
    }
    Ok(())
}

// Adds a copy of a name to a set.
fn add_name(alloc: Global, name: &NonterminalString, set: &mut NameSet) -> Result<(), OutOfMemory>
    ensures { OnOk result (IsAdded name.now set.old.keys set.new.keys) }
{
    let copy = name.clone(alloc)?;
    let _added = add_key(set, copy)?;
    Ok(())
}
