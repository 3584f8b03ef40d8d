//! The conditions of the check of tables on each state by itself.
ghost use Rattle.std.specs.Prelude.{◌≡◌, ◌↔◌, ◌⊎◌, ℕ, IfOk, OnOk, Contains, IsTrue, MatchOption, length, slice_get, Some};
ghost use Rattle.lalrpop_base.specs.Words.{Bits, IsAtStart, Dotted, AllDiffer, IsWellFormed, productions, AreClosure, LeadsBy, LeadsFrom, IsTarget, Lists};
ghost use Rattle.lalrpop_base.specs.Words.{finished, LeadsOn, IsRightItem, IsRightTarget, IsRightState, AreRightStates};
ghost use Rattle.lalrpop_states.specs.declared.lookahead.nil.Nil.{Nil};
ghost use Rattle.lalrpop_states.specs.states.CheckStates.{target_of, productions_of_reductions, AreListed};

use super::closing::{Set, moved_closure, start_closure};
use lalrpop_base::collections::sets::{add_key, has_key, have_same};
use lalrpop_base::lookahead::nil::Nil;
use lalrpop_base::lookahead::token_set::TokenSet;
use lalrpop_base::lr1_core::all_conflicts::has_no_conflict;
use lalrpop_base::lr1_core::item::{Item, Lr1Item};
use lalrpop_base::lr1_core::state::{Lr1State, StateIndex};
use lalrpop_base::memory::OutOfMemory;
use lalrpop_base::repr::grammar::Grammar;
use lalrpop_base::repr::{NonterminalString, Production, Symbol};
use std::alloc::Global;
use std::collections::{BTreeMap, BTreeSet};

// Adds the numbers to which edges lead.
fn add_targets<K: Ord>(
    edges: &BTreeMap<K, StateIndex>,
    targets: &mut BTreeSet<usize>,
) -> Result<(), OutOfMemory>
    ensures { OnOk result ((m : ℕ) →
        Contains targets.new.keys m ↔ (Contains targets.old.keys m ⊎ LeadsBy K.cmp edges.now m)) }
{
    let _count = edges.len();
    for (_, target) in edges.iter() {
        targets.insert(target.0)?;
    }
    Ok(())
}

// Adds the numbers to which the edges of a state lead.
fn add_targets_of<'grammar>(
    state: &Lr1State<'grammar>,
    targets: &mut BTreeSet<usize>,
) -> Result<(), OutOfMemory>
    ensures { OnOk result ((m : ℕ) →
        Contains targets.new.keys m ↔ (Contains targets.old.keys m ⊎ LeadsFrom state.now m)) }
{
    add_targets(&state.shifts, targets)?;
    add_targets(&state.gotos, targets)?;
    Ok(())
}

/// The numbers of the states to which edges lead.
pub fn targets<'grammar>(
    alloc: Global,
    states: &[Lr1State<'grammar>],
) -> Result<BTreeSet<usize>, OutOfMemory>
    ensures { IfOk result (λ set. (m : ℕ) → Contains set.keys m ↔ IsTarget states.now m) }
{
    let mut targets = BTreeSet::new(alloc);
    for state in states {
        add_targets_of(state, &mut targets)?;
    }
    Ok(targets)
}

// The dotted productions of items.
fn listed_items<'grammar>(
    alloc: Global,
    items: &[Lr1Item<'grammar>],
) -> Result<Set<'grammar>, OutOfMemory>
    ensures { IfOk result (λ set. Lists items.now set.keys) }
{
    let mut listed = BTreeSet::new(alloc);
    for item in items {
        add_key(&mut listed, item.to_lr0())?;
    }
    Ok(listed)
}

/// The dotted productions of each state.
pub fn listed_states<'grammar>(
    alloc: Global,
    states: &[Lr1State<'grammar>],
) -> Result<Vec<Set<'grammar>>, OutOfMemory>
    ensures { IfOk result (λ listed. AreListed states.now listed.items) }
{
    let mut listed = Vec::new(alloc);
    for state in states {
        listed.push(listed_items(alloc, &state.items.vec)?)?;
    }
    Ok(listed)
}

/// The number of the state to which a symbol leads from this state.
pub fn target<'grammar>(state: &Lr1State<'grammar>, symbol: &Symbol) -> Option<usize>
    ensures { result ≡ target_of state.now symbol.now }
{
    match symbol {
        Symbol::Terminal(terminal) => match state.shifts.get(terminal) {
            Some(target) => Some(target.0),
            None => None,
        },
        Symbol::Nonterminal(name) => match state.gotos.get(name) {
            Some(target) => Some(target.0),
            None => None,
        },
    }
}

// Whether the symbol after the dot of an item leads to a state that lists the moved item. A dot at
// the end passes.
fn leads_on<'grammar>(
    listed: &[Set<'grammar>],
    state: &Lr1State<'grammar>,
    item: &Lr1Item<'grammar>,
) -> bool
    ensures { IsTrue result ↔ ((x : Symbol) →
        slice_get item.now.production.symbols item.now.index ≡ Some x →
        LeadsOn listed.now state.now item.now x) }
{
    let production = item.production;
    let symbols = production.symbols.as_slice();
    let index = item.index;
    if index >= symbols.len() {
        return true;
    }
    let Some(to) = target(state, &symbols[index]) else {
        return false;
    };
    if to >= listed.len() {
        return false;
    }
    let moved = Item {
        production,
        index: index + 1,
        lookahead: Nil,
    };
    has_key(&listed[to], &moved)
}

// Whether the symbol after an item's dot leads on, or the item is finished and is reduced.
fn is_right_item<'grammar>(
    listed: &[Set<'grammar>],
    state: &Lr1State<'grammar>,
    reductions: &Set<'grammar>,
    item: &Lr1Item<'grammar>,
) -> bool
    requires { (p : Production) →
        Contains reductions.now.keys (finished p) ↔
        Contains (productions_of_reductions state.now.reductions.items) p }
    ensures { IsTrue result ↔ IsRightItem listed.now state.now
        (productions_of_reductions state.now.reductions.items) item.now }
{
    if !leads_on(listed, state, item) {
        return false;
    }
    if !item.can_reduce() {
        return true;
    }
    has_key(reductions, &item.to_lr0())
}

// Whether all items of a state pass `is_right_item`.
fn are_right_items<'grammar>(
    listed: &[Set<'grammar>],
    state: &Lr1State<'grammar>,
    reductions: &Set<'grammar>,
) -> bool
    requires { (p : Production) →
        Contains reductions.now.keys (finished p) ↔
        Contains (productions_of_reductions state.now.reductions.items) p }
    ensures { IsTrue result ↔ ((i : Dotted Bits) →
        Contains state.now.items.vec.items i →
        IsRightItem listed.now state.now (productions_of_reductions state.now.reductions.items) i) }
{
    for item in state.items.vec.iter() {
        if !is_right_item(listed, state, reductions, item) {
            return false;
        }
    }
    true
}

// The finished dotted productions of reductions. `None` if two reductions are by one production.
fn reduced_items<'grammar>(
    alloc: Global,
    reductions: &[(TokenSet, &'grammar Production)],
) -> Result<Option<Set<'grammar>>, OutOfMemory>
    ensures { IfOk result (λ found. MatchOption found (¬ AllDiffer
        (productions_of_reductions reductions.now))
        (λ set. AllDiffer (productions_of_reductions reductions.now) × ((p : Production) →
        Contains set.keys (finished p) ↔ Contains (productions_of_reductions reductions.now) p))) }
{
    let mut set = BTreeSet::new(alloc);
    for reduction in reductions {
        let production = reduction.1;
        let item = Item::lr0(production, production.symbols.len());
        if !add_key(&mut set, item)? {
            return Ok(None);
        }
    }
    Ok(Some(set))
}

// Whether a state is the closure of the start symbol's productions, if it is the first.
fn is_right_first<'grammar>(
    alloc: Global,
    grammar: &'grammar Grammar,
    start: &NonterminalString,
    number: usize,
    here: &Set<'grammar>,
) -> Result<bool, OutOfMemory>
    requires { IsWellFormed grammar.now }
    ensures { IfOk result (λ yes. IsTrue yes ↔ (number ≡ 0 →
        AreClosure grammar.now (IsAtStart (productions grammar.now) start.now) here.now.keys)) }
{
    if number > 0 {
        return Ok(true);
    }
    let closure = start_closure(alloc, grammar, start)?;
    Ok(have_same(&closure, here))
}

// Whether a state has an item, and is the closure of its items whose dot moved, if it is a target.
fn is_right_target<'grammar>(
    alloc: Global,
    grammar: &'grammar Grammar,
    targets: &BTreeSet<usize>,
    number: usize,
    items: &[Lr1Item<'grammar>],
    here: &Set<'grammar>,
) -> Result<bool, OutOfMemory>
    requires { IsWellFormed grammar.now }
    ensures { IfOk result (λ yes. IsTrue yes ↔
        (Contains targets.now.keys number → IsRightTarget grammar.now items.now here.now.keys)) }
{
    if !targets.contains(&number) {
        return Ok(true);
    }
    if items.is_empty() {
        return Ok(false);
    }
    let closure = moved_closure(alloc, grammar, items)?;
    Ok(have_same(&closure, here))
}

// Whether each finished item of a state is reduced, no two reductions are by one production, and
// the symbols after the dots lead on.
fn has_right_actions<'grammar>(
    alloc: Global,
    listed: &[Set<'grammar>],
    state: &Lr1State<'grammar>,
) -> Result<bool, OutOfMemory>
    ensures { IfOk result (λ yes. IsTrue yes ↔ (((i : Dotted Bits) →
        Contains state.now.items.vec.items i →
        IsRightItem listed.now state.now
        (productions_of_reductions state.now.reductions.items) i) × AllDiffer
        (productions_of_reductions state.now.reductions.items))) }
{
    let Some(reductions) = reduced_items(alloc, &state.reductions)? else {
        return Ok(false);
    };
    Ok(are_right_items(listed, state, &reductions))
}

// Whether a state meets all conditions on a single state.
fn is_right_state<'grammar>(
    alloc: Global,
    grammar: &'grammar Grammar,
    start: &NonterminalString,
    listed: &[Set<'grammar>],
    targets: &BTreeSet<usize>,
    number: usize,
    state: &Lr1State<'grammar>,
    here: &Set<'grammar>,
) -> Result<bool, OutOfMemory>
    requires { IsWellFormed grammar.now }
    ensures { IfOk result (λ yes. IsTrue yes ↔ IsRightState grammar.now start.now listed.now
        targets.now.keys number here.now.keys state.now) }
{
    if !is_right_first(alloc, grammar, start, number, here)? {
        return Ok(false);
    }
    if !is_right_target(alloc, grammar, targets, number, &state.items.vec, here)? {
        return Ok(false);
    }
    if !has_right_actions(alloc, listed, state)? {
        return Ok(false);
    }
    let free = has_no_conflict(alloc, state, &grammar.terminals)?;
    Ok(free)
}

/// Whether each state meets all conditions on a single state. `OutOfMemory` if an allocation fails.
pub fn are_right_states<'grammar>(
    alloc: Global,
    grammar: &'grammar Grammar,
    start: &NonterminalString,
    listed: &[Set<'grammar>],
    targets: &BTreeSet<usize>,
    states: &[Lr1State<'grammar>],
) -> Result<bool, OutOfMemory>
    requires well_formed { IsWellFormed grammar.now }
    requires counted { length listed.now ≡ length states.now }
    ensures { IfOk result (λ yes. IsTrue yes ↔ AreRightStates grammar.now start.now listed.now
        targets.now.keys states.now) }
{
    for (number, state) in states.iter().enumerate() {
        if !is_right_state(
            alloc,
            grammar,
            start,
            listed,
            targets,
            number,
            state,
            &listed[number],
        )? {
            return Ok(false);
        }
    }
    Ok(true)
}
