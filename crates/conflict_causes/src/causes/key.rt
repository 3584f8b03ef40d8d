//! Keys of conflicts.
ghost use Rattle.std.specs.Prelude.{◌≡◌, ◌++◌, ◌↔◌, ℕ, IfOk, OnOk, IsTrue, Some, Contains, slice_get};
ghost use Rattle.std.specs.BTreeSet.{IsOrdered};
ghost use Rattle.lalrpop_states.specs.collapse.Collapsible.{dots_at};
ghost use Rattle.lalrpop_states.specs.states.CheckStates.{finished};
ghost use Rattle.lalrpop_states.specs.states.Items.{Dotted, with_dot, dots};
ghost use Rattle.lalrpop_states.specs.declared.lookahead.nil.Nil.{Nil};
ghost use Rattle.lalrpop_grammar.specs.declared.repr.Production.{Production};
ghost use Rattle.conflict_causes.specs.Keys.{AddsIfBefore, AreItemsOfAction, IsBeforeTerminal, IsKey, item_order};

use lalrpop_base::exact::equal;
use lalrpop_base::lookahead::nil::Nil;
use lalrpop_base::lr1_core::item::{Item, Lr0Item, Lr1Item};
use lalrpop_base::lr1_core::state::{Action, Lr1Conflict, Lr1State, StateIndex};
use lalrpop_base::memory::OutOfMemory;
use lalrpop_base::repr::{Production, Symbol, TerminalString};
use lalrpop_base::sequence::Sequence;
use std::alloc::Global;
use std::collections::BTreeSet;

/// The key of a conflict: the finished item of its reduction, and then the items of its other
/// action in ascending order.
pub(crate) fn key_of<'grammar>(
    alloc: Global,
    states: &[Lr1State<'grammar>],
    conflict: &Lr1Conflict<'grammar>,
) -> Result<Sequence<Lr0Item<'grammar>>, OutOfMemory>
    ensures { IfOk result (IsKey states.now conflict.now) }
{
    let items = items_of_action(alloc, states, conflict.state, &conflict.action)?;
    let mut key = Sequence::new(alloc);
    key.push(finished(conflict.production))?;
    push_items(&mut key, items)?;
    Ok(key)
}

// Appends items in ascending order.
fn push_items<'grammar>(
    key: &mut Sequence<Lr0Item<'grammar>>,
    items: BTreeSet<Lr0Item<'grammar>>,
) -> Result<(), OutOfMemory>
    ensures { OnOk result (key.new ≡ key.old ++ items.entry.keys) }
{
    for item in items {
        key.push(item)?;
    }
    Ok(())
}

// The production with the dot at its end.
fn finished<'grammar>(production: &'grammar Production) -> Lr0Item<'grammar>
    ensures { result ≡ finished production.now }
{
    Item {
        production,
        index: production.symbols.len(),
        lookahead: Nil,
    }
}

/// The items of an action of a state: those that shift its terminal, or the finished item of its
/// reduction.
pub(crate) fn items_of_action<'grammar>(
    alloc: Global,
    states: &[Lr1State<'grammar>],
    state: StateIndex,
    action: &Action<'grammar>,
) -> Result<BTreeSet<Lr0Item<'grammar>>, OutOfMemory>
    ensures { IfOk result (AreItemsOfAction states.now state action.now) }
{
    match action {
        Action::Shift(terminal, _) => items_before(alloc, items_in(states, state), terminal),
        Action::Reduce(production) => {
            let mut set = BTreeSet::new(alloc);
            set.insert(finished(*production))?;
            Ok(set)
        }
    }
}

// The items of a state. The list is empty if there is no such state.
fn items_in<'a, 'grammar>(
    states: &'a [Lr1State<'grammar>],
    state: StateIndex,
) -> &'a [Lr1Item<'grammar>]
    ensures { dots result.now ≡ dots_at states.now state.0 }
{
    if state.0 < states.len() {
        return states[state.0].items.vec.as_slice();
    }
    &[]
}

// The items that have the terminal after their dot, without their lookaheads.
fn items_before<'grammar>(
    alloc: Global,
    items: &[Lr1Item<'grammar>],
    terminal: &TerminalString,
) -> Result<BTreeSet<Lr0Item<'grammar>>, OutOfMemory>
    ensures ordered { IfOk result (IsOrdered item_order) }
    ensures members { IfOk result (λ set. (item : Dotted Nil) → Contains set.keys item ↔
        (Contains (dots items.now) (item.production, item.index) ×
        IsBeforeTerminal terminal.now item)) }
{
    let mut set = BTreeSet::new(alloc);
    for item in items {
        add_if_before(&mut set, item, terminal)?;
    }
    Ok(set)
}

// Adds an item without its lookahead, if the terminal is after its dot.
fn add_if_before<'grammar>(
    set: &mut BTreeSet<Lr0Item<'grammar>>,
    item: &Lr1Item<'grammar>,
    terminal: &TerminalString,
) -> Result<(), OutOfMemory>
    ensures added { OnOk result (AddsIfBefore terminal.now
        (with_dot item.now.production item.now.index) set.old.keys set.new.keys) }
    ensures ordered { OnOk result (IsOrdered item_order set.old → IsOrdered item_order set.new) }
{
    if is_before(item, terminal) {
        set.insert(item.to_lr0())?;
    }
    Ok(())
}

// Whether the terminal is after the dot of an item.
fn is_before(item: &Lr1Item<'_>, terminal: &TerminalString) -> bool
    ensures { IsTrue result ↔ IsBeforeTerminal terminal.now
        (with_dot item.now.production item.now.index) }
{
    match item.shift_symbol() {
        Some((symbol, _)) => is_terminal(symbol, terminal),
        None => false,
    }
}

// Whether a symbol is the terminal.
fn is_terminal(symbol: &Symbol, terminal: &TerminalString) -> bool
    ensures { IsTrue result ↔ (symbol.now ≡ Symbol.Terminal terminal.now) }
{
    match symbol {
        Symbol::Terminal(other) => equal(other, terminal),
        Symbol::Nonterminal(_) => false,
    }
}
