//! The closure of dotted productions, without tokens.
ghost use Rattle.std.specs.Prelude.{◌≡◌, [], ◌∷◌, IfOk, OnOk, Contains, map};
ghost use Rattle.lalrpop_base.specs.Words.{IsAtStart, IsWellFormed, productions, productions_of, AllWait, Visits, IsOneAtStart, IsExpansionOf, IsMovedIn, IsMovedOf};
ghost use Rattle.lalrpop_base.specs.Words.{AreClosure};
ghost use Rattle.lalrpop_states.specs.states.Items.{dotted_of};

use lalrpop_base::collections::walk::Walk;
use lalrpop_base::lookahead::nil::Nil;
use lalrpop_base::lr1_core::item::{Item, Lr0Item, Lr1Item};
use lalrpop_base::memory::OutOfMemory;
use lalrpop_base::repr::grammar::Grammar;
use lalrpop_base::repr::{NonterminalString, Symbol};
use std::alloc::Global;
use std::collections::BTreeSet;

/// A set of dotted productions.
pub type Set<'grammar> = BTreeSet<Lr0Item<'grammar>>;

// Goes to an item.
fn visit<'grammar>(
    item: Lr0Item<'grammar>,
    walk: &mut Walk<Lr0Item<'grammar>>,
) -> Result<(), OutOfMemory>
    ensures { OnOk result (Visits (λ k. item.entry ≡ k) walk.old walk.new) }
{
    walk.visit(item.to_lr0(), item)
}

// Goes to the productions of a nonterminal, with the dot at the start.
fn visit_productions<'grammar>(
    grammar: &'grammar Grammar,
    name: &NonterminalString,
    walk: &mut Walk<Lr0Item<'grammar>>,
) -> Result<(), OutOfMemory>
    ensures { OnOk result
        (Visits (IsOneAtStart (productions_of grammar.now name.now)) walk.old walk.new) }
{
    for production in grammar.productions_for(name) {
        let item = Item {
            production,
            index: 0,
            lookahead: Nil,
        };
        visit(item, walk)?;
    }
    Ok(())
}

// Goes to the productions of the nonterminal after an item's dot, if there is one.
fn visit_expansions<'grammar>(
    grammar: &'grammar Grammar,
    item: &Lr0Item<'grammar>,
    walk: &mut Walk<Lr0Item<'grammar>>,
) -> Result<(), OutOfMemory>
    ensures { OnOk result (Visits (IsExpansionOf grammar.now item.now) walk.old walk.new) }
{
    let Some((symbol, _)) = item.shift_symbol() else {
        return Ok(());
    };
    let Symbol::Nonterminal(name) = symbol else {
        return Ok(());
    };
    visit_productions(grammar, name, walk)?;
    Ok(())
}

// The closure of the items that wait in the walk.
fn close<'grammar>(
    grammar: &'grammar Grammar,
    mut walk: Walk<Lr0Item<'grammar>>,
) -> Result<Set<'grammar>, OutOfMemory>
    requires well_formed { IsWellFormed grammar.now }
    requires waiting { AllWait walk }
    ensures { IfOk result (λ set. AreClosure grammar.now (λ p dot. Contains walk.entry.visited.keys
        (record { production = p; index = dot; lookahead = record {} })) set.keys) }
{
    let _names = grammar.nonterminals.len();
    while let Some(item) = walk.waiting.pop_front() {
        visit_expansions(grammar, &item, &mut walk)?;
    }
    let Walk { visited, .. } = walk;
    Ok(visited)
}

/// The closure of the productions of the start symbol. `OutOfMemory` if an allocation fails.
pub fn start_closure<'grammar>(
    alloc: Global,
    grammar: &'grammar Grammar,
    start: &NonterminalString,
) -> Result<Set<'grammar>, OutOfMemory>
    requires { IsWellFormed grammar.now }
    ensures { IfOk result
        (λ set. AreClosure grammar.now (IsAtStart (productions grammar.now) start.now) set.keys) }
{
    let mut walk = Walk::new(alloc);
    let _names = grammar.nonterminals.len();
    visit_productions(grammar, start, &mut walk)?;
    close(grammar, walk)
}

// Goes to the items of a list whose dot moved.
fn visit_moved<'grammar>(
    items: &[Lr1Item<'grammar>],
    walk: &mut Walk<Lr0Item<'grammar>>,
) -> Result<(), OutOfMemory>
    ensures { OnOk result (Visits (IsMovedOf items.now) walk.old walk.new) }
{
    for item in items {
        visit_if_moved(item, walk)?;
    }
    Ok(())
}

// Goes to an item, if its dot moved.
fn visit_if_moved<'grammar>(
    item: &Lr1Item<'grammar>,
    walk: &mut Walk<Lr0Item<'grammar>>,
) -> Result<(), OutOfMemory>
    ensures { OnOk result (Visits (IsMovedOf (item.now ∷ [])) walk.old walk.new) }
{
    if item.index > 0 {
        visit(item.to_lr0(), walk)?;
    }
    Ok(())
}

/// The closure of the items whose dot moved. `OutOfMemory` if an allocation fails.
pub fn moved_closure<'grammar>(
    alloc: Global,
    grammar: &'grammar Grammar,
    items: &[Lr1Item<'grammar>],
) -> Result<Set<'grammar>, OutOfMemory>
    requires { IsWellFormed grammar.now }
    ensures { IfOk result
        (λ set. AreClosure grammar.now (IsMovedIn (map dotted_of items.now)) set.keys) }
{
    let mut walk = Walk::new(alloc);
    visit_moved(items, &mut walk)?;
    close(grammar, walk)
}
