//! The dotted productions of a grammar, ascending.
ghost use Rattle.std.specs.Prelude.{◌≡◌, ◌++◌, [], IfOk, OnOk};
ghost use Rattle.std.specs.List.{flat_map};
ghost use Rattle.lalrpop_grammar.specs.Words.{productions, rules_of};
ghost use Rattle.lalrpop_states.specs.grammars.Ascending.{Ascend};
ghost use Rattle.lalrpop_numbers.specs.numbers.Numbering.{AddsThose, IsStartOf, all_dots, with_dots};
ghost use Rattle.lalrpop_numbers.specs.numbers.Numbers.{AreItemsOf, MovesToNext};

use lalrpop_collections::collections::sets::add_key;
use lalrpop_collections::memory::OutOfMemory;
use lalrpop_grammar::repr::Production;
use lalrpop_grammar::repr::grammar::Grammar;
use lalrpop_states::lr1_core::item::{Item, Lr0Item};
use std::alloc::Global;
use std::collections::BTreeSet;

type Starts<'grammar> = BTreeSet<Lr0Item<'grammar>>;

// Adds productions, with the dot at the start.
fn add_starts<'grammar>(
    productions: &'grammar [Production],
    starts: &mut Starts<'grammar>,
) -> Result<(), OutOfMemory>
    ensures { OnOk result
        (AddsThose (IsStartOf productions.now) starts.old.keys starts.new.keys) }
{
    for production in productions {
        add_key(starts, Item::lr0(production, 0))?;
    }
    Ok(())
}

// The productions of a grammar, with the dot at the start.
fn starts_of<'grammar>(
    alloc: Global,
    grammar: &'grammar Grammar,
) -> Result<Starts<'grammar>, OutOfMemory>
    ensures { IfOk result
        (λ starts. AddsThose (IsStartOf (productions grammar.now)) [] starts.keys) }
{
    let mut starts = BTreeSet::new(alloc);
    for (_name, entry) in grammar.nonterminals.iter() {
        add_starts(&entry.productions, &mut starts)?;
    }
    Ok(starts)
}

// Appends a production, with the dot at each place.
fn push_dots<'grammar>(
    production: &'grammar Production,
    items: &mut Vec<Lr0Item<'grammar>>,
) -> Result<(), OutOfMemory>
    ensures { OnOk result (items.new.items ≡ items.old.items ++ with_dots production.now) }
{
    let length = production.symbols.len();
    for index in 0..length {
        items.push(Item::lr0(production, index))?;
    }
    items.push(Item::lr0(production, length))?;
    Ok(())
}

// The list of the productions, each with its dot at each place.
fn list_dots<'grammar>(
    alloc: Global,
    starts: Starts<'grammar>,
) -> Result<Vec<Lr0Item<'grammar>>, OutOfMemory>
    ensures items { IfOk result (λ items. items.items ≡ flat_map all_dots starts.entry.keys) }
    ensures ascend { IfOk result (λ _. Ascend starts.entry.keys) }
{
    let mut items = Vec::new(alloc);
    for start in starts {
        push_dots(start.production, &mut items)?;
    }
    Ok(items)
}

/// The dotted productions of a grammar, ascending. Only productions with the dot at the start are
/// sorted, so that none is compared with itself.
pub(super) fn dotted_productions<'grammar>(
    alloc: Global,
    grammar: &'grammar Grammar,
) -> Result<Vec<Lr0Item<'grammar>>, OutOfMemory>
    ensures items { IfOk result (λ items. AreItemsOf (rules_of grammar.now) items.items) }
    ensures next { IfOk result (λ items. MovesToNext items.items) }
{
    let starts = starts_of(alloc, grammar)?;
    list_dots(alloc, starts)
}
