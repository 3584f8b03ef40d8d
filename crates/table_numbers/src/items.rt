//! The items of states by number.
ghost use Rattle.std.specs.Prelude.{◌≡◌, IfOk, OnOk, map};
ghost use Rattle.lalrpop_base.specs.Words.{bits_of, contents};
ghost use Rattle.table_numbers.specs.Items.{AreListsOf, HaveItemsOf, item_at, item_parts};
ghost use Rattle.table_numbers.specs.Lists.{lists_of};
ghost use Rattle.table_numbers.specs.Numbered.{Keeps};
ghost use Rattle.table_numbers.specs.Numbers.{AreTablesOf};

use crate::error::NumbersError;
use crate::layout::number_of;
use crate::names::Names;
use crate::number::{join_parts, list_sets, number_set, number_states};
use crate::numbering::Numbering;
use crate::tables::{NumberedItem, NumberedTables};
use lalrpop_base::lookahead::token_set::TokenSet;
use lalrpop_base::lr1_core::item::Lr1Item;
use lalrpop_base::lr1_core::state::Lr1State;
use lalrpop_base::repr::Production;
use lalrpop_base::repr::grammar::Grammar;
use lalrpop_base::sequence::Sequence;
use std::alloc::Global;

impl NumberedTables {
    /// The tables of states by number, with the items of each state. The errors are those of
    /// `of_states`.
    pub fn of_states_with_items(
        alloc: Global,
        grammar: &Grammar,
        states: &[Lr1State<'_>],
    ) -> Result<NumberedTables, NumbersError>
        ensures tables { IfOk result (λ t. AreTablesOf (lists_of grammar.now) t
            (contents grammar.now.terminals states.now)) }
        ensures items { IfOk result (λ t. HaveItemsOf (lists_of grammar.now) t states.now) }
    {
        let names = Names::new(alloc, grammar)?;
        let tables = number_whole_tables(alloc, &names, states)?;
        Ok(tables)
    }
}

// The tables of states with items, with the names of a grammar.
fn number_whole_tables(
    alloc: Global,
    names: &Names,
    states: &[Lr1State<'_>],
) -> Result<NumberedTables, NumbersError>
    ensures tables { IfOk result (λ t. AreTablesOf names.now t
        (contents names.now.terminals states.now)) }
    ensures items { IfOk result (λ t. HaveItemsOf names.now t states.now) }
{
    let mut sets = Numbering::new(alloc);
    let numbered = number_states(alloc, names, states, &mut sets)?;
    let items = number_lists(alloc, &names.productions, states, &mut sets)?;
    let listed = list_sets(alloc, sets.all())?;
    let tables = join_parts(alloc, names, listed, numbered, items)?;
    Ok(tables)
}

// The lists of items by number. New token sets get numbers.
fn number_lists(
    alloc: Global,
    productions: &Numbering<Production>,
    states: &[Lr1State<'_>],
    sets: &mut Numbering<TokenSet>,
) -> Result<Sequence<Sequence<NumberedItem>>, NumbersError>
    ensures lists { IfOk result (AreListsOf productions.now sets.new states.now) }
    ensures kept { OnOk result (Keeps sets.old sets.new) }
{
    let mut lists = Sequence::with_capacity(alloc, states.len())?;
    for (place, state) in states.iter().enumerate() {
        lists.push(number_items(alloc, productions, place, &state.items.vec, sets)?)?;
    }
    Ok(lists)
}

// The items by number, of the state at a place. New token sets get numbers.
fn number_items(
    alloc: Global,
    productions: &Numbering<Production>,
    place: usize,
    items: &[Lr1Item<'_>],
    sets: &mut Numbering<TokenSet>,
) -> Result<Sequence<NumberedItem>, NumbersError>
    ensures numbered { IfOk result (λ list. map (item_at productions.now sets.new) list
        ≡ map item_parts items.now) }
    ensures kept { OnOk result (Keeps sets.old sets.new) }
{
    let mut list = Sequence::with_capacity(alloc, items.len())?;
    for item in items {
        list.push(number_item(alloc, productions, place, item, sets)?)?;
    }
    Ok(list)
}

// An item by number, of the state at a place. A new token set gets a number.
fn number_item(
    alloc: Global,
    productions: &Numbering<Production>,
    place: usize,
    item: &Lr1Item<'_>,
    sets: &mut Numbering<TokenSet>,
) -> Result<NumberedItem, NumbersError>
    ensures numbered { IfOk result (λ i. item_at productions.now sets.new i ≡ item_parts item.now) }
    ensures kept { OnOk result (Keeps sets.old sets.new) }
{
    let Some(number) = productions.number(item.production) else {
        return Err(NumbersError::State(place));
    };
    Ok(NumberedItem {
        production: number_of(number)?,
        dot: number_of(item.index)?,
        lookahead: number_set(alloc, &item.lookahead, sets)?,
    })
}
