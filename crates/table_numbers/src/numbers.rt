//! The numbers of states, and the states of numbers.
ghost use Rattle.std.specs.Prelude.{IfOk};
ghost use Rattle.lalrpop_base.specs.Words.{contents};
ghost use Rattle.table_numbers.specs.Items.{AreWholeNumbersOf};
ghost use Rattle.table_numbers.specs.Lists.{lists_of};
ghost use Rattle.table_numbers.specs.Numbers.{AreNumbersOf};

use crate::error::NumbersError;
use crate::tables::NumberedTables;
use lalrpop_base::lr1_core::state::Lr1State;
use lalrpop_base::repr::grammar::Grammar;
use std::alloc::Global;

/// The numbers of the states of tables for a grammar, without items. The errors are `State` for a
/// name that the grammar does not list, `Repeated`, `TooLarge` and `Memory`.
pub fn write(
    alloc: Global,
    grammar: &Grammar,
    states: &[Lr1State<'_>],
) -> Result<Vec<u32>, NumbersError>
    ensures { IfOk result (λ numbers. AreNumbersOf (lists_of grammar.now) numbers.items
        (contents grammar.now.terminals states.now)) }
{
    let tables = NumberedTables::of_states(alloc, grammar, states)?;
    let numbers = tables.to_numbers(alloc)?;
    Ok(numbers)
}

/// The states of numbers for the grammar that they were made for. The states have no items. Each
/// error says at which place or in which state the numbers are not those of tables.
pub fn read<'grammar>(
    alloc: Global,
    grammar: &'grammar Grammar,
    numbers: &[u32],
) -> Result<Vec<Lr1State<'grammar>>, NumbersError>
    ensures { IfOk result (λ states. AreNumbersOf (lists_of grammar.now) numbers.now
        (contents grammar.now.terminals states.items)) }
{
    let tables = NumberedTables::from_numbers(alloc, numbers)?;
    let states = tables.to_states(alloc, grammar)?;
    Ok(states)
}

/// The numbers of the states of tables for a grammar, with the items of each state. The errors are
/// those of `write`.
pub fn write_with_items(
    alloc: Global,
    grammar: &Grammar,
    states: &[Lr1State<'_>],
) -> Result<Vec<u32>, NumbersError>
    ensures { IfOk result (λ numbers.
        AreWholeNumbersOf (lists_of grammar.now) numbers.items states.now) }
{
    let tables = NumberedTables::of_states_with_items(alloc, grammar, states)?;
    let numbers = tables.to_numbers(alloc)?;
    Ok(numbers)
}

/// The states of numbers with items, for the grammar that they were made for. The errors are those
/// of `read`, and `Items` if there is not one list of items for each state.
pub fn read_with_items<'grammar>(
    alloc: Global,
    grammar: &'grammar Grammar,
    numbers: &[u32],
) -> Result<Vec<Lr1State<'grammar>>, NumbersError>
    ensures { IfOk result (λ states.
        AreWholeNumbersOf (lists_of grammar.now) numbers.now states.items) }
{
    let tables = NumberedTables::from_numbers(alloc, numbers)?;
    let states = tables.to_states_with_items(alloc, grammar)?;
    Ok(states)
}
