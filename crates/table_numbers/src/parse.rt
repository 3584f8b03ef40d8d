//! Tables by number, of their numbers.
ghost use Rattle.std.specs.Prelude.{◌≡◌, ◌<◌, IfOk, IsTrue, Some, length, slice_get};
ghost use Rattle.table_numbers.specs.Layout.{numbers_of};

use crate::error::NumbersError;
use crate::tables::{MAGIC, NumberedItem, NumberedState, NumberedTables, VERSION};
use lalrpop_base::sequence::Sequence;
use std::alloc::Global;

impl NumberedTables {
    /// The tables that have these numbers. They are read, and their numbers are compared with the
    /// given ones. The errors are `NotTables`, `Version`, `CutOff`, `Wrong`, `TooLarge` and
    /// `Memory`.
    pub fn from_numbers(alloc: Global, numbers: &[u32]) -> Result<NumberedTables, NumbersError>
        ensures { IfOk result (λ t. numbers.now ≡ numbers_of t) }
    {
        let tables = parse(alloc, numbers)?;
        let expected = tables.to_numbers(alloc)?;
        if !are_equal(numbers, &expected) {
            return Err(NumbersError::Wrong(first_difference(numbers, &expected)));
        }
        Ok(tables)
    }
}

// Whether two lists of numbers are equal.
fn are_equal(a: &[u32], b: &[u32]) -> bool
    ensures { IsTrue result → a.now ≡ b.now }
{
    a == b
}

// The first place at which two lists of numbers differ, or the length of the shorter one.
fn first_difference(a: &[u32], b: &[u32]) -> usize {
    for (place, number) in a.iter().enumerate() {
        if b.get(place) != Some(number) {
            return place;
        }
    }
    a.len()
}

// The counts of the head.
#[derive(Clone, Copy)]
struct Counts {
    lists: u32,
    terminals: u32,
    nonterminals: u32,
    productions: u32,
    sets: u32,
    states: u32,
}

// The tables, if the places of their blocks are right.
fn parse(alloc: Global, numbers: &[u32]) -> Result<NumberedTables, NumbersError> {
    let counts = parse_head(numbers)?;
    let mut at = 8 + counts.sets as usize + counts.states as usize + counts.lists as usize;
    let productions = parse_pairs(alloc, numbers, &mut at, counts.productions)?;
    let sets = parse_sets(alloc, numbers, &mut at, counts.sets)?;
    let states = parse_states(alloc, numbers, &mut at, counts.states)?;
    let items = parse_lists(alloc, numbers, &mut at, counts.lists)?;
    Ok(NumberedTables {
        terminals: counts.terminals,
        nonterminals: counts.nonterminals,
        productions,
        sets,
        states,
        items,
    })
}

// The counts of the head, if the other numbers of the head are right.
fn parse_head(numbers: &[u32]) -> Result<Counts, NumbersError> {
    let mut at = 0;
    if next(numbers, &mut at)? != MAGIC {
        return Err(NumbersError::NotTables);
    }
    let version = next(numbers, &mut at)?;
    if version != VERSION {
        return Err(NumbersError::Version(version));
    }
    Ok(Counts {
        lists: next(numbers, &mut at)?,
        terminals: next(numbers, &mut at)?,
        nonterminals: next(numbers, &mut at)?,
        productions: next(numbers, &mut at)?,
        sets: next(numbers, &mut at)?,
        states: next(numbers, &mut at)?,
    })
}

// The number at a place, which goes on to the next.
fn next(numbers: &[u32], at: &mut usize) -> Result<u32, NumbersError>
    ensures { IfOk result (λ n. slice_get numbers.now at.old ≡ Some n) }
{
    let Some(number) = numbers.get(*at) else {
        return Err(NumbersError::CutOff(numbers.len()));
    };
    *at = at.saturating_add(1);
    Ok(*number)
}

// So many pairs.
fn parse_pairs(
    alloc: Global,
    numbers: &[u32],
    at: &mut usize,
    count: u32,
) -> Result<Sequence<(u32, u32)>, NumbersError> {
    let mut pairs = Sequence::new(alloc);
    for _ in 0..count {
        let name = next(numbers, at)?;
        let target = next(numbers, at)?;
        pairs.push((name, target))?;
    }
    Ok(pairs)
}

// A count, and so many pairs.
fn parse_counted(
    alloc: Global,
    numbers: &[u32],
    at: &mut usize,
) -> Result<Sequence<(u32, u32)>, NumbersError> {
    let count = next(numbers, at)?;
    parse_pairs(alloc, numbers, at, count)
}

// The block of a token set.
fn parse_set(
    alloc: Global,
    numbers: &[u32],
    at: &mut usize,
) -> Result<Sequence<u32>, NumbersError> {
    let count = next(numbers, at)?;
    let mut tokens = Sequence::new(alloc);
    for _ in 0..count {
        tokens.push(next(numbers, at)?)?;
    }
    Ok(tokens)
}

// The blocks of so many token sets.
fn parse_sets(
    alloc: Global,
    numbers: &[u32],
    at: &mut usize,
    count: u32,
) -> Result<Sequence<Sequence<u32>>, NumbersError> {
    let mut sets = Sequence::new(alloc);
    for _ in 0..count {
        sets.push(parse_set(alloc, numbers, at)?)?;
    }
    Ok(sets)
}

// The block of a state.
fn parse_state(
    alloc: Global,
    numbers: &[u32],
    at: &mut usize,
) -> Result<NumberedState, NumbersError> {
    Ok(NumberedState {
        shifts: parse_counted(alloc, numbers, at)?,
        gotos: parse_counted(alloc, numbers, at)?,
        reductions: parse_counted(alloc, numbers, at)?,
    })
}

// The blocks of so many states.
fn parse_states(
    alloc: Global,
    numbers: &[u32],
    at: &mut usize,
    count: u32,
) -> Result<Sequence<NumberedState>, NumbersError> {
    let mut states = Sequence::new(alloc);
    for _ in 0..count {
        states.push(parse_state(alloc, numbers, at)?)?;
    }
    Ok(states)
}

// So many items.
fn parse_items(
    alloc: Global,
    numbers: &[u32],
    at: &mut usize,
    count: u32,
) -> Result<Sequence<NumberedItem>, NumbersError> {
    let mut items = Sequence::new(alloc);
    for _ in 0..count {
        let production = next(numbers, at)?;
        let dot = next(numbers, at)?;
        let lookahead = next(numbers, at)?;
        items.push(NumberedItem {
            production,
            dot,
            lookahead,
        })?;
    }
    Ok(items)
}

// The blocks of so many lists of items.
fn parse_lists(
    alloc: Global,
    numbers: &[u32],
    at: &mut usize,
    count: u32,
) -> Result<Sequence<Sequence<NumberedItem>>, NumbersError> {
    let mut lists = Sequence::new(alloc);
    for _ in 0..count {
        let items = next(numbers, at)?;
        lists.push(parse_items(alloc, numbers, at, items)?)?;
    }
    Ok(lists)
}
