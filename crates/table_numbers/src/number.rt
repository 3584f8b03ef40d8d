//! Tables by number, of states.
ghost use Rattle.std.specs.Prelude.{◌≡◌, [], IfOk, OnOk, Some, map, slice_get};
ghost use Rattle.lalrpop_base.specs.Words.{contents, rising};
ghost use Rattle.table_numbers.specs.Lists.{AreAbout, lists_of, named};
ghost use Rattle.table_numbers.specs.Numbered.{AreNumbered, IsNumbered, Keeps, named_target, reduction_at, reduction_parts};
ghost use Rattle.table_numbers.specs.Numbers.{AreTablesOf};

use crate::error::NumbersError;
use crate::layout::number_of;
use crate::names::{Names, list_sides};
use crate::numbering::Numbering;
use crate::tables::{NumberedItem, NumberedState, NumberedTables};
use lalrpop_base::exact::Exact;
use lalrpop_base::lookahead::token_set::TokenSet;
use lalrpop_base::lr1_core::state::{Lr1State, StateIndex};
use lalrpop_base::repr::Production;
use lalrpop_base::repr::grammar::Grammar;
use lalrpop_base::sequence::Sequence;
use std::alloc::Global;
use std::collections::BTreeMap;
use std::hash::Hash;

impl NumberedTables {
    /// The tables of states by number, without items. Each token set has one number, and so sets
    /// that are equal are kept once. The errors are `State` for a name that the grammar does not
    /// list, `Repeated`, `TooLarge` and `Memory`.
    pub fn of_states(
        alloc: Global,
        grammar: &Grammar,
        states: &[Lr1State<'_>],
    ) -> Result<NumberedTables, NumbersError>
        ensures tables { IfOk result (λ t. AreTablesOf (lists_of grammar.now) t
            (contents grammar.now.terminals states.now)) }
        ensures no_items { IfOk result (λ t. t.items ≡ []) }
    {
        let names = Names::new(alloc, grammar)?;
        let tables = number_tables(alloc, &names, states)?;
        Ok(tables)
    }
}

// The tables of states, with the names of a grammar.
fn number_tables(
    alloc: Global,
    names: &Names,
    states: &[Lr1State<'_>],
) -> Result<NumberedTables, NumbersError>
    ensures tables { IfOk result (λ t. AreTablesOf names.now t
        (contents names.now.terminals states.now)) }
    ensures no_items { IfOk result (λ t. t.items ≡ []) }
{
    let mut sets = Numbering::new(alloc);
    let numbered = number_states(alloc, names, states, &mut sets)?;
    let listed = list_sets(alloc, sets.all())?;
    let tables = join_parts(alloc, names, listed, numbered, Sequence::new(alloc))?;
    Ok(tables)
}

/// The tables of token sets, states and items, with the counts and the productions of a grammar.
pub(crate) fn join_parts(
    alloc: Global,
    names: &Names,
    sets: Sequence<Sequence<u32>>,
    states: Sequence<NumberedState>,
    items: Sequence<Sequence<NumberedItem>>,
) -> Result<NumberedTables, NumbersError>
    ensures about { IfOk result (AreAbout names.now) }
    ensures sets { IfOk result (λ t. t.sets ≡ sets) }
    ensures states { IfOk result (λ t. t.states ≡ states) }
    ensures items { IfOk result (λ t. t.items ≡ items) }
{
    let terminals = number_of(names.terminals.all().len())?;
    let nonterminals = number_of(names.nonterminals.all().len())?;
    let productions = list_sides(alloc, &names.nonterminals, names.productions.all())?;
    Ok(NumberedTables {
        terminals,
        nonterminals,
        productions,
        sets,
        states,
        items,
    })
}

/// The states by number. New token sets get numbers.
pub(crate) fn number_states(
    alloc: Global,
    names: &Names,
    states: &[Lr1State<'_>],
    sets: &mut Numbering<TokenSet>,
) -> Result<Sequence<NumberedState>, NumbersError>
    ensures { IfOk result (AreNumbered names.now sets.new states.now) }
{
    let mut list = Sequence::with_capacity(alloc, states.len())?;
    for (place, state) in states.iter().enumerate() {
        list.push(number_state(alloc, names, place, state, sets)?)?;
    }
    Ok(list)
}

// A state by number. New token sets get numbers.
fn number_state(
    alloc: Global,
    names: &Names,
    place: usize,
    state: &Lr1State<'_>,
    sets: &mut Numbering<TokenSet>,
) -> Result<NumberedState, NumbersError>
    ensures numbered { IfOk result (IsNumbered names.now sets.new state.now) }
    ensures kept { OnOk result (Keeps sets.old sets.new) }
{
    Ok(NumberedState {
        shifts: number_targets(alloc, &names.terminals, place, &state.shifts)?,
        gotos: number_targets(alloc, &names.nonterminals, place, &state.gotos)?,
        reductions: number_reductions(alloc, &names.productions, place, &state.reductions, sets)?,
    })
}

// Shifts or gotos by number, of the state at a place.
fn number_targets<K: Exact + Hash + Ord>(
    alloc: Global,
    names: &Numbering<K>,
    place: usize,
    targets: &BTreeMap<K, StateIndex>,
) -> Result<Sequence<(u32, u32)>, NumbersError>
    ensures { IfOk result (λ pairs. named names.now pairs ≡ map named_target targets.now.entries) }
{
    let mut pairs = Sequence::with_capacity(alloc, targets.len())?;
    for (name, target) in targets.iter() {
        let Some(number) = names.number(name) else {
            return Err(NumbersError::State(place));
        };
        pairs.push((number_of(number)?, number_of(target.0)?))?;
    }
    Ok(pairs)
}

// Reductions by number, of the state at a place. New token sets get numbers.
fn number_reductions(
    alloc: Global,
    productions: &Numbering<Production>,
    place: usize,
    reductions: &[(TokenSet, &Production)],
    sets: &mut Numbering<TokenSet>,
) -> Result<Sequence<(u32, u32)>, NumbersError>
    ensures numbered { IfOk result (λ pairs. map (reduction_at productions.now sets.new) pairs
        ≡ map reduction_parts reductions.now) }
    ensures kept { OnOk result (Keeps sets.old sets.new) }
{
    let mut pairs = Sequence::with_capacity(alloc, reductions.len())?;
    for (tokens, production) in reductions.iter() {
        let Some(number) = productions.number(production) else {
            return Err(NumbersError::State(place));
        };
        pairs.push((number_of(number)?, number_set(alloc, tokens, sets)?))?;
    }
    Ok(pairs)
}

/// The number of a token set. A new set is added.
pub(crate) fn number_set(
    alloc: Global,
    tokens: &TokenSet,
    sets: &mut Numbering<TokenSet>,
) -> Result<u32, NumbersError>
    ensures found { IfOk result (λ n. slice_get sets.new n ≡ Some tokens.now) }
    ensures kept { OnOk result (Keeps sets.old sets.new) }
{
    if let Some(number) = sets.number(tokens) {
        return number_of(number);
    }
    let number = sets.all().len();
    sets.add(tokens.clone(alloc)?)?;
    number_of(number)
}

/// The tokens of each set.
pub(crate) fn list_sets(
    alloc: Global,
    sets: &[TokenSet],
) -> Result<Sequence<Sequence<u32>>, NumbersError>
    ensures { IfOk result (λ list. list ≡ map rising sets.now) }
{
    let mut list = Sequence::with_capacity(alloc, sets.len())?;
    for set in sets {
        list.push(list_tokens(alloc, set)?)?;
    }
    Ok(list)
}

// The tokens of a set, ascending.
fn list_tokens(alloc: Global, set: &TokenSet) -> Result<Sequence<u32>, NumbersError>
    ensures { IfOk result (λ tokens. tokens ≡ rising set.now) }
{
    let mut tokens = Sequence::new(alloc);
    for bit in set.bits() {
        tokens.push(number_of(bit)?)?;
    }
    Ok(tokens)
}
