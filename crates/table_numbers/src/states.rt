//! States of tables by number.
ghost use Rattle.std.specs.Prelude.{◌≡◌, ◌++◌, ℕ, List, IfOk, IsTrue, OnOk, length, map, slice_get};
ghost use Rattle.lalrpop_base.specs.Words.{bits_of, contents, name_cmp, productions};
ghost use Rattle.lalrpop_grammar.specs.contracts.repr.TerminalStringOrd.TheImpl as terminal_ord;
ghost use Rattle.table_numbers.specs.Items.{AreItemsOf, AreListsOf, EachHasItems, HaveItemsOf, list_at};
ghost use Rattle.table_numbers.specs.Lists.{AreAbout, lists_of, named, side_of};
ghost use Rattle.table_numbers.specs.Made.{AddsTarget, AreMade, HasTargets, IsMade, borrowed};
ghost use Rattle.table_numbers.specs.Numbered.{reduction_at, reduction_parts};
ghost use Rattle.table_numbers.specs.Numbers.{AreTablesOf};

use crate::error::NumbersError;
use crate::made_items::listed_items;
use crate::names::Names;
use crate::tables::{NumberedItem, NumberedState, NumberedTables};
use lalrpop_base::exact::{Exact, equal};
use lalrpop_base::lookahead::token_set::TokenSet;
use lalrpop_base::lr1_core::state::{Items, Lr1State, State, StateIndex};
use lalrpop_base::repr::grammar::Grammar;
use lalrpop_base::repr::{NonterminalString, Production, TerminalString};
use lalrpop_base::sequence::Sequence;
use std::alloc::Global;
use std::collections::BTreeMap;

impl NumberedTables {
    /// The states that the tables have, for the grammar that they were made for. The states have no
    /// items. The errors are `Terminals`, `Nonterminals`, `Productions`, `Set`, `State`, `Repeated`
    /// and `Memory`.
    pub fn to_states<'grammar>(
        &self,
        alloc: Global,
        grammar: &'grammar Grammar,
    ) -> Result<Vec<Lr1State<'grammar>>, NumbersError>
        ensures { IfOk result (λ states. AreTablesOf (lists_of grammar.now) self.now
            (contents grammar.now.terminals states.items)) }
    {
        let names = Names::new(alloc, grammar)?;
        let states = states_by_names(alloc, grammar, &names, self, &[])?;
        Ok(states)
    }

    /// The states that the tables have, with their items, for the grammar that they were made for.
    /// The errors are those of `to_states`, and `Items` if there is not one list of items for each
    /// state.
    pub fn to_states_with_items<'grammar>(
        &self,
        alloc: Global,
        grammar: &'grammar Grammar,
    ) -> Result<Vec<Lr1State<'grammar>>, NumbersError>
        ensures tables { IfOk result (λ states. AreTablesOf (lists_of grammar.now) self.now
            (contents grammar.now.terminals states.items)) }
        ensures items { IfOk result (λ states.
            HaveItemsOf (lists_of grammar.now) self.now states.items) }
    {
        check_lists(self)?;
        let names = Names::new(alloc, grammar)?;
        let states = states_by_names(alloc, grammar, &names, self, self.items.as_slice())?;
        Ok(states)
    }
}

// Reports that there is not one list of items for each state.
fn check_lists(tables: &NumberedTables) -> Result<(), NumbersError>
    ensures { OnOk result (length tables.now.items ≡ length tables.now.states) }
{
    if tables.items.len() != tables.states.len() {
        return Err(NumbersError::Items(tables.items.len()));
    }
    Ok(())
}

// The states that tables have, with the names of a grammar and the items of lists.
fn states_by_names<'grammar>(
    alloc: Global,
    grammar: &'grammar Grammar,
    names: &Names,
    tables: &NumberedTables,
    lists: &[Sequence<NumberedItem>],
) -> Result<Vec<Lr1State<'grammar>>, NumbersError>
    ensures tables { IfOk result (λ states. names.now ≡ lists_of grammar.now →
        AreTablesOf names.now tables.now (contents names.now.terminals states.items)) }
    ensures items { IfOk result (λ states. names.now ≡ lists_of grammar.now →
        length lists.now ≡ length tables.now.states →
        AreListsOf names.now.productions (map bits_of tables.now.sets) states.items lists.now) }
{
    check_about(names, tables)?;
    let productions = list_productions(alloc, grammar)?;
    let sets = make_sets(alloc, tables.terminals, tables.sets.as_slice())?;
    let states = make_states(alloc, names, &productions, &sets, tables, lists)?;
    Ok(states)
}

// Reports that tables are not about a grammar.
fn check_about(names: &Names, tables: &NumberedTables) -> Result<(), NumbersError>
    ensures { OnOk result (AreAbout names.now tables.now) }
{
    if tables.terminals as usize != names.terminals.all().len() {
        return Err(NumbersError::Terminals(tables.terminals));
    }
    if tables.nonterminals as usize != names.nonterminals.all().len() {
        return Err(NumbersError::Nonterminals(tables.nonterminals));
    }
    let sides = tables.productions.as_slice();
    if !are_sides(names.nonterminals.all(), names.productions.all(), sides) {
        return Err(NumbersError::Productions);
    }
    Ok(())
}

// Whether pairs are the nonterminals of productions and the lengths of their right sides.
fn are_sides(
    nonterminals: &[NonterminalString],
    productions: &[Production],
    sides: &[(u32, u32)],
) -> bool
    ensures { IsTrue result → named nonterminals.now sides.now ≡ map side_of productions.now }
{
    if sides.len() != productions.len() {
        return false;
    }
    for place in 0..sides.len() {
        if !is_side(nonterminals, &productions[place], sides[place]) {
            return false;
        }
    }
    true
}

// Whether a pair is the nonterminal of a production and the length of its right side.
fn is_side(nonterminals: &[NonterminalString], production: &Production, side: (u32, u32)) -> bool
    ensures { IsTrue result → (slice_get nonterminals.now side.0, side.1) ≡ side_of production.now }
{
    let Some(name) = nonterminals.get(side.0 as usize) else {
        return false;
    };
    if side.1 as usize != production.symbols.len() {
        return false;
    }
    equal(name, &production.nonterminal)
}

// The productions of a grammar, in its order.
fn list_productions<'grammar>(
    alloc: Global,
    grammar: &'grammar Grammar,
) -> Result<Vec<&'grammar Production>, NumbersError>
    ensures { IfOk result (λ list. borrowed list.items ≡ productions grammar.now) }
{
    let mut list = Vec::new(alloc);
    for (_name, data) in grammar.nonterminals.iter() {
        add_borrowed(&data.productions, &mut list)?;
    }
    Ok(list)
}

// Adds productions after the others.
fn add_borrowed<'grammar>(
    productions: &'grammar [Production],
    list: &mut Vec<&'grammar Production>,
) -> Result<(), NumbersError>
    ensures { OnOk result (borrowed list.new.items ≡ borrowed list.old.items ++ productions.now) }
{
    for production in productions {
        list.push(production)?;
    }
    Ok(())
}

// The token sets. The error for a number that is no token's is `Set`.
fn make_sets(
    alloc: Global,
    terminals: u32,
    sets: &[Sequence<u32>],
) -> Result<Vec<TokenSet>, NumbersError>
    ensures { IfOk result (λ made. made.items ≡ map bits_of sets.now) }
{
    let mut made = Vec::with_capacity(alloc, sets.len())?;
    for (place, tokens) in sets.iter().enumerate() {
        made.push(make_set(alloc, terminals, place, tokens.as_slice())?)?;
    }
    Ok(made)
}

// A token set, which has a place.
fn make_set(
    alloc: Global,
    terminals: u32,
    place: usize,
    tokens: &[u32],
) -> Result<TokenSet, NumbersError>
    ensures { IfOk result (λ set. set ≡ bits_of tokens.now) }
{
    let mut set = TokenSet::empty_set(alloc);
    for token in tokens {
        if *token as usize > terminals as usize + 1 {
            return Err(NumbersError::Set(place));
        }
        if !set.insert_bit(*token as usize)? {
            return Err(NumbersError::Set(place));
        }
    }
    Ok(set)
}

// The states, with the items of lists.
fn make_states<'grammar>(
    alloc: Global,
    names: &Names,
    productions: &[&'grammar Production],
    sets: &[TokenSet],
    tables: &NumberedTables,
    lists: &[Sequence<NumberedItem>],
) -> Result<Vec<Lr1State<'grammar>>, NumbersError>
    ensures made { IfOk result (λ states. borrowed productions.now ≡ names.now.productions →
        sets.now ≡ map bits_of tables.now.sets →
        AreMade names.now tables.now.sets tables.now.states states.items) }
    ensures items { IfOk result (λ states.
        EachHasItems (borrowed productions.now) sets.now lists.now states.items) }
{
    let list = tables.states.as_slice();
    let mut states = Vec::with_capacity(alloc, list.len())?;
    for (place, state) in list.iter().enumerate() {
        states.push(make_state(
            alloc,
            names,
            productions,
            sets,
            list.len(),
            place,
            state,
            lists,
        )?)?;
    }
    Ok(states)
}

// The state at a place, of so many, with the items of lists.
fn make_state<'grammar>(
    alloc: Global,
    names: &Names,
    productions: &[&'grammar Production],
    sets: &[TokenSet],
    count: usize,
    place: usize,
    state: &NumberedState,
    lists: &[Sequence<NumberedItem>],
) -> Result<Lr1State<'grammar>, NumbersError>
    ensures made { IfOk result (λ made. (listed : List (List ℕ)) →
        borrowed productions.now ≡ names.now.productions →
        sets.now ≡ map bits_of listed → IsMade names.now listed state.now made) }
    ensures items { IfOk result (λ made.
        AreItemsOf (borrowed productions.now) sets.now (list_at lists.now place) made) }
{
    Ok(State {
        index: StateIndex(place),
        items: Items {
            vec: listed_items(alloc, productions, sets, place, lists)?,
        },
        shifts: make_shifts(
            alloc,
            names.terminals.all(),
            count,
            place,
            state.shifts.as_slice(),
        )?,
        reductions: make_reductions(alloc, productions, sets, place, state.reductions.as_slice())?,
        gotos: make_gotos(
            alloc,
            names.nonterminals.all(),
            count,
            place,
            state.gotos.as_slice(),
        )?,
    })
}

// The shifts of the state at a place, of so many.
fn make_shifts(
    alloc: Global,
    terminals: &[TerminalString],
    count: usize,
    place: usize,
    pairs: &[(u32, u32)],
) -> Result<BTreeMap<TerminalString, StateIndex>, NumbersError>
    ensures { IfOk result (λ shifts. HasTargets terminal_ord.ghosts.cmp shifts
        (named terminals.now pairs.now)) }
{
    let mut shifts = BTreeMap::new(alloc);
    for (number, target) in pairs {
        let Some(terminal) = terminals.get(*number as usize) else {
            return Err(NumbersError::State(place));
        };
        add_target(count, place, &mut shifts, terminal.clone(alloc)?, *target)?;
    }
    Ok(shifts)
}

// The gotos of the state at a place, of so many.
fn make_gotos(
    alloc: Global,
    nonterminals: &[NonterminalString],
    count: usize,
    place: usize,
    pairs: &[(u32, u32)],
) -> Result<BTreeMap<NonterminalString, StateIndex>, NumbersError>
    ensures { IfOk result (λ gotos. HasTargets name_cmp gotos
        (named nonterminals.now pairs.now)) }
{
    let mut gotos = BTreeMap::new(alloc);
    for (number, target) in pairs {
        let Some(name) = nonterminals.get(*number as usize) else {
            return Err(NumbersError::State(place));
        };
        add_target(count, place, &mut gotos, name.clone(alloc)?, *target)?;
    }
    Ok(gotos)
}

// Adds the target of a name, of the state at a place. The error is `State` if there is no state
// with the number of the target, or the name has a target.
fn add_target<K: Exact + Ord + Drop>(
    count: usize,
    place: usize,
    targets: &mut BTreeMap<K, StateIndex>,
    name: K,
    target: u32,
) -> Result<(), NumbersError>
    ensures { OnOk result (AddsTarget K.cmp targets.old targets.new name target) }
{
    if target as usize >= count {
        return Err(NumbersError::State(place));
    }
    if targets.contains_key(&name) {
        return Err(NumbersError::State(place));
    }
    targets.insert(name, StateIndex(target as usize))?;
    Ok(())
}

// The reductions of the state at a place.
fn make_reductions<'grammar>(
    alloc: Global,
    productions: &[&'grammar Production],
    sets: &[TokenSet],
    place: usize,
    pairs: &[(u32, u32)],
) -> Result<Vec<(TokenSet, &'grammar Production)>, NumbersError>
    ensures { IfOk result (λ reductions. map reduction_parts reductions.items
        ≡ map (reduction_at (borrowed productions.now) sets.now) pairs.now) }
{
    let mut reductions = Vec::with_capacity(alloc, pairs.len())?;
    for (number, set) in pairs {
        let Some(production) = productions.get(*number as usize) else {
            return Err(NumbersError::State(place));
        };
        let Some(tokens) = sets.get(*set as usize) else {
            return Err(NumbersError::State(place));
        };
        reductions.push((tokens.clone(alloc)?, *production))?;
    }
    Ok(reductions)
}
