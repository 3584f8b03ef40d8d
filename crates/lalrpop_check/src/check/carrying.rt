//! Tokens that are carried over the edges of states.
ghost use Rattle.std.specs.Prelude.{◌≡◌, ◌<◌, ◌↔◌, IfOk, OnOk, Contains, IsTrue, Some, true};
ghost use Rattle.std.specs.Map.{keys_of};
ghost use Rattle.lalrpop_base.specs.Words.{AreClosed, contents, EachItem, AllDiffer, IsWellFormed, productions, productions_of, rules_of, Sends, IsPlaceAtStart, IsOver};
ghost use Rattle.lalrpop_base.specs.Words.{CarriesFromPlace, target_in, AreCarried, HoldsTableTokens, AllHoldTableTokens};
ghost use Rattle.lalrpop_collections.specs.lists.Entries.{IsQueued};

use super::states::target;
use lalrpop_base::collections::tokens::{add_tokens, find_tokens};
use lalrpop_base::first::FirstSets;
use lalrpop_base::lookahead::nil::Nil;
use lalrpop_base::lookahead::token_set::TokenSet;
use lalrpop_base::lr1_core::item::Item;
use lalrpop_base::lr1_core::place::Place;
use lalrpop_base::lr1_core::state::Lr1State;
use lalrpop_base::memory::OutOfMemory;
use lalrpop_base::repr::grammar::Grammar;
use lalrpop_base::repr::{NonterminalString, Production, Symbol};
use std::alloc::Global;
use std::collections::{BTreeMap, VecDeque};

/// The tokens that are carried to each place.
pub type Table<'grammar> = BTreeMap<Place<'grammar>, TokenSet>;

// Sends tokens to a place. The place is put into the queue if it is new or has more tokens now.
fn send<'grammar>(
    alloc: Global,
    place: Place<'grammar>,
    tokens: &TokenSet,
    table: &mut Table<'grammar>,
    queue: &mut VecDeque<Place<'grammar>>,
) -> Result<(), OutOfMemory>
    ensures { OnOk result (IsQueued place.entry tokens.now table.old.entries table.new.entries
        queue.old.items queue.new.items) }
{
    let copy = place.copy();
    if add_tokens(alloc, table, copy, tokens)? {
        queue.push_back(place)?;
    }
    Ok(())
}

// Sends tokens to the productions of a nonterminal in a state, with the dot at the start.
fn send_productions<'grammar>(
    alloc: Global,
    grammar: &'grammar Grammar,
    name: &NonterminalString,
    state: usize,
    tokens: &TokenSet,
    table: &mut Table<'grammar>,
    queue: &mut VecDeque<Place<'grammar>>,
) -> Result<(), OutOfMemory>
    ensures { OnOk result (Sends (IsPlaceAtStart state
        (productions_of grammar.now name.now)) tokens.now
        table.old.entries table.new.entries queue.old.items queue.new.items) }
{
    for production in grammar.productions_for(name) {
        let item = Item {
            production,
            index: 0,
            lookahead: Nil,
        };
        send(alloc, Place { state, item }, tokens, table, queue)?;
    }
    Ok(())
}

// The number of the state to which a symbol leads from the state `number`. `None` if there is no
// such state or edge.
fn target_at<'grammar>(
    states: &[Lr1State<'grammar>],
    number: usize,
    symbol: &Symbol,
) -> Option<usize>
    ensures { result ≡ target_in states.now number symbol.now }
{
    if number < states.len() {
        target(&states[number], symbol)
    } else {
        None
    }
}

// Sends tokens over the symbol after the dot of a place.
fn send_over<'grammar>(
    alloc: Global,
    states: &[Lr1State<'grammar>],
    place: &Place<'grammar>,
    tokens: &TokenSet,
    table: &mut Table<'grammar>,
    queue: &mut VecDeque<Place<'grammar>>,
) -> Result<(), OutOfMemory>
    ensures { OnOk result (Sends (IsOver states.now place.now) tokens.now table.old.entries
        table.new.entries queue.old.items queue.new.items) }
{
    let Some((symbol, item)) = place.item.shifted_item(alloc)? else {
        return Ok(());
    };
    let Some(state) = target_at(states, place.state, symbol) else {
        return Ok(());
    };
    send(alloc, Place { state, item }, tokens, table, queue)?;
    Ok(())
}

// A copy of the tokens of a place that the table has.
fn tokens_at<'grammar>(
    alloc: Global,
    table: &Table<'grammar>,
    place: &Place<'grammar>,
) -> Result<TokenSet, OutOfMemory>
    requires found { Contains (keys_of table.now.entries) place.now }
    requires differ { AllDiffer (keys_of table.now.entries) }
    ensures { IfOk result (λ set. Contains table.now.entries (place.now, set)) }
{
    match find_tokens(table, place) {
        Some(tokens) => Ok(tokens.clone(alloc)?),
        None => unreachable!(),
    }
}

// Sends the tokens of a place over the symbol after its dot. If the symbol is a nonterminal, the
// tokens that follow it are sent to its productions.
fn send_on<'grammar>(
    alloc: Global,
    grammar: &'grammar Grammar,
    first_sets: &FirstSets<'grammar>,
    states: &[Lr1State<'grammar>],
    place: &Place<'grammar>,
    table: &mut Table<'grammar>,
    queue: &mut VecDeque<Place<'grammar>>,
) -> Result<(), OutOfMemory>
    requires well_formed { IsWellFormed grammar.now }
    requires firsts { first_sets.now ≡ rules_of grammar.now }
    requires known { Contains (productions grammar.now) place.now.item.production }
    requires found { Contains (keys_of table.old.entries) place.now }
    requires differ { AllDiffer (keys_of table.old.entries) }
    ensures { OnOk result (CarriesFromPlace grammar.now states.now place.now table.old.entries
        table.new.entries queue.old.items queue.new.items) }
{
    let tokens = tokens_at(alloc, table, place)?;
    send_over(alloc, states, place, &tokens, table, queue)?;
    let Some((symbol, rest)) = place.item.shift_symbol() else {
        return Ok(());
    };
    let Symbol::Nonterminal(name) = symbol else {
        return Ok(());
    };
    let given = first_sets.first1(alloc, rest, &tokens)?;
    send_productions(alloc, grammar, name, place.state, &given, table, queue)?;
    Ok(())
}

/// The tokens that are carried to each place, from `Eof` at the productions of the start symbol in
/// state 0. `OutOfMemory` if an allocation fails.
pub fn carried<'grammar>(
    alloc: Global,
    grammar: &'grammar Grammar,
    first_sets: &FirstSets<'grammar>,
    start: &NonterminalString,
    states: &[Lr1State<'grammar>],
) -> Result<Table<'grammar>, OutOfMemory>
    requires well_formed { IsWellFormed grammar.now }
    requires firsts { first_sets.now ≡ rules_of grammar.now }
    requires closed { AreClosed (productions grammar.now) start.now
        (contents grammar.now.terminals states.now) }
    ensures { IfOk result (λ table. AreCarried grammar.now start.now states.now table.entries) }
{
    let _names = grammar.nonterminals.len();
    let mut table = BTreeMap::new(alloc);
    let mut queue = VecDeque::new(alloc);
    let eof = TokenSet::eof(alloc, &grammar.terminals)?;
    send_productions(alloc, grammar, start, 0, &eof, &mut table, &mut queue)?;
    while let Some(place) = queue.pop_front() {
        send_on(
            alloc, grammar, first_sets, states, &place, &mut table, &mut queue,
        )?;
    }
    Ok(table)
}

// Whether a reduction of a state holds all tokens that are carried to its finished item.
fn holds_carried<'grammar>(
    alloc: Global,
    table: &Table<'grammar>,
    state: usize,
    reduction: &(TokenSet, &'grammar Production),
) -> Result<bool, OutOfMemory>
    requires { AllDiffer (keys_of table.now.entries) }
    ensures { IfOk result (λ yes. IsTrue yes ↔
        HoldsTableTokens table.now.entries state reduction.now) }
{
    let production = reduction.1;
    let item = Item::lr0(production, production.symbols.len());
    let Some(set) = find_tokens(table, &Place { state, item }) else {
        return Ok(true);
    };
    let mut held = reduction.0.clone(alloc)?;
    let more = held.union_with(set)?;
    Ok(!more)
}

// Whether the reductions of a state hold all tokens that are carried to its finished items.
fn have_carried<'grammar>(
    alloc: Global,
    table: &Table<'grammar>,
    state: usize,
    reductions: &[(TokenSet, &'grammar Production)],
) -> Result<bool, OutOfMemory>
    requires { AllDiffer (keys_of table.now.entries) }
    ensures { IfOk result
        (λ yes. IsTrue yes ↔ EachItem (HoldsTableTokens table.now.entries state) reductions.now) }
{
    for reduction in reductions {
        if !holds_carried(alloc, table, state, reduction)? {
            return Ok(false);
        }
    }
    Ok(true)
}

/// Whether the reductions of each state hold all tokens that are carried to its finished items.
/// `OutOfMemory` if an allocation fails.
pub fn all_have_carried<'grammar>(
    alloc: Global,
    table: &Table<'grammar>,
    states: &[Lr1State<'grammar>],
) -> Result<bool, OutOfMemory>
    requires { AllDiffer (keys_of table.now.entries) }
    ensures { IfOk result (λ yes. IsTrue yes ↔ AllHoldTableTokens table.now.entries states.now) }
{
    for (number, state) in states.iter().enumerate() {
        if !have_carried(alloc, table, number, &state.reductions)? {
            return Ok(false);
        }
    }
    Ok(true)
}
