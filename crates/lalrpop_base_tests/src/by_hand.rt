// States that a test makes by hand, without lookahead and without reductions.
use lalrpop_base::lr1_core::coherent::are_coherent;
use lalrpop_base::lr1_core::item::Item;
use lalrpop_base::lr1_core::lr0::Lr0State;
use lalrpop_base::lr1_core::state::{Items, State, StateIndex};
use lalrpop_base::memory::OutOfMemory;
use lalrpop_base::repr::grammar::Grammar;
use lalrpop_base::repr::{Production, Symbol};
use std::alloc::Global;
use std::collections::BTreeMap;
use std::test::Fail;
use test_fixtures::texts::{first_production, grammar, literal};

// A state of productions with the dot at the same place. It has no edges.
fn state_of<'g>(
    alloc: Global,
    number: usize,
    productions: &[&'g Production],
    dot: usize,
) -> Result<Lr0State<'g>, Fail> {
    let mut vec = Vec::new(alloc);
    for production in productions {
        if dot > production.symbols.len() {
            return Err(Fail::from("the dot is past the end"));
        }
        vec.push(Item::lr0(*production, dot))?;
    }
    Ok(State {
        index: StateIndex(number),
        items: Items { vec },
        shifts: BTreeMap::new(alloc),
        reductions: Vec::new(alloc),
        gotos: BTreeMap::new(alloc),
    })
}

// Adds the shift of a terminal from a state to another one.
fn lead(
    alloc: Global,
    states: &mut [Lr0State<'_>],
    from: usize,
    text: &str,
    to: usize,
) -> Result<(), OutOfMemory> {
    if let Some(state) = states.get_mut(from) {
        state.shifts.insert(literal(alloc, text)?, StateIndex(to))?;
    }
    Ok(())
}

// The symbols that a state pushes whose item has the dot after the first symbol. They outlive the
// state.
fn pushed<'g>(alloc: Global, production: &'g Production) -> Result<&'g [Symbol], Fail> {
    let productions = vec![in alloc; production]?;
    let gone = state_of(alloc, 0, &productions, 1)?;
    Ok(gone.will_push())
}

// Whether the states before and after the first symbol of X are coherent, if "c" leads from the
// first one to the state with the number `target`.
fn are_led(alloc: Global, production: &Production, target: usize) -> Result<bool, Fail> {
    let productions = vec![in alloc; production]?;
    let first = state_of(alloc, 0, &productions, 0)?;
    let second = state_of(alloc, 1, &productions, 1)?;
    let mut states = vec![in alloc; first, second]?;
    lead(alloc, &mut states, 0, "c", target)?;
    Ok(are_coherent(&states))
}

// Whether states of X = "c" "d" are coherent exactly if the edge leads to the second one, which
// pushes one symbol.
fn are_right_of(alloc: Global, grammar: &Grammar) -> Result<bool, Fail> {
    let production = first_production(alloc, grammar, "X")?;
    let is_led = are_led(alloc, production, 1)?;
    let is_lost = are_led(alloc, production, 2)?;
    Ok(is_led && !is_lost && pushed(alloc, production)?.len() == 1)
}

// Whether these states are right. This function alone owns a grammar.
fn are_right(alloc: Global) -> Result<bool, Fail> {
    let grammar = grammar(alloc, "X = \"c\" \"d\"")?;
    are_right_of(alloc, &grammar)
}

#[test]
fn states_by_hand(rt: HostRuntime) -> Result<(), Fail> {
    assert!(rt; are_right(rt.alloc())?);
    Ok(())
}
