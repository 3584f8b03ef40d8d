//! The steps that a search can make from a shape.
use super::frames::{
    Frame, Frames, Shape, close, is_blocked, move_after, move_before, outermost, symbol_after,
    symbol_before,
};
use super::links::Links;
use super::missing::{are_nullable, missing_productions};
use super::pending::{Pending, Side, Step, Waiting};
use lalrpop_base::exact::equal;
use lalrpop_base::first::FirstSets;
use lalrpop_base::lr1_core::state::State;
use lalrpop_base::memory::OutOfMemory;
use lalrpop_base::repr::grammar::Grammar;
use lalrpop_base::repr::{NonterminalString, Production, Symbol};
use std::alloc::Global;

/// What a search goes by: a grammar and its FIRST sets, states, and their links.
#[derive(Drop)]
pub(super) struct Ground<'a, 'grammar, L> {
    pub(super) grammar: &'grammar Grammar,
    pub(super) first_sets: FirstSets<'grammar>,
    pub(super) states: &'a [State<'grammar, L>],
    pub(super) links: Links,
}

/// A shape that was taken, its cost, and the number of the step that made it.
#[derive(Drop)]
pub(super) struct Taken<'grammar> {
    pub(super) shape: Shape<'grammar>,
    pub(super) cost: usize,
    pub(super) number: usize,
}

// The cost of a symbol that both derivations gain.
const SYMBOL: usize = 1;

// The cost of a production that one derivation gains.
const PRODUCTION: usize = 50;

/// What a shape still costs, at least.
pub(super) fn missing_cost(first_sets: &FirstSets<'_>, shape: &Shape<'_>) -> usize {
    missing_productions(first_sets, shape).saturating_mul(PRODUCTION)
}

/// Adds the shapes to which one step leads. Symbols before are gained only if one derivation needs
/// them: it has nothing left after it. What is left after the other may be nullable. Then it may be
/// expanded to nothing.
pub(super) fn add_moves<'grammar, L>(
    alloc: Global,
    ground: &Ground<'_, 'grammar, L>,
    taken: &Taken<'grammar>,
    waiting: &mut Waiting<'grammar>,
) -> Result<(), OutOfMemory> {
    let left = is_blocked(&taken.shape.left);
    let right = is_blocked(&taken.shape.right);
    if !left && !right {
        return add_after(alloc, ground, taken, waiting);
    }
    if !left {
        add_empty(alloc, ground, taken, Side::Left, waiting)?;
    }
    if !right {
        add_empty(alloc, ground, taken, Side::Right, waiting)?;
    }
    let before_left = symbol_before(&taken.shape.left);
    let before_right = symbol_before(&taken.shape.right);
    if before_left.is_some() && before_right.is_some() {
        return add_before(alloc, ground, taken, waiting);
    }
    if before_left.is_none() && (left || before_right.is_some()) {
        add_around(alloc, ground, taken, Side::Left, waiting)?;
    }
    if before_right.is_none() && (right || before_left.is_some()) {
        add_around(alloc, ground, taken, Side::Right, waiting)?;
    }
    Ok(())
}

// ---- symbols and productions before
// Both derivations gain the symbol before, in each state that leads to the state before them.
fn add_before<'grammar, L>(
    alloc: Global,
    ground: &Ground<'_, 'grammar, L>,
    taken: &Taken<'grammar>,
    waiting: &mut Waiting<'grammar>,
) -> Result<(), OutOfMemory> {
    if !are_same(
        symbol_before(&taken.shape.left),
        symbol_before(&taken.shape.right),
    ) {
        return Ok(());
    }
    let Some(sources) = ground.links.get(taken.shape.state) else {
        return Ok(());
    };
    for source in sources {
        let mut shape = taken.shape.copy(alloc)?;
        shape.state = *source;
        move_before(&mut shape.left);
        move_before(&mut shape.right);
        add(ground, taken, shape, Step::Before, SYMBOL, waiting)?;
    }
    Ok(())
}

// One derivation becomes the child of each item of the state that has its nonterminal after the
// dot.
fn add_around<'grammar, L>(
    alloc: Global,
    ground: &Ground<'_, 'grammar, L>,
    taken: &Taken<'grammar>,
    side: Side,
    waiting: &mut Waiting<'grammar>,
) -> Result<(), OutOfMemory> {
    let Some(state) = ground.states.get(taken.shape.state) else {
        return Ok(());
    };
    let Some(name) = outermost(frames_at(&taken.shape, side)) else {
        return Ok(());
    };
    for item in &state.items.vec {
        let frame = Frame::at(item.production, item.index);
        if is_name(frame.after(), name) {
            let mut shape = taken.shape.copy(alloc)?;
            put_around(&mut shape, side, frame)?;
            let step = Step::Around(side, item.production, item.index);
            add(ground, taken, shape, step, PRODUCTION, waiting)?;
        }
    }
    Ok(())
}

fn put_around<'grammar>(
    shape: &mut Shape<'grammar>,
    side: Side,
    frame: Frame<'grammar>,
) -> Result<(), OutOfMemory> {
    let frames = frames_at_mut(shape, side);
    frames.insert(0, frame)?;
    close(frames);
    Ok(())
}

// ---- symbols and productions after
// Both derivations gain the symbol after, or the nonterminal after one is expanded.
fn add_after<'grammar, L>(
    alloc: Global,
    ground: &Ground<'_, 'grammar, L>,
    taken: &Taken<'grammar>,
    waiting: &mut Waiting<'grammar>,
) -> Result<(), OutOfMemory> {
    let left = symbol_after(&taken.shape.left);
    let right = symbol_after(&taken.shape.right);
    if are_same(left, right) {
        let mut shape = taken.shape.copy(alloc)?;
        move_after(&mut shape.left);
        move_after(&mut shape.right);
        close(&mut shape.left);
        close(&mut shape.right);
        add(ground, taken, shape, Step::After, SYMBOL, waiting)?;
    }
    if let Some(Symbol::Nonterminal(name)) = left {
        add_within(alloc, ground, taken, Side::Left, name, waiting)?;
    }
    if let Some(Symbol::Nonterminal(name)) = right {
        add_within(alloc, ground, taken, Side::Right, name, waiting)?;
    }
    Ok(())
}

// The nonterminal after one derivation is expanded by each of its productions.
fn add_within<'grammar, L>(
    alloc: Global,
    ground: &Ground<'_, 'grammar, L>,
    taken: &Taken<'grammar>,
    side: Side,
    name: &NonterminalString,
    waiting: &mut Waiting<'grammar>,
) -> Result<(), OutOfMemory> {
    let grammar = ground.grammar;
    for production in grammar.productions_for(name) {
        add_expanded(alloc, ground, taken, side, production, waiting)?;
    }
    Ok(())
}

// The nonterminal after one derivation is expanded by each production of nullable symbols.
fn add_empty<'grammar, L>(
    alloc: Global,
    ground: &Ground<'_, 'grammar, L>,
    taken: &Taken<'grammar>,
    side: Side,
    waiting: &mut Waiting<'grammar>,
) -> Result<(), OutOfMemory> {
    let Some(Symbol::Nonterminal(name)) = symbol_after(frames_at(&taken.shape, side)) else {
        return Ok(());
    };
    let grammar = ground.grammar;
    for production in grammar.productions_for(name) {
        if are_nullable(&ground.first_sets, production.symbols.as_slice()) {
            add_expanded(alloc, ground, taken, side, production, waiting)?;
        }
    }
    Ok(())
}

// The nonterminal after one derivation is expanded by a production.
fn add_expanded<'grammar, L>(
    alloc: Global,
    ground: &Ground<'_, 'grammar, L>,
    taken: &Taken<'grammar>,
    side: Side,
    production: &'grammar Production,
    waiting: &mut Waiting<'grammar>,
) -> Result<(), OutOfMemory> {
    let mut shape = taken.shape.copy(alloc)?;
    let frames = frames_at_mut(&mut shape, side);
    frames.push(Frame::at(production, 0))?;
    close(frames);
    let step = Step::Within(side, production);
    add(ground, taken, shape, step, PRODUCTION, waiting)
}

// ---- parts of these
// Adds a shape, unless nothing can follow it.
fn add<'grammar, L>(
    ground: &Ground<'_, 'grammar, L>,
    taken: &Taken<'grammar>,
    shape: Shape<'grammar>,
    step: Step<'grammar>,
    cost: usize,
    waiting: &mut Waiting<'grammar>,
) -> Result<(), OutOfMemory> {
    if has_ended(&shape) {
        return Ok(());
    }
    let missing = missing_cost(&ground.first_sets, &shape);
    waiting.add(Pending {
        shape,
        step,
        previous: taken.number,
        cost: taken.cost.saturating_add(cost),
        missing,
    })
}

// Whether different terminals are after the two derivations, so that these have no symbol more in
// common.
fn has_ended(shape: &Shape<'_>) -> bool {
    match (symbol_after(&shape.left), symbol_after(&shape.right)) {
        (Some(Symbol::Terminal(t)), Some(Symbol::Terminal(u))) => !equal(t, u),
        _ => false,
    }
}

fn frames_at<'shape, 'grammar>(
    shape: &'shape Shape<'grammar>,
    side: Side,
) -> &'shape Frames<'grammar> {
    match side {
        Side::Left => &shape.left,
        Side::Right => &shape.right,
    }
}

fn frames_at_mut<'shape, 'grammar>(
    shape: &'shape mut Shape<'grammar>,
    side: Side,
) -> &'shape mut Frames<'grammar> {
    match side {
        Side::Left => &mut shape.left,
        Side::Right => &mut shape.right,
    }
}

fn are_same(symbol: Option<&Symbol>, other: Option<&Symbol>) -> bool {
    match (symbol, other) {
        (Some(x), Some(y)) => equal(x, y),
        _ => false,
    }
}

fn is_name(symbol: Option<&Symbol>, name: &NonterminalString) -> bool {
    match symbol {
        Some(Symbol::Nonterminal(other)) => equal(other, name),
        _ => false,
    }
}
