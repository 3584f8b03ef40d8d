//! The tokens that may come next in an input.
ghost use Rattle.std.specs.Prelude.{◌≡◌, ◌<◌, ◌∷◌, [], ◌++◌, IfOk, List, OnOk, length};
ghost use Rattle.lalrpop_base.specs.Words.{AreCoherent, contents_in};
ghost use Rattle.lalrpop_grammar.specs.declared.repr.TerminalString.{TerminalString};
ghost use Rattle.parse_pictures.specs.NextTokens.{AreNext, IsShiftedCount, IsEnding, IsShiftingAll};

use lalrpop_collections::memory::OutOfMemory;
use lalrpop_grammar::repr::TerminalString;
use lalrpop_grammar::repr::terminals::TerminalSet;
use lalrpop_parser::interpret::{InterpretError, LookaheadInterpret, interpret, interpret_partial};
use lalrpop_states::lr1_core::state::State;
use std::alloc::Global;

/// What may come next in an input: terminals, and whether the input may end.
#[derive(Drop)]
pub struct Expected {
    pub terminals: Vec<TerminalString>,
    pub end: bool,
}

/// What may come after the beginning of an input, found by parses of at most `limit` steps. The
/// terminals have the order of those of the grammar. `OutOfMemory` if an allocation fails.
pub fn expected_tokens<'grammar, L: LookaheadInterpret>(
    alloc: Global,
    states: &[State<'grammar, L>],
    terminals: &TerminalSet,
    before: &[TerminalString],
    limit: usize,
) -> Result<Expected, OutOfMemory>
    requires coherent { AreCoherent states.now }
    requires some { 0 < length states.now }
    ensures terminals { IfOk result (λ expected. AreNext
        (contents_in (L.holds terminals.now) states.now) limit before.now terminals.now
        expected.terminals.items) }
    ensures end { IfOk result (λ expected. IsEnding
        (contents_in (L.holds terminals.now) states.now) limit before.now expected.end) }
{
    let mut next = Vec::new(alloc);
    let listed = terminals.all();
    for terminal in listed {
        push_if_next(alloc, states, terminals, before, terminal, limit, &mut next)?;
    }
    let copy = copies(alloc, before)?;
    let end = may_end(alloc, states, terminals, copy, limit)?;
    Ok(Expected {
        terminals: next,
        end,
    })
}

// Appends a terminal, if a parse shifts it after the beginning of an input.
fn push_if_next<'grammar, L: LookaheadInterpret>(
    alloc: Global,
    states: &[State<'grammar, L>],
    terminals: &TerminalSet,
    before: &[TerminalString],
    terminal: &TerminalString,
    limit: usize,
    next: &mut Vec<TerminalString>,
) -> Result<(), OutOfMemory>
    requires coherent { AreCoherent states.now }
    requires some { 0 < length states.now }
    ensures { (ts : List TerminalString) → AreNext (contents_in (L.holds terminals.now) states.now)
        limit before.now ts next.old.items → OnOk result (AreNext
        (contents_in (L.holds terminals.now) states.now) limit before.now (ts ++ terminal.now ∷ [])
        next.new.items) }
{
    let shifts = shifts_all_with(alloc, states, terminals, before, terminal, limit)?;
    if shifts {
        next.push(terminal.clone(alloc)?)?;
        return Ok(());
    }
    Ok(())
}

// Whether a parse shifts a terminal after the beginning of an input.
fn shifts_all_with<'grammar, L: LookaheadInterpret>(
    alloc: Global,
    states: &[State<'grammar, L>],
    terminals: &TerminalSet,
    before: &[TerminalString],
    terminal: &TerminalString,
    limit: usize,
) -> Result<bool, OutOfMemory>
    requires coherent { AreCoherent states.now }
    requires some { 0 < length states.now }
    ensures { IfOk result (λ shifts. IsShiftingAll (contents_in (L.holds terminals.now) states.now)
        limit (before.now ++ terminal.now ∷ []) shifts) }
{
    let mut tokens = copies(alloc, before)?;
    tokens.push(terminal.clone(alloc)?)?;
    shifts_all(alloc, states, terminals, tokens, limit)
}

// Whether a parse shifts a whole list.
fn shifts_all<'grammar, L: LookaheadInterpret>(
    alloc: Global,
    states: &[State<'grammar, L>],
    terminals: &TerminalSet,
    tokens: Vec<TerminalString>,
    limit: usize,
) -> Result<bool, OutOfMemory>
    requires coherent { AreCoherent states.now }
    requires some { 0 < length states.now }
    ensures { IfOk result (λ shifts. IsShiftingAll (contents_in (L.holds terminals.now) states.now)
        limit tokens.items shifts) }
{
    match interpret_partial(alloc, states, terminals, tokens, limit) {
        Ok(_) => Ok(true),
        Err(InterpretError::Refused(_, _)) => Ok(false),
        Err(InterpretError::Limit) => Ok(false),
        Err(InterpretError::Memory) => Err(OutOfMemory),
    }
}

// Whether a parse of a whole list ends with a tree.
fn may_end<'grammar, L: LookaheadInterpret>(
    alloc: Global,
    states: &[State<'grammar, L>],
    terminals: &TerminalSet,
    tokens: Vec<TerminalString>,
    limit: usize,
) -> Result<bool, OutOfMemory>
    requires coherent { AreCoherent states.now }
    requires some { 0 < length states.now }
    ensures { IfOk result (λ ends. IsEnding (contents_in (L.holds terminals.now) states.now) limit
        tokens.items ends) }
{
    match interpret(alloc, states, terminals, tokens, limit) {
        Ok(_) => Ok(true),
        Err(InterpretError::Refused(_, _)) => Ok(false),
        Err(InterpretError::Limit) => Ok(false),
        Err(InterpretError::Memory) => Err(OutOfMemory),
    }
}

// Copies of terminals.
fn copies(alloc: Global, terminals: &[TerminalString]) -> Result<Vec<TerminalString>, OutOfMemory>
    ensures { IfOk result (λ list. list.items ≡ terminals.now) }
{
    let mut list = Vec::new(alloc);
    for terminal in terminals {
        list.push(terminal.clone(alloc)?)?;
    }
    Ok(list)
}

/// How many terminals of an input a parse shifts, in at most `limit` steps: the place of the first
/// wrong token, counted from 0, if the input is refused. `OutOfMemory` if an allocation fails.
pub fn shifted_count<'grammar, L: LookaheadInterpret>(
    alloc: Global,
    states: &[State<'grammar, L>],
    terminals: &TerminalSet,
    tokens: &[TerminalString],
    limit: usize,
) -> Result<usize, OutOfMemory>
    requires coherent { AreCoherent states.now }
    requires some { 0 < length states.now }
    ensures { IfOk result (λ count. IsShiftedCount
        (contents_in (L.holds terminals.now) states.now) limit tokens.now count) }
{
    let mut low = 0;
    let mut high = tokens.len();
    while low < high {
        let middle = high - (high - low) / 2;
        let beginning = copies(alloc, &tokens[..middle])?;
        let shifts = shifts_all(alloc, states, terminals, beginning, limit)?;
        if shifts {
            low = middle;
        } else {
            high = middle - 1;
        }
    }
    Ok(low)
}
