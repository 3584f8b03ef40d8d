//! States, actions, conflicts and errors.
ghost use Rattle.std.specs.Fmt.{WritesOnOk, WritesStyledOnOk};
ghost use Rattle.std.specs.Prelude.{◌≡◌, ◌++◌, Some, codes, decimal};
ghost use Rattle.lalrpop_states.specs.declared.lr1_core.state.BuildError.TheVariants.{Conflicts, Memory};

use super::item::Item;
use lalrpop_collections::memory::OutOfMemory;
use lalrpop_grammar::lookahead::token_set::TokenSet;
use lalrpop_grammar::repr::{NonterminalString, Production, TerminalString};
use std::collections::BTreeMap;
use std::fmt::{self, Write};

/// Writes a number in decimal digits. The style of the formatter has no effect.
pub(super) fn write_decimal<W: fmt::Write>(f: &mut fmt::Formatter<W>, number: usize) -> fmt::Result
    ensures writes { WritesOnOk W.write_str_gives f.old result (decimal number) f.new }
    ensures styled { WritesStyledOnOk W.write_str_gives f.old result (decimal number) f.new }
{
    let mut digits = fmt::InlineText::<20>::new();
    write!(digits, "{number}")?;
    f.write_str(digits.as_str())
}

/// The number of a state: its index in the list of states.
#[derive(Clone, Copy, PartialEq, Eq, PartialOrd, Ord, Hash)]
pub struct StateIndex(pub usize);

impl fmt::Debug for StateIndex {
    ghost debug_output = { λ index. Some (codes "S" ++ decimal index.0) };

    fn fmt<W: fmt::Write>(&self, f: &mut fmt::Formatter<W>) -> fmt::Result {
        write!(f, "S{}", self.0)
    }
}

impl fmt::Display for StateIndex {
    ghost output = { λ index. Some (decimal index.0) };

    ghost styled_output = { λ index _. Some (decimal index.0) };

    fn fmt<W: fmt::Write>(&self, f: &mut fmt::Formatter<W>) -> fmt::Result {
        write_decimal(f, self.0)
    }
}

/// The items of a state.
#[derive(Drop, PartialEq, Eq, Ord, Hash)]
#[derive_where(Debug; L: fmt::Debug)]
#[derive_where(PartialOrd; L: Ord)]
pub struct Items<'grammar, L> {
    pub vec: Vec<Item<'grammar, L>>,
}

/// A state of a table: its number, its items, its shifts and gotos with their targets, and its
/// reductions with their lookaheads.
#[derive(Drop)]
#[derive_where(Debug; L: fmt::Debug)]
pub struct State<'grammar, L> {
    pub index: StateIndex,
    pub items: Items<'grammar, L>,
    pub shifts: BTreeMap<TerminalString, StateIndex>,
    pub reductions: Vec<(L, &'grammar Production)>,
    pub gotos: BTreeMap<NonterminalString, StateIndex>,
}

/// The items of a state, with sets of tokens.
pub type Lr1Items<'grammar> = Items<'grammar, TokenSet>;

/// A state whose lookaheads are sets of tokens.
pub type Lr1State<'grammar> = State<'grammar, TokenSet>;

/// An action of a state: a shift of a terminal to a state, or a reduction by a production.
#[derive(Debug, Drop, PartialEq, Eq, PartialOrd, Ord)]
pub enum Action<'grammar> {
    Shift(TerminalString, StateIndex),
    Reduce(&'grammar Production),
}

/// A conflict of a state: the reduction by the production and the action share the lookahead.
#[derive(Debug, Drop, PartialEq, Eq)]
pub struct Conflict<'grammar, L> {
    pub state: StateIndex,
    pub lookahead: L,
    pub production: &'grammar Production,
    pub action: Action<'grammar>,
}

/// A conflict on a set of tokens.
pub type Lr1Conflict<'grammar> = Conflict<'grammar, TokenSet>;

/// The states of a construction, and the conflicts that they have.
#[derive(Drop)]
#[derive_where(Debug; L: fmt::Debug)]
pub struct TableConstructionError<'grammar, L> {
    pub states: Vec<State<'grammar, L>>,
    pub conflicts: Vec<Conflict<'grammar, L>>,
}

/// An error with states and conflicts over sets of tokens.
pub type Lr1TableConstructionError<'grammar> = TableConstructionError<'grammar, TokenSet>;

/// The reason why there is no table: conflicts, or an allocation failure (`Memory`).
#[derive(Drop)]
#[derive_where(Debug; L: fmt::Debug)]
pub enum BuildError<'grammar, L> {
    Conflicts(TableConstructionError<'grammar, L>),
    Memory,
}

/// The states of a table, or the reason why there is none.
pub type LrResult<'grammar, L> = Result<Vec<State<'grammar, L>>, BuildError<'grammar, L>>;

/// The states of a table with sets of tokens, or the reason why there is none.
pub type Lr1Result<'grammar> = LrResult<'grammar, TokenSet>;

impl<'grammar, L> From<OutOfMemory> for BuildError<'grammar, L> {
    ghost from_gives = { λ _ e. e ≡ Memory };

    fn from(_error: OutOfMemory) -> BuildError<'grammar, L> {
        BuildError::Memory
    }
}

impl<'grammar, L> From<TableConstructionError<'grammar, L>> for BuildError<'grammar, L> {
    ghost from_gives = { λ error e. e ≡ Conflicts error };

    fn from(error: TableConstructionError<'grammar, L>) -> BuildError<'grammar, L> {
        BuildError::Conflicts(error)
    }
}
