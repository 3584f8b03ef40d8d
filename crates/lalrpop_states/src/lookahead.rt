//! Lookaheads: the tokens that may follow an item.
pub mod nil;
pub mod token_lookahead;

ghost use Rattle.std.specs.Prelude.{◌≡◌, ◌≢◌, ◌↔◌, IfOk, OnOk, OnErr, MatchBool, false, List};
ghost use Rattle.lalrpop_collections.specs.lists.Bits.{Bits, no_bits, join as joined};
ghost use Rattle.lalrpop_collections.specs.lists.Exact.{Exactly};
ghost use Rattle.lalrpop_states.specs.declared.lr1_core.state.State.{State};
ghost use Rattle.lalrpop_states.specs.declared.lr1_core.state.Conflict.{Conflict};
ghost use Rattle.lalrpop_grammar.specs.declared.repr.TerminalString.{TerminalString};

pub use self::nil::Nil;
use crate::lr1_core::state::{Conflict, State};
use lalrpop_collections::collections::Collection;
use lalrpop_collections::memory::OutOfMemory;
pub use lalrpop_grammar::lookahead::token::{Token, TokenRef, TokenSetIter};
pub use lalrpop_grammar::lookahead::token_set::TokenSet;
pub use lalrpop_grammar::lookahead::{members, token, token_set};
use lalrpop_grammar::repr::terminals::TerminalSet;
use std::alloc::Global;
use std::fmt;
use std::hash::Hash;

/// The lookahead of an item: it means a finite set of bits, each of which is the index of a token
/// that may follow.
pub trait Lookahead: fmt::Debug + Eq + Ord + Hash + Drop + Collection<Item = Self> {
    // The set that a value means.
    ghost meaning: { Self → Bits };

    /// An equal value. `OutOfMemory` if an allocation fails.
    fn copy(&self, alloc: Global) -> Result<Self, OutOfMemory>
        ensures { IfOk result (λ copy. copy ≡ self.now) };

    /// Adds the tokens of `from` to this value, and returns whether this value changed.
    /// `OutOfMemory` if an allocation fails. The default body pushes a copy of `from`. A lookahead
    /// that needs no copy may replace it.
    fn join_with(&mut self, alloc: Global, from: &Self) -> Result<bool, OutOfMemory>
        ensures joined { OnOk result
            (meaning self.new ≡ joined (meaning self.old) (meaning from.now)) }
        ensures told { IfOk result
            (λ changed. MatchBool changed (self.new ≢ self.old) (self.new ≡ self.old)) }
        ensures err { OnErr result (self.new ≡ self.old) }
    {
        let copy = from.copy(alloc)?;
        self.push(copy)
    }

    /// Writes the text that is printed after an item. The text may be empty.
    fn fmt_as_item_suffix<W: fmt::Write>(&self, f: &mut fmt::Formatter<W>) -> fmt::Result;

    // Whether the list has the conflicts of the state, in order.
    ghost lists_conflicts: { State Self → List TerminalString → List (Conflict Self) → Type 0 };

    /// The conflicts of a state, in the order of `lists_conflicts`. `OutOfMemory` if an allocation
    /// fails.
    fn conflicts<'grammar>(
        alloc: Global,
        state: &State<'grammar, Self>,
        terminals: &TerminalSet,
    ) -> Result<Vec<Conflict<'grammar, Self>>, OutOfMemory>
        ensures { IfOk result (λ list. lists_conflicts state.now terminals.now list.items) };

    // Values for which `==` returns true are the same.
    ghost equal_is_same: { Exactly Self.eq };

    // Values with the same meaning are the same.
    ghost same_by_meaning: { (a b : Self) → meaning a ≡ meaning b → a ≡ b };

    // Two values hold the same, in the sense of `Collection`, only if they are the same.
    ghost reads_all: { (a b : Self) → Self.Collection.same a b ↔ (b ≡ a) };

    // An empty value means the empty set.
    ghost empty_is_empty: { (e : Self) → Self.Collection.is_empty e → meaning e ≡ no_bits };

    // After a push the value means the union of both sets.
    ghost push_is_join: { (a b c : Self) → Self.Collection.pushes a b c →
        meaning c ≡ joined (meaning a) (meaning b) };
}

/// Adds the tokens of `from` to `into`, and returns whether `into` changed. `OutOfMemory` if an
/// allocation fails.
pub fn join<L: Lookahead>(alloc: Global, into: &mut L, from: &L) -> Result<bool, OutOfMemory>
    ensures joined { OnOk result
        (L.meaning into.new ≡ joined (L.meaning into.old) (L.meaning from.now)) }
    ensures told { IfOk result
        (λ changed. MatchBool changed (into.new ≢ into.old) (into.new ≡ into.old)) }
    ensures err { OnErr result (into.new ≡ into.old) }
{
    into.join_with(alloc, from)
}

/// Joins `from` into `into` twice, and returns whether the second join changed `into`, which it
/// never does. `OutOfMemory` if an allocation fails.
pub fn join_twice<L: Lookahead>(alloc: Global, into: &mut L, from: &L) -> Result<bool, OutOfMemory>
    ensures { IfOk result (λ changed. changed ≡ false) }
{
    join(alloc, into, from)?;
    join(alloc, into, from)
}

/// A value that means the empty set.
pub fn make_empty<L: Lookahead>(alloc: Global) -> L
    ensures { L.meaning result ≡ no_bits }
{
    L::empty(alloc)
}
