//! Copies of items, states, actions and conflicts.
ghost use Rattle.std.specs.Prelude.{◌≡◌, ◌+◌, ◌<◌, IfOk, IsSome, IsNone, IfSome, Some, length, slice_get};
ghost use Rattle.lalrpop_states.specs.states.StateCopies.{IsSameState, IsShiftedItem};

use super::item::Item;
use super::state::{Action, Conflict, Items, State};
use crate::lookahead::Lookahead;
use lalrpop_collections::memory::OutOfMemory;
use lalrpop_grammar::repr::{Production, Symbol};
use std::alloc::Global;

impl<'grammar, L: Lookahead> Item<'grammar, L> {
    /// An independent copy. `OutOfMemory` if an allocation fails.
    pub fn clone(&self, alloc: Global) -> Result<Self, OutOfMemory>
        ensures copy { IfOk result (λ copy. copy ≡ self.now) }
    {
        Ok(self.with_lookahead(self.lookahead.copy(alloc)?))
    }

    /// The symbol after the dot, and the item with the dot moved over this symbol. `None` if the
    /// dot is at the end; `OutOfMemory` if an allocation fails.
    pub fn shifted_item(
        &self,
        alloc: Global,
    ) -> Result<Option<(&'grammar Symbol, Item<'grammar, L>)>, OutOfMemory>
        ensures shifted { IfOk result (IsShiftedItem self.now) }
    {
        let symbols = self.production.symbols.as_slice();
        if self.index < symbols.len() {
            let item = Item {
                production: self.production,
                index: self.index + 1,
                lookahead: self.lookahead.copy(alloc)?,
            };
            Ok(Some((&symbols[self.index], item)))
        } else {
            Ok(None)
        }
    }
}

impl<'grammar, L: Lookahead> Items<'grammar, L> {
    /// An independent copy. `OutOfMemory` if an allocation fails.
    pub fn clone(&self, alloc: Global) -> Result<Self, OutOfMemory>
        ensures copy { IfOk result (λ copy. copy.vec.items ≡ self.now.vec.items) }
    {
        let mut vec = Vec::new(alloc);
        for item in self.vec.iter() {
            vec.push(item.clone(alloc)?)?;
        }
        Ok(Items { vec })
    }
}

impl<'grammar, L: Lookahead> State<'grammar, L> {
    /// An independent copy. `OutOfMemory` if an allocation fails.
    pub fn clone(&self, alloc: Global) -> Result<Self, OutOfMemory>
        ensures copy { IfOk result (IsSameState self.now) }
    {
        Ok(State {
            index: self.index,
            items: self.items.clone(alloc)?,
            shifts: Clone::clone(&self.shifts)?,
            reductions: clone_reductions(alloc, &self.reductions)?,
            gotos: Clone::clone(&self.gotos)?,
        })
    }
}

// An independent copy of a list of reductions.
fn clone_reductions<'grammar, L: Lookahead>(
    alloc: Global,
    reductions: &[(L, &'grammar Production)],
) -> Result<Vec<(L, &'grammar Production)>, OutOfMemory>
    ensures { IfOk result (λ copy. copy.items ≡ reductions.now) }
{
    let mut copy = Vec::new(alloc);
    for (lookahead, production) in reductions {
        copy.push((lookahead.copy(alloc)?, *production))?;
    }
    Ok(copy)
}

impl<'grammar> Action<'grammar> {
    /// An independent copy. `OutOfMemory` if an allocation fails.
    pub fn clone(&self, alloc: Global) -> Result<Self, OutOfMemory>
        ensures copy { IfOk result (λ copy. copy ≡ self.now) }
    {
        match self {
            Action::Shift(terminal, target) => Ok(Action::Shift(terminal.clone(alloc)?, *target)),
            Action::Reduce(production) => Ok(Action::Reduce(*production)),
        }
    }
}

impl<'grammar, L: Lookahead> Conflict<'grammar, L> {
    /// An independent copy. `OutOfMemory` if an allocation fails.
    pub fn clone(&self, alloc: Global) -> Result<Self, OutOfMemory>
        ensures copy { IfOk result (λ copy. copy ≡ self.now) }
    {
        Ok(Conflict {
            state: self.state,
            lookahead: self.lookahead.copy(alloc)?,
            production: self.production,
            action: self.action.clone(alloc)?,
        })
    }
}
