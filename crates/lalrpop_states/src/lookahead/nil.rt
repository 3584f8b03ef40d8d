//! The lookahead `Nil`, which holds no tokens.
ghost use Rattle.std.specs.Prelude.{◌≡◌, ◌++◌, refl, ⊤, map, OnOk};
ghost use Rattle.lalrpop_collections.specs.lists.Bits.{no_bits, join_self};
ghost use Rattle.lalrpop_states.specs.conflicts.NilConflicts.{nil_conflict, nil_conflicts, nil_reduce_conflicts};

use crate::lookahead::Lookahead;
use crate::lr1_core::state::{Action, Conflict, State, StateIndex};
use lalrpop_collections::collections::Collection;
use lalrpop_collections::exact::Exact;
use lalrpop_collections::memory::OutOfMemory;
use lalrpop_grammar::repr::terminals::TerminalSet;
use lalrpop_grammar::repr::{Production, TerminalString};
use std::alloc::Global;
use std::fmt;

/// The lookahead of an LR(0) item: it holds no tokens.
#[derive(Clone, Copy, Debug, PartialEq, Eq, PartialOrd, Ord, Hash)]
pub struct Nil;

impl Exact for Nil {
    ghost exact = { λ a b h. refl };
}

impl Collection for Nil {
    type Item = Nil;

    ghost same = { λ a b. b ≡ a };

    ghost is_empty = { λ _. ⊤ };

    ghost pushes = { λ _ _ _. ⊤ };

    fn empty(_alloc: Global) -> Nil {
        Nil
    }

    fn push(&mut self, _item: Nil) -> Result<bool, OutOfMemory> {
        Ok(false)
    }

    ghost same_itself = { λ _. refl };
}

impl Lookahead for Nil {
    ghost meaning = { λ _. no_bits };

    fn copy(&self, _alloc: Global) -> Result<Nil, OutOfMemory> {
        Ok(Nil)
    }

    fn fmt_as_item_suffix<W: fmt::Write>(&self, _f: &mut fmt::Formatter<W>) -> fmt::Result {
        Ok(())
    }

    ghost lists_conflicts = { λ s _ list. list ≡ nil_conflicts s };

    fn conflicts<'grammar>(
        alloc: Global,
        state: &State<'grammar, Nil>,
        _terminals: &TerminalSet,
    ) -> Result<Vec<Conflict<'grammar, Nil>>, OutOfMemory> {
        let mut list = Vec::new(alloc);
        for (terminal, target) in state.shifts.iter() {
            push_shift_conflicts(
                alloc,
                &mut list,
                state.index,
                terminal,
                *target,
                &state.reductions,
            )?;
        }
        push_reduce_conflicts(&mut list, state.index, &state.reductions)?;
        Ok(list)
    }

    ghost equal_is_same = { λ a b _. refl };

    ghost same_by_meaning = { λ a b _. refl };

    ghost reads_all = { λ a b. (λ e. e, λ e. e) };

    ghost empty_is_empty = { λ _ _. refl };

    ghost push_is_join = { λ _ _ _ _. join_self };
}

// Adds the conflicts of a shift with each reduction.
fn push_shift_conflicts<'grammar>(
    alloc: Global,
    list: &mut Vec<Conflict<'grammar, Nil>>,
    index: StateIndex,
    terminal: &TerminalString,
    target: StateIndex,
    reductions: &[(Nil, &'grammar Production)],
) -> Result<(), OutOfMemory>
    ensures { OnOk result (list.new.items ≡ list.old.items ++ map
        (nil_conflict index (Action.Shift terminal.now target)) reductions.now) }
{
    for reduction in reductions {
        list.push(Conflict {
            state: index,
            lookahead: Nil,
            production: reduction.1,
            action: Action::Shift(terminal.clone(alloc)?, target),
        })?;
    }
    Ok(())
}

// Adds the conflicts of each reduction after the first one with the first one.
fn push_reduce_conflicts<'grammar>(
    list: &mut Vec<Conflict<'grammar, Nil>>,
    index: StateIndex,
    reductions: &[(Nil, &'grammar Production)],
) -> Result<(), OutOfMemory>
    ensures { OnOk result
        (list.new.items ≡ list.old.items ++ nil_reduce_conflicts index reductions.now) }
{
    if let Some((first, others)) = reductions.split_first() {
        for reduction in others {
            list.push(Conflict {
                state: index,
                lookahead: Nil,
                production: reduction.1,
                action: Action::Reduce(first.1),
            })?;
        }
    }
    Ok(())
}
