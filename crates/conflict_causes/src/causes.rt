//! The causes of conflicts.
mod extent;
pub(crate) mod key;

ghost use Rattle.std.specs.Prelude.{◌≡◌, ◌++◌, ◌∷◌, [], IfOk, OnOk};
ghost use Rattle.conflict_causes.specs.Causes.{AreCauses};
ghost use Rattle.conflict_causes.specs.Keys.{PutsConflict, PutsInto};

use key::key_of;
use lalrpop_base::kernel_set::KernelSet;
use lalrpop_base::lr1_core::item::Lr0Item;
use lalrpop_base::lr1_core::state::{Lr1Conflict, Lr1State};
use lalrpop_base::memory::OutOfMemory;
use lalrpop_base::sequence::Sequence;
use std::alloc::Global;
use std::marker::Model;

/// The conflicts that have one cause, by their numbers. The number of a conflict is its index in the
/// list of conflicts.
#[derive(Debug, Drop)]
pub struct Cause {
    conflicts: Vec<usize>,
}

impl Model for Cause {
    ghost use Rattle.std.specs.Prelude.{List, ℕ};

    ghost Value = { List ℕ };

    ghost view = { λ c. c.conflicts.items };
}

impl Cause {
    // The cause of one conflict.
    fn new(alloc: Global, conflict: usize) -> Result<Cause, OutOfMemory>
        ensures { IfOk result (λ cause. cause ≡ conflict ∷ []) }
    {
        let mut conflicts = Vec::new(alloc);
        conflicts.push(conflict)?;
        Ok(Cause { conflicts })
    }

    // Adds a conflict at the end.
    fn push(&mut self, conflict: usize) -> Result<(), OutOfMemory>
        ensures { OnOk result (self.new ≡ self.old ++ conflict ∷ []) }
    {
        self.conflicts.push(conflict)?;
        Ok(())
    }

    /// The numbers of the conflicts, in ascending order.
    pub fn conflicts(&self) -> &[usize]
        ensures { result.now ≡ self.now }
    {
        &self.conflicts
    }
}

/// The causes of conflicts, in the order of their first conflicts. Two conflicts have one cause if
/// they reduce by the same production, and their other actions have the same items, whatever the
/// lookaheads are. The error is `OutOfMemory` if an allocation fails.
pub fn causes<'grammar>(
    alloc: Global,
    states: &[Lr1State<'grammar>],
    conflicts: &[Lr1Conflict<'grammar>],
) -> Result<Vec<Cause>, OutOfMemory>
    ensures causes { IfOk result (λ causes. AreCauses states.now conflicts.now causes.items) }
{
    let mut keys = KernelSet::new(alloc);
    let mut causes = Vec::new(alloc);
    for (number, conflict) in conflicts.iter().enumerate() {
        put_conflict(alloc, states, conflict, number, &mut keys, &mut causes)?;
    }
    Ok(causes)
}

// Puts a conflict with a number into the cause that has the number of its key.
fn put_conflict<'grammar>(
    alloc: Global,
    states: &[Lr1State<'grammar>],
    conflict: &Lr1Conflict<'grammar>,
    number: usize,
    keys: &mut KernelSet<Sequence<Lr0Item<'grammar>>>,
    causes: &mut Vec<Cause>,
) -> Result<(), OutOfMemory>
    ensures { OnOk result (PutsConflict states.now conflict.now number keys.old.list keys.new.list
        causes.old.items causes.new.items) }
{
    let key = key_of(alloc, states, conflict)?;
    let cause = keys.add_state(key)?;
    put_number(alloc, causes, cause.0, number)?;
    Ok(())
}

// Puts the number of a conflict into a cause, or into a new one if there is no such cause.
fn put_number(
    alloc: Global,
    causes: &mut Vec<Cause>,
    cause: usize,
    number: usize,
) -> Result<(), OutOfMemory>
    ensures { OnOk result (PutsInto cause number causes.old.items causes.new.items) }
{
    if cause < causes.len() {
        causes[cause].push(number)?;
        return Ok(());
    }
    causes.push(Cause::new(alloc, number)?)?;
    Ok(())
}
