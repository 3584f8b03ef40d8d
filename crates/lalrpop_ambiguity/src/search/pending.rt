//! The shapes that a search still has to try, the cheapest first.
use super::frames::Shape;
use lalrpop_base::memory::OutOfMemory;
use lalrpop_base::repr::Production;
use std::alloc::Global;
use std::collections::BTreeMap;

/// One of the two derivations.
#[derive(Clone, Copy, Debug, PartialEq, Eq)]
pub(super) enum Side {
    Left,
    Right,
}

/// A step of a search.
#[derive(Clone, Copy)]
pub(super) enum Step<'grammar> {
    /// The search begins at a place of a production on each side.
    Begin(&'grammar Production, usize, &'grammar Production, usize),
    /// Both derivations gain the symbol before.
    Before,
    /// Both derivations gain the symbol after.
    After,
    /// One derivation becomes the child of a production, at a place of its right side.
    Around(Side, &'grammar Production, usize),
    /// The nonterminal after one derivation is expanded by a production.
    Within(Side, &'grammar Production),
}

/// A shape that waits, the step that made it, and the number of the step before that one. `cost` is
/// what it has cost so far, and `missing` what it still costs, at least.
#[derive(Drop)]
pub(super) struct Pending<'grammar> {
    pub(super) shape: Shape<'grammar>,
    pub(super) step: Step<'grammar>,
    pub(super) previous: usize,
    pub(super) cost: usize,
    pub(super) missing: usize,
}

// The order of what waits: by the least cost of a witness, then by the part of it that is missing,
// and then by the time at which it came.
#[derive(Clone, Copy, PartialEq, Eq, PartialOrd, Ord)]
struct Rank {
    least: usize,
    missing: usize,
    number: usize,
}

// The most room that the shapes of a search take. A shape takes 4, and 1 for each frame.
const MOST_ROOM: usize = 2_000_000;

// The room of a shape without its frames.
const SHAPE_ROOM: usize = 4;

/// The shapes that wait, and the room that all shapes took that ever waited.
#[derive(Drop)]
pub(super) struct Waiting<'grammar> {
    by_rank: BTreeMap<Rank, Pending<'grammar>>,
    number: usize,
    room: usize,
    is_full: bool,
}

impl<'grammar> Waiting<'grammar> {
    pub(super) fn new(alloc: Global) -> Self {
        Waiting {
            by_rank: BTreeMap::new(alloc),
            number: 0,
            room: 0,
            is_full: false,
        }
    }

    /// Adds a shape, unless there is no more room.
    pub(super) fn add(&mut self, pending: Pending<'grammar>) -> Result<(), OutOfMemory> {
        let size = pending.shape.size().saturating_add(SHAPE_ROOM);
        let room = self.room.saturating_add(size);
        if room > MOST_ROOM {
            self.is_full = true;
            return Ok(());
        }
        self.room = room;
        let rank = Rank {
            least: pending.cost.saturating_add(pending.missing),
            missing: pending.missing,
            number: self.number,
        };
        self.number = self.number.saturating_add(1);
        let _replaced = self.by_rank.insert(rank, pending)?;
        Ok(())
    }

    /// Removes a cheapest shape, of these the one that came first.
    pub(super) fn take(&mut self) -> Option<Pending<'grammar>> {
        let (_rank, pending) = self.by_rank.pop_first()?;
        Some(pending)
    }

    /// Whether no shape waits, and none was left out.
    pub(super) fn is_exhausted(&self) -> bool {
        self.by_rank.is_empty() && !self.is_full
    }
}
