//! A heap in which allocations are refused.
//!
//! All memory is taken first, some of it as a room for each turn. A turn frees its room, and takes
//! it again except for the bytes that the call may have. After the call, all memory that it freed
//! is taken. So no turn depends on what the turns before it left.
use std::alloc::{AllocError, Global};

/// The number of bytes that a turn leaves more than the turn before. No allocation takes less.
pub(crate) const STEP: usize = 16;

/// The greatest number of turns. It is so small that a room is still a block of the heap itself.
pub(crate) const MOST_TURNS: usize = 8000;

// The greatest number of blocks that are taken.
const SLOTS: usize = 1 << 18;

/// The whole memory, as blocks. Each turn leaves a call `STEP` bytes more than the turn before. So
/// the call fails at the first allocation that does not fit.
#[derive(Drop)]
pub(crate) struct Refusing {
    room: usize,
    rooms: Vec<Vec<u8>>,
    taken: Vec<Vec<u8>>,
}

impl Refusing {
    /// Takes all memory, with a room for each of so many turns.
    pub(crate) fn new(alloc: Global, turns: usize) -> Result<Refusing, AllocError> {
        let room = turns.saturating_mul(STEP);
        let mut rooms = Vec::with_capacity(alloc, turns)?;
        let mut taken = Vec::with_capacity(alloc, SLOTS)?;
        for _ in 0..turns {
            rooms.push(Vec::with_capacity(alloc, room)?)?;
        }
        let mut size = 1 << 46;
        for _ in 0..35 {
            fill(alloc, &mut taken, size);
            size /= 2;
        }
        let mut refusing = Refusing { room, rooms, taken };
        refusing.disarm(alloc);
        Ok(refusing)
    }

    /// Starts a turn, counted from 0. It leaves `STEP` bytes for each turn before it.
    pub(crate) fn arm(&mut self, alloc: Global, turn: usize) {
        drop(self.rooms.pop());
        let kept = self.room.saturating_sub(turn.saturating_mul(STEP));
        if let Ok(block) = Vec::with_capacity(alloc, kept) {
            let _ = self.taken.push(block);
        }
    }

    /// Ends a turn: takes all memory that is free.
    pub(crate) fn disarm(&mut self, alloc: Global) {
        for k in 0..66 {
            fill(alloc, &mut self.taken, 1064 - 16 * k);
        }
    }
}

// Takes blocks of this size until none is left.
fn fill(alloc: Global, blocks: &mut Vec<Vec<u8>>, size: usize) {
    for _ in 0..SLOTS {
        if blocks.len() >= SLOTS {
            return;
        }
        let Ok(block) = Vec::with_capacity(alloc, size) else {
            return;
        };
        let _ = blocks.push(block);
    }
}
