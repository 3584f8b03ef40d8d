//! A queue of numbers, in which each number waits at most once.
ghost use Rattle.std.specs.Prelude.{◌≡◌, ◌<◌, ◌≤◌, ◌∷◌, [], ℕ, true, length, max, IfOk, OnOk, IfSome, IfNone};
ghost use Rattle.lalrpop_collections.specs.lists.Queues.{Waiting, waiting_with, waits};

use crate::memory::OutOfMemory;
use std::alloc::Global;
use std::collections::VecDeque;
use std::marker::Model;

/// A queue of numbers below a limit, with the number that has waited longest first. The mark of a
/// number says whether the number waits.
#[derive(Drop)]
pub struct Queue {
    numbers: VecDeque<usize>,
    marks: Vec<bool>,
}

impl Model for Queue {
    ghost use Rattle.std.specs.Prelude.{length};
    ghost use Rattle.lalrpop_collections.specs.lists.Queues.{Waiting, HasWaitingMarks};

    ghost Value = { Waiting };

    ghost view = { λ q. record { limit = length q.marks.items; numbers = q.numbers.items } };

    ghost invariant = { λ q. HasWaitingMarks q.numbers.items q.marks.items };
}

impl Queue {
    /// A queue with limit 0.
    pub fn new(alloc: Global) -> Self
        ensures limit { result.limit ≡ 0 }
        ensures none { result.numbers ≡ [] }
    {
        Queue {
            numbers: VecDeque::new(alloc),
            marks: Vec::new(alloc),
        }
    }

    /// A queue in which all numbers below a limit wait.
    pub fn full(alloc: Global, limit: usize) -> Result<Self, OutOfMemory>
        ensures limit { IfOk result (λ queue. queue.limit ≡ limit) }
        ensures all { IfOk result
            (λ queue. (k : ℕ) → k < limit → waits queue.numbers k ≡ true) }
        ensures few { IfOk result (λ queue. length queue.numbers ≤ limit) }
    {
        let mut queue = Queue::new(alloc);
        queue.restart(limit)?;
        for number in 0..limit {
            queue.add(number)?;
        }
        Ok(queue)
    }

    /// Removes all numbers. If the limit is lower than `limit`, it becomes `limit`.
    pub fn restart(&mut self, limit: usize) -> Result<(), OutOfMemory>
        ensures limit { OnOk result (self.new.limit ≡ max self.old.limit limit) }
        ensures none { OnOk result (self.new.numbers ≡ []) }
    {
        self.take_all();
        if self.marks.len() < limit {
            self.marks.resize(limit, false)?;
        }
        Ok(())
    }

    fn take_all(&mut self)
        ensures limit { self.new.limit ≡ self.old.limit }
        ensures none { self.new.numbers ≡ [] }
    {
        while self.take().is_some() {}
    }

    /// Adds a number at the end of the queue, if the number does not wait yet.
    pub fn add(&mut self, number: usize) -> Result<(), OutOfMemory>
        requires { number < self.old.limit }
        ensures limit { self.new.limit ≡ self.old.limit }
        ensures added { OnOk result
            (self.new.numbers ≡ waiting_with number self.old.numbers) }
        ensures few { length self.new.numbers ≤ self.new.limit }
    {
        if self.marks[number] {
            return Ok(());
        }
        self.numbers.push_back(number)?;
        self.marks[number] = true;
        Ok(())
    }

    /// Removes the number that has waited longest, and returns it.
    pub fn take(&mut self) -> Option<usize>
        ensures limit { self.new.limit ≡ self.old.limit }
        ensures within { IfSome result (λ number. number < self.old.limit) }
        ensures first { IfSome result
            (λ number. self.old.numbers ≡ number ∷ self.new.numbers) }
        ensures none { IfNone result (self.old.numbers ≡ []) }
        ensures rest { IfNone result (self.new ≡ self.old) }
    {
        let number = self.numbers.pop_front()?;
        self.marks[number] = false;
        Some(number)
    }
}
