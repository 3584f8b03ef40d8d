//! The driver for Rust.

/// A run on a stack, and the parse of all terminals.
pub(crate) const DRIVER: &str =
    r##"/// What a state does on a terminal. A shift to state 0 accepts the input.
enum Action {
    Shift(usize),
    Reduce(Production),
    Refuse,
}

impl Action {
    /// The action with a number: one above the number of productions shifts.
    #[inline(always)]
    fn of(number: usize) -> Action {
        match number.checked_sub(PRODUCTIONS.len() + 1) {
            Some(state) => Action::Shift(state),
            None => Action::of_reduction(number),
        }
    }

    /// The action with another number: 0 refuses, and others reduce by the production before them.
    #[inline(always)]
    fn of_reduction(number: usize) -> Action {
        match PRODUCTIONS.get(number.wrapping_sub(1)) {
            Some(by) => Action::Reduce(*by),
            None => Action::Refuse,
        }
    }
}

/// Where the gotos of a state of the stack begin, and the position of the symbol after that state.
#[derive(Clone, Copy, Debug)]
struct Entry(usize, usize);

/// Where a run is: its state, and what is below that, which are the first `depth` entries of the
/// stack. No step is left at the position `last`, which is one less after each reduction.
#[derive(Clone, Copy, Debug)]
struct At {
    state: usize,
    depth: usize,
    position: usize,
    last: usize,
}

impl Run {
    /// Reads terminals as long as they are shifted. Returns whether the input is accepted.
    fn read<H: Handler>(
        &mut self,
        terminals: impl Iterator<Item = Terminal>,
        to: &mut H,
    ) -> Result<bool, Error<H::Stop>> {
        self.undo();
        let mut at = self.at;
        for token in terminals {
            let takes = |by, first, end| to.reduce(by, first, end);
            let target = match self.reduce_all(&mut at, token, takes) {
                Ok(Some(0)) => return Ok(true),
                Ok(Some(target)) => target,
                Ok(None) => return Err(Error::Refused(at.position, token, self.expected())),
                Err(None) => return Err(Error::Limit),
                Err(Some(reason)) => return Err(Error::Stopped(reason)),
            };
            if at.position == at.last {
                return Err(Error::Limit);
            }
            to.shift(at.position, token).map_err(Error::Stopped)?;
            let entry = Entry(gotos_of(at.state), at.position);
            match self.stack.get_mut(at.depth) {
                Some(old) => *old = entry,
                None => self.put(at.depth, entry),
            }
            self.kept.clear();
            at.state = target;
            at.depth += 1;
            at.position += 1;
            self.at = at;
        }
        Ok(false)
    }

    /// Makes the reductions on a terminal. Returns the state to which it is shifted, 0 if the input
    /// is accepted, or nothing if the terminal is refused.
    #[inline(always)]
    fn reduce_all<Stop>(
        &mut self,
        at: &mut At,
        token: Terminal,
        mut takes: impl FnMut(Production, usize, usize) -> Result<(), Stop>,
    ) -> Result<Option<usize>, Option<Stop>> {
        loop {
            let by = match action_of(at.state, token as usize) {
                Action::Shift(target) => return Ok(Some(target)),
                Action::Reduce(by) => by,
                Action::Refuse => return Ok(None),
            };
            if at.position == at.last {
                return Err(None);
            }
            at.last -= 1;
            if by.length() == 0 {
                self.put(at.depth, Entry(gotos_of(at.state), at.position));
            }
            at.depth = at.depth + 1 - by.length();
            let Entry(gotos, first) = self.stack[at.depth - 1];
            takes(by, first, at.position).map_err(Some)?;
            match goto_of(gotos, TABLES.left[by as usize] as usize) {
                Some(state) => at.state = state,
                None => return Ok(Some(0)),
            }
        }
    }

    /// Writes an entry, at most at the end of the stack. Keeps the entries of the run from that
    /// place on, the last one first.
    #[cold]
    #[inline(never)]
    fn put(&mut self, place: usize, entry: Entry) {
        for it in (place..self.at.depth - self.kept.len()).rev() {
            self.kept.push(self.stack[it]);
        }
        match self.stack.get_mut(place) {
            Some(old) => *old = entry,
            None => self.stack.push(entry),
        }
    }

    /// Writes the kept entries back, after a terminal that was not shifted.
    fn undo(&mut self) {
        while let Some(entry) = self.kept.pop() {
            self.stack[self.at.depth - self.kept.len() - 1] = entry;
        }
    }
}

/// Parses terminals, up to their end or the first `Terminal::End`.
pub fn parse<H: Handler>(
    terminals: impl IntoIterator<Item = Terminal>,
    handler: &mut H,
    limit: Option<usize>,
) -> Result<(), Error<H::Stop>> {
    let mut terminals = terminals.into_iter();
    let all = core::iter::from_fn(|| Some(terminals.next().unwrap_or(Terminal::End)));
    Run::new(limit).read(all, handler).map(|_| ())
}
"##;
