//! The parts of productions that a search has derived so far.
use lalrpop_base::exact::equal;
use lalrpop_base::memory::OutOfMemory;
use lalrpop_base::repr::{NonterminalString, Production, Symbol};
use std::alloc::Global;

/// A production, of which the symbols from `from` up to `to` are derived.
#[derive(Clone, Copy, PartialEq, Eq, PartialOrd, Ord)]
pub(super) struct Frame<'grammar> {
    pub(super) production: &'grammar Production,
    pub(super) from: usize,
    pub(super) to: usize,
}

impl<'grammar> Frame<'grammar> {
    /// A frame at a place, of which nothing is derived.
    pub(super) fn at(production: &'grammar Production, place: usize) -> Frame<'grammar> {
        Frame {
            production,
            from: place,
            to: place,
        }
    }

    /// The symbol before those that are derived.
    pub(super) fn before(&self) -> Option<&'grammar Symbol> {
        let production = self.production;
        if self.from == 0 {
            return None;
        }
        production.symbols.as_slice().get(self.from - 1)
    }

    /// The symbol after those that are derived.
    pub(super) fn after(&self) -> Option<&'grammar Symbol> {
        let production = self.production;
        production.symbols.as_slice().get(self.to)
    }

    /// The symbols after those that are derived.
    pub(super) fn rest(&self) -> &'grammar [Symbol] {
        let production = self.production;
        let symbols = production.symbols.as_slice();
        if self.to > symbols.len() {
            return &[];
        }
        &symbols[self.to..]
    }

    /// The frame with the symbol before derived, too.
    pub(super) fn with_before(self) -> Frame<'grammar> {
        Frame {
            production: self.production,
            from: self.from.saturating_sub(1),
            to: self.to,
        }
    }

    /// The frame with the symbol after derived, too.
    pub(super) fn with_after(self) -> Frame<'grammar> {
        Frame {
            production: self.production,
            from: self.from,
            to: self.to.saturating_add(1),
        }
    }
}

/// The frames of one derivation, the outermost first. Each frame but the first is for the symbol
/// after those that are derived of the frame around it, and begins at place 0.
pub(super) type Frames<'grammar> = Vec<Frame<'grammar>>;

/// Two derivations that have the same symbols at their leaves, and the state before them.
#[derive(Drop, PartialEq, Eq, PartialOrd, Ord)]
pub(super) struct Shape<'grammar> {
    pub(super) state: usize,
    pub(super) left: Frames<'grammar>,
    pub(super) right: Frames<'grammar>,
}

impl<'grammar> Shape<'grammar> {
    /// The number of its frames.
    pub(super) fn size(&self) -> usize {
        self.left.len().saturating_add(self.right.len())
    }

    /// A copy.
    pub(super) fn copy(&self, alloc: Global) -> Result<Shape<'grammar>, OutOfMemory> {
        Ok(Shape {
            state: self.state,
            left: Vec::from_slice(alloc, &self.left)?,
            right: Vec::from_slice(alloc, &self.right)?,
        })
    }
}

/// Whether nothing is left after the symbols of the outermost frame, and no frame is within it.
pub(super) fn is_blocked(frames: &Frames<'_>) -> bool {
    match frames.first() {
        Some(frame) => frames.len() == 1 && frame.after().is_none(),
        None => true,
    }
}

/// The symbol before the derived symbols of the outermost frame.
pub(super) fn symbol_before<'grammar>(frames: &Frames<'grammar>) -> Option<&'grammar Symbol> {
    frames.first()?.before()
}

/// The symbol after the derived symbols of the innermost frame.
pub(super) fn symbol_after<'grammar>(frames: &Frames<'grammar>) -> Option<&'grammar Symbol> {
    frames.last()?.after()
}

/// The nonterminal of the outermost frame.
pub(super) fn outermost<'grammar>(
    frames: &Frames<'grammar>,
) -> Option<&'grammar NonterminalString> {
    let production = frames.first()?.production;
    Some(&production.nonterminal)
}

/// Whether both are whole derivations from the same nonterminal.
pub(super) fn is_whole(shape: &Shape<'_>) -> bool {
    if !is_blocked(&shape.left) || !is_blocked(&shape.right) {
        return false;
    }
    if symbol_before(&shape.left).is_some() || symbol_before(&shape.right).is_some() {
        return false;
    }
    match (outermost(&shape.left), outermost(&shape.right)) {
        (Some(a), Some(b)) => equal(a, b),
        _ => false,
    }
}

/// Takes out inner frames of which all is derived, from the innermost on.
pub(super) fn close(frames: &mut Frames<'_>) {
    for _ in 0..frames.len() {
        if !closes_one(frames) {
            return;
        }
    }
}

// Takes out the innermost frame, if all of it is derived and there is one around it.
fn closes_one(frames: &mut Frames<'_>) -> bool {
    if frames.len() < 2 {
        return false;
    }
    match frames.last() {
        Some(frame) if frame.after().is_none() => (),
        _ => return false,
    }
    let _whole = frames.pop();
    move_after(frames);
    true
}

/// Derives the symbol after those of the innermost frame.
pub(super) fn move_after(frames: &mut Frames<'_>) {
    if let Some(frame) = frames.last_mut() {
        *frame = frame.with_after();
    }
}

/// Derives the symbol before those of the outermost frame.
pub(super) fn move_before(frames: &mut Frames<'_>) {
    if let Some(frame) = frames.first_mut() {
        *frame = frame.with_before();
    }
}
