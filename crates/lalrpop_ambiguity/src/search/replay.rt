//! The derivations that the steps of a search make.
use super::frames::Frame;
use super::pending::{Side, Step};
use crate::derivation::Derivation;
use crate::witness::Ambiguity;
use lalrpop_base::memory::OutOfMemory;
use lalrpop_base::repr::Symbol;
use std::alloc::Global;

// A frame, and the derivations of its symbols so far.
#[derive(Drop)]
struct Open<'grammar> {
    frame: Frame<'grammar>,
    children: Vec<Derivation<'grammar>>,
}

// The frames of one derivation, the outermost first.
#[derive(Drop)]
struct Growing<'grammar> {
    frames: Vec<Open<'grammar>>,
}

/// The two derivations that steps make, or `None` if they leave a derivation without a frame.
pub(super) fn replayed<'grammar>(
    alloc: Global,
    steps: &[Step<'grammar>],
) -> Result<Option<Ambiguity<'grammar>>, OutOfMemory> {
    let mut left = Growing {
        frames: Vec::new(alloc),
    };
    let mut right = Growing {
        frames: Vec::new(alloc),
    };
    for step in steps {
        replay(alloc, *step, &mut left, &mut right)?;
    }
    let Some(left) = left.derivation() else {
        return Ok(None);
    };
    let Some(right) = right.derivation() else {
        return Ok(None);
    };
    Ok(Some(Ambiguity { left, right }))
}

// Makes one step.
fn replay<'grammar>(
    alloc: Global,
    step: Step<'grammar>,
    left: &mut Growing<'grammar>,
    right: &mut Growing<'grammar>,
) -> Result<(), OutOfMemory> {
    match step {
        Step::Begin(production, place, other, other_place) => {
            left.put_around(alloc, Frame::at(production, place))?;
            right.put_around(alloc, Frame::at(other, other_place))
        }
        Step::Before => {
            left.gain_before(alloc)?;
            right.gain_before(alloc)
        }
        Step::After => {
            left.gain_after(alloc)?;
            right.gain_after(alloc)
        }
        Step::Around(Side::Left, production, place) => {
            left.put_around(alloc, Frame::at(production, place))
        }
        Step::Around(Side::Right, production, place) => {
            right.put_around(alloc, Frame::at(production, place))
        }
        Step::Within(Side::Left, production) => left.put_within(alloc, Frame::at(production, 0)),
        Step::Within(Side::Right, production) => right.put_within(alloc, Frame::at(production, 0)),
    }
}

impl<'grammar> Growing<'grammar> {
    fn put_around(&mut self, alloc: Global, frame: Frame<'grammar>) -> Result<(), OutOfMemory> {
        let children = Vec::new(alloc);
        self.frames.insert(0, Open { frame, children })?;
        self.close()
    }

    fn put_within(&mut self, alloc: Global, frame: Frame<'grammar>) -> Result<(), OutOfMemory> {
        let children = Vec::new(alloc);
        self.frames.push(Open { frame, children })?;
        self.close()
    }

    fn gain_before(&mut self, alloc: Global) -> Result<(), OutOfMemory> {
        let Some(open) = self.frames.first_mut() else {
            return Ok(());
        };
        let Some(symbol) = open.frame.before() else {
            return Ok(());
        };
        open.children.insert(0, leaf(alloc, symbol)?)?;
        open.frame = open.frame.with_before();
        Ok(())
    }

    fn gain_after(&mut self, alloc: Global) -> Result<(), OutOfMemory> {
        let Some(open) = self.frames.last_mut() else {
            return Ok(());
        };
        let Some(symbol) = open.frame.after() else {
            return Ok(());
        };
        open.children.push(leaf(alloc, symbol)?)?;
        open.frame = open.frame.with_after();
        self.close()
    }

    // Makes inner frames of which all is derived children of those around them.
    fn close(&mut self) -> Result<(), OutOfMemory> {
        for _ in 0..self.frames.len() {
            if !self.closes_one()? {
                return Ok(());
            }
        }
        Ok(())
    }

    fn closes_one(&mut self) -> Result<bool, OutOfMemory> {
        if self.frames.len() < 2 {
            return Ok(false);
        }
        match self.frames.last() {
            Some(open) if open.frame.after().is_none() => (),
            _ => return Ok(false),
        }
        let Some(whole) = self.frames.pop() else {
            return Ok(false);
        };
        let child = Derivation::Node(whole.frame.production, whole.children);
        if let Some(open) = self.frames.last_mut() {
            open.children.push(child)?;
            open.frame = open.frame.with_after();
        }
        Ok(true)
    }

    // The derivation of the outermost frame.
    fn derivation(mut self) -> Option<Derivation<'grammar>> {
        let open = self.frames.pop()?;
        Some(Derivation::Node(open.frame.production, open.children))
    }
}

fn leaf<'grammar>(alloc: Global, symbol: &Symbol) -> Result<Derivation<'grammar>, OutOfMemory> {
    Ok(Derivation::Leaf(symbol.clone(alloc)?))
}
