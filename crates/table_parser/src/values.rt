//! Values of a parse, by semantic actions.
ghost use Rattle.std.specs.Prelude.{◌≡◌, ℕ, List, [], ◌∷◌, ◌++◌, IfOk, IfSome, OnOk, ⊤};
ghost use Rattle.table_parser.specs.Values.{IsValueStep};

use crate::handler::ParseHandler;
use std::alloc::Global;
use thiserror::Error;

/// The semantic actions of a grammar: they make a value of each terminal that is shifted, and of
/// each reduction, from the values of its right side. They may stop the run.
pub trait SemanticActions {
    /// A value.
    type Value: Drop;

    /// Why a run is stopped.
    type Stop: Drop;

    // Relates the actions before a shift, its position and bit, the value, and the actions after
    // it. The default says nothing.
    ghost shifts: { Self → ℕ → ℕ → Self.Value → Self → Type 0 } = { λ _ _ _ _ _. ⊤ };

    // Relates the actions before a reduction, its production, the values of the right side, the
    // positions from which and up to which it has terminals, the value, and the actions after it.
    // The default says nothing.
    ghost reduces: { Self → ℕ → List Self.Value → ℕ → ℕ → Self.Value → Self → Type 0 } = { λ _ _ _ _ _ _ _. ⊤ };

    /// The value of the terminal with a bit, at a position of the input.
    fn shift(&mut self, position: usize, bit: u32) -> Result<Self::Value, Self::Stop>
        ensures { IfOk result (λ value. shifts self.old position bit value self.new) };

    /// The value of a reduction by the production with a number, from the values of its right side,
    /// which may be taken out of the list. It has the terminals from the position `first` up to
    /// `end`.
    fn reduce(
        &mut self,
        production: u32,
        values: &mut Vec<Self::Value>,
        first: usize,
        end: usize,
    ) -> Result<Self::Value, Self::Stop>
        ensures { IfOk result
            (λ value. reduces self.old production values.old.items first end value self.new) };
}

/// Why a run is stopped whose values are made: by the actions, or since an allocation failed.
#[derive(Debug, Drop, Error)]
pub enum ValueError<S> {
    #[error("an action stopped the run")]
    Stopped(S),
    #[error("out of memory")]
    Memory,
}

/// The values of the trees that a run has on its stack, the newest last. It takes the steps of a
/// run.
#[derive(Drop)]
pub struct ValueStack<A: SemanticActions> {
    actions: A,
    values: Vec<A::Value>,
}

impl<A: SemanticActions> ValueStack<A> {
    /// Without a value.
    pub fn new(alloc: Global, actions: A) -> Self
        ensures actions { result.actions ≡ actions }
        ensures values { result.values.items ≡ [] }
    {
        ValueStack {
            actions,
            values: Vec::new(alloc),
        }
    }

    /// The actions, with what they have collected.
    pub fn actions(&self) -> &A
        ensures { result.now ≡ self.now.actions }
    {
        &self.actions
    }

    /// The value of a whole parse, which is the only one. There is none before the parse ends.
    pub fn into_value(mut self) -> Option<A::Value>
    where
        A: Drop,
        ensures { IfSome result (λ value. self.values.items ≡ value ∷ []) }
    {
        let value = self.values.pop()?;
        if self.values.is_empty() {
            Some(value)
        } else {
            None
        }
    }
}

impl<A: SemanticActions> ParseHandler for ValueStack<A> {
    type Stop = ValueError<A::Stop>;

    ghost takes = { λ h event i.
        IsValueStep A.shifts A.reduces h.actions h.values.items event i.actions i.values.items };

    fn shift(&mut self, position: usize, bit: u32) -> Result<(), ValueError<A::Stop>> {
        match self.actions.shift(position, bit) {
            Ok(value) => push(&mut self.values, value),
            Err(stop) => Err(ValueError::Stopped(stop)),
        }
    }

    fn reduce(
        &mut self,
        production: u32,
        len: usize,
        first: usize,
        end: usize,
    ) -> Result<(), ValueError<A::Stop>> {
        let rest = self.values.len().saturating_sub(len);
        let Ok(mut right) = self.values.split_off(rest) else {
            return Err(ValueError::Memory);
        };
        match self.actions.reduce(production, &mut right, first, end) {
            Ok(value) => push(&mut self.values, value),
            Err(stop) => Err(ValueError::Stopped(stop)),
        }
    }
}

// Pushes a value.
fn push<V: Drop, S>(values: &mut Vec<V>, value: V) -> Result<(), ValueError<S>>
    ensures { OnOk result (values.new.items ≡ values.old.items ++ value ∷ []) }
{
    match values.push(value) {
        Ok(()) => Ok(()),
        Err(_) => Err(ValueError::Memory),
    }
}
