//! What takes the steps of a run.
ghost use Rattle.std.specs.Prelude.{OnOk, ⊤};
ghost use Rattle.table_parser.specs.Events.{Event, Reduced, Shifted};

use std::convert::Infallible;

/// What takes the steps of a run, one after the other. It may stop the run. Over canonical tables of
/// an LR(1) grammar, whose start symbol is on no right side, each step is made on a right token.
/// Over other tables reductions may be made on a token that is refused after them. If an allocation
/// fails, the handler may have taken one step more than the run has made.
pub trait ParseHandler {
    /// Why a run is stopped.
    type Stop: Drop;

    // Relates a handler before a step that it takes, the step's event, and the handler after it.
    // The default says nothing.
    ghost takes: { Self → Event → Self → Type 0 } = { λ _ _ _. ⊤ };

    /// Takes the shift of the terminal with a bit, at a position of the input.
    fn shift(&mut self, position: usize, bit: u32) -> Result<(), Self::Stop>
        ensures { OnOk result (takes self.old (Shifted position bit) self.new) };

    /// Takes a reduction by the production with a number, whose right side has so many symbols. The
    /// node has the terminals from the position `first` up to `end`.
    fn reduce(
        &mut self,
        production: u32,
        len: usize,
        first: usize,
        end: usize,
    ) -> Result<(), Self::Stop>
        ensures { OnOk result (takes self.old (Reduced production len first end) self.new) };
}

/// A handler that does nothing with a step.
#[derive(Clone, Copy, Debug, PartialEq, Eq)]
pub struct Silent;

impl ParseHandler for Silent {
    type Stop = Infallible;

    fn shift(&mut self, _position: usize, _bit: u32) -> Result<(), Infallible> {
        Ok(())
    }

    fn reduce(
        &mut self,
        _production: u32,
        _len: usize,
        _first: usize,
        _end: usize,
    ) -> Result<(), Infallible> {
        Ok(())
    }
}
