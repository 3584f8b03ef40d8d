//! What takes the steps of a run below the new start symbol.
ghost use Rattle.std.specs.Prelude.{◌≡◌};
ghost use Rattle.any_start_parser.specs.Below.{TakesBelow};

use table_parser::handler::ParseHandler;

/// Passes the steps of a run on to a handler, but not a reduction by the production with a number:
/// that of the new start symbol.
#[derive(Drop)]
pub struct BelowStart<H> {
    handler: H,
    production: u32,
}

impl<H> BelowStart<H> {
    /// For a handler, and the number of the production of the new start symbol.
    pub fn new(handler: H, production: u32) -> Self
        ensures handler { result.handler ≡ handler }
        ensures production { result.production ≡ production }
    {
        BelowStart {
            handler,
            production,
        }
    }

    /// The handler, with what it has taken.
    pub fn handler(&self) -> &H
        ensures { result.now ≡ self.now.handler }
    {
        &self.handler
    }

    /// The handler alone.
    pub fn into_handler(self) -> H
        ensures { result ≡ self.handler }
    {
        self.handler
    }
}

impl<H: ParseHandler> ParseHandler for BelowStart<H> {
    type Stop = H::Stop;

    ghost takes = { TakesBelow H.takes };

    fn shift(&mut self, position: usize, bit: u32) -> Result<(), H::Stop> {
        self.handler.shift(position, bit)
    }

    fn reduce(
        &mut self,
        production: u32,
        len: usize,
        first: usize,
        end: usize,
    ) -> Result<(), H::Stop> {
        if production == self.production {
            return Ok(());
        }
        self.handler.reduce(production, len, first, end)
    }
}
