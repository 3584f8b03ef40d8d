//! Items, states and conflicts without lookahead.
ghost use Rattle.std.specs.Prelude.{◌≡◌, ◌≤◌, length};

use super::item::Item;
use super::state::{Conflict, Items, State, TableConstructionError};
use crate::lookahead::nil::Nil;
use lalrpop_grammar::repr::Production;

/// The items of a state without lookahead.
pub type Lr0Items<'grammar> = Items<'grammar, Nil>;

/// A state without lookahead.
pub type Lr0State<'grammar> = State<'grammar, Nil>;

/// A conflict of a state without lookahead.
pub type Lr0Conflict<'grammar> = Conflict<'grammar, Nil>;

/// An error with states without lookahead and their conflicts.
pub type Lr0TableConstructionError<'grammar> = TableConstructionError<'grammar, Nil>;

impl<'grammar> Item<'grammar, Nil> {
    /// The item that is the production with the dot at the index.
    pub fn lr0(production: &'grammar Production, index: usize) -> Self
        requires { index ≤ length production.now.symbols }
        ensures { result ≡ record
            { production = production.now; index = index; lookahead = record {} } }
    {
        Item {
            production,
            index,
            lookahead: Nil,
        }
    }
}
