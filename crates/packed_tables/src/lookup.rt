//! The lookup of actions and gotos in packed arrays.
ghost use Rattle.std.specs.Prelude.{◌≡◌, ◌%◌, slice_index};
ghost use Rattle.packed_tables.specs.Lookup.{action_in, goto_in, has_bit, place_of, set_byte, set_place};

use crate::packed::{PackedRows, PackedTables};

impl PackedTables {
    /// The action of a state on a terminal.
    pub fn action(&self, state: u32, terminal: u32) -> u32
        ensures { result ≡ action_in self.now state terminal }
    {
        let place = self.actions.place(state, terminal);
        if number_at(&self.actions.column, place) == terminal {
            return number_at(&self.actions.cell, place);
        }
        if self.has_usual(state, terminal) {
            return number_at(&self.reduction, state as usize);
        }
        0
    }

    /// The state to which the goto of a state leads.
    pub fn goto(&self, state: u32, nonterminal: u32) -> u32
        ensures { result ≡ goto_in self.now state nonterminal }
    {
        let place = self.gotos.place(state, nonterminal);
        if number_at(&self.gotos.column, place) == nonterminal {
            return number_at(&self.gotos.cell, place);
        }
        number_at(&self.goto_usual, nonterminal as usize)
    }

    // Whether a terminal is in the set of a state.
    fn has_usual(&self, state: u32, terminal: u32) -> bool
        ensures { result ≡ has_bit (set_byte self.now state terminal) (terminal % 8) }
    {
        let place = self.set_place(state, terminal);
        (byte_at(&self.sets, place) >> (terminal % 8)) % 2 == 1
    }

    /// The place of the byte that has the bit of a terminal in the set of a state.
    #[tactic(auto, using(crate::proofs::PlaceLemmas::product_fits, crate::proofs::PlaceLemmas::place_fits))]
    pub(crate) fn set_place(&self, state: u32, terminal: u32) -> usize
        ensures { result ≡ set_place self.now state terminal }
    {
        let set = number_at(&self.set, state as usize);
        set as usize * self.set_bytes as usize + terminal as usize / 8
    }
}

impl PackedRows {
    /// The place of the cell of a column in a row.
    pub(crate) fn place(&self, row: u32, column: u32) -> usize
        ensures { result ≡ place_of self.now row column }
    {
        number_at(&self.row, row as usize) as usize + column as usize
    }
}

/// The number at a place, or 0 after the last one.
pub(crate) fn number_at(numbers: &[u32], place: usize) -> u32
    ensures { result ≡ slice_index numbers.now place }
{
    if place < numbers.len() {
        numbers[place]
    } else {
        0
    }
}

// The byte at a place, or 0 after the last one.
fn byte_at(bytes: &[u8], place: usize) -> u8
    ensures { result ≡ slice_index bytes.now place }
{
    if place < bytes.len() { bytes[place] } else { 0 }
}
