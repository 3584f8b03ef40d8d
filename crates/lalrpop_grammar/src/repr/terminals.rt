//! The terminals of a grammar, in the order of their bits.
ghost use Rattle.std.specs.Prelude.{◌≡◌, ◌+◌, ◌<◌, ◌^◌, List, length, IfOk, IfSome, IfErr, IsNone, Contains, ℕ, slice_get, Some};
ghost use Rattle.lalrpop_collections.specs.lists.Places.{AllDiffer};
ghost use Rattle.lalrpop_grammar.specs.grammars.Refusals.{IsFirstRepeatedTerminal};
ghost use Rattle.lalrpop_grammar.specs.grammars.TerminalPlaces.{IsIndexed};
ghost use Rattle.lalrpop_grammar.specs.declared.repr.terminals.TerminalSetError.TheVariants.{Memory};

use super::TerminalString;
use lalrpop_collections::memory::OutOfMemory;
use std::alloc::Global;
use std::collections::BTreeMap;
use std::marker::Model;
use thiserror::Error;

/// A list of terminals that all differ. The bit of a terminal is its place in the list.
#[derive(Debug, Drop)]
pub struct TerminalSet {
    all: Vec<TerminalString>,
    places: BTreeMap<TerminalString, usize>,
}

impl Model for TerminalSet {
    ghost use Rattle.std.specs.Prelude.{List, length};
    ghost use Rattle.lalrpop_grammar.specs.declared.repr.TerminalString.{TerminalString};
    ghost use Rattle.lalrpop_grammar.specs.grammars.TerminalPlaces.{AreTerminalPlaces};

    ghost Value = { List TerminalString };

    ghost view = { λ s. s.all.items };

    ghost invariant = { λ s. AreTerminalPlaces s.all.items s.places };
}

/// Why a list of terminals makes no set. `Repeated` has the first terminal that is also at an
/// earlier place.
#[derive(Debug, Drop, PartialEq, Eq, Error)]
pub enum TerminalSetError {
    #[error("a terminal is repeated: {0}")]
    Repeated(TerminalString),
    #[error("out of memory")]
    Memory,
}

impl From<OutOfMemory> for TerminalSetError {
    ghost from_gives = { λ _ e. e ≡ Memory };

    fn from(_error: OutOfMemory) -> TerminalSetError {
        TerminalSetError::Memory
    }
}

impl TerminalSetError {
    /// A copy of the error.
    pub fn clone(&self, alloc: Global) -> Result<Self, OutOfMemory>
        ensures { IfOk result (λ copy. copy ≡ self.now) }
    {
        match self {
            TerminalSetError::Repeated(terminal) => {
                Ok(TerminalSetError::Repeated(terminal.clone(alloc)?))
            }
            TerminalSetError::Memory => Ok(TerminalSetError::Memory),
        }
    }
}

impl TerminalSet {
    /// The set of the terminals of a list, in its order. Returns `Repeated` if a terminal is in the
    /// list twice, and `Memory` if an allocation fails.
    pub fn new(alloc: Global, mut terminals: Vec<TerminalString>) -> Result<Self, TerminalSetError>
        ensures made { IfOk result (λ set. set ≡ terminals.items) }
        ensures distinct { IfOk result (λ set. AllDiffer set) }
        ensures refused { IfErr result (IsFirstRepeatedTerminal terminals.items) }
    {
        match place_all(alloc, &terminals)? {
            Indexed::Places(places) => Ok(TerminalSet {
                all: terminals,
                places,
            }),
            Indexed::Repeat(place) => {
                Err(TerminalSetError::Repeated(terminals.swap_remove(place)))
            }
        }
    }

    /// A copy of the set.
    pub fn clone(&self, alloc: Global) -> Result<Self, OutOfMemory>
        ensures { IfOk result (λ copy. copy ≡ self.now) }
    {
        let all = clone_terminals(alloc, self.all())?;
        match place_all(alloc, &all)? {
            Indexed::Places(places) => Ok(TerminalSet { all, places }),
            Indexed::Repeat(_) => unreachable!(),
        }
    }

    /// All terminals, in the order of their bits.
    pub fn all(&self) -> &[TerminalString]
        ensures value { result.now ≡ self.now }
        ensures distinct { AllDiffer self.now }
        ensures small { length self.now + 2 < 2 ^ 64 }
    {
        &self.all
    }

    /// The bit of a terminal, which is its place in the list of all. Returns `None` if the terminal
    /// is unknown.
    pub fn bit(&self, terminal: &TerminalString) -> Option<usize>
        ensures found { IfSome result (λ bit. slice_get self.now bit ≡ Some terminal.now) }
        ensures only { (bit : ℕ) → slice_get self.now bit ≡ Some terminal.now → result ≡ Some bit }
        ensures absent { IsNone result → ¬ Contains self.now terminal.now }
    {
        self.places.get(terminal).copied()
    }
}

fn clone_terminals(
    alloc: Global,
    terminals: &[TerminalString],
) -> Result<Vec<TerminalString>, OutOfMemory>
    ensures { IfOk result (λ copy. copy.items ≡ terminals.now) }
{
    let mut copy = Vec::new(alloc);
    for terminal in terminals {
        copy.push(terminal.clone(alloc)?)?;
    }
    Ok(copy)
}

// The places of terminals that all differ, or the first place whose terminal is also at an earlier
// one.
#[derive(Drop)]
pub(crate) enum Indexed {
    Places(BTreeMap<TerminalString, usize>),
    Repeat(usize),
}

fn place_all(alloc: Global, terminals: &[TerminalString]) -> Result<Indexed, OutOfMemory>
    ensures { IfOk result (IsIndexed terminals.now) }
{
    let mut places = BTreeMap::new(alloc);
    for (place, terminal) in terminals.iter().enumerate() {
        if places.contains_key(terminal) {
            return Ok(Indexed::Repeat(place));
        }
        places.insert(terminal.clone(alloc)?, place)?;
    }
    Ok(Indexed::Places(places))
}
