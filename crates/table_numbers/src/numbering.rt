//! Distinct values by number.
ghost use Rattle.std.specs.Prelude.{◌≡◌, ◌++◌, ◌∷◌, [], IfSome, OnOk, Some, slice_get};

use crate::error::NumbersError;
use indexmap::IndexSet;
use lalrpop_base::exact::{Exact, equal};
use std::alloc::Global;
use std::hash::Hash;
use std::marker::Model;

/// Distinct values. The number of a value is its index in the order in which they were added.
#[derive(Drop)]
pub(crate) struct Numbering<K: Exact + Hash> {
    values: IndexSet<K>,
}

impl<K: Exact + Hash> Model for Numbering<K> {
    ghost use Rattle.std.specs.Prelude.{List};

    ghost Value = { List K };

    ghost view = { λ n. n.values.keys };
}

impl<K: Exact + Hash> Numbering<K> {
    /// Without a value.
    pub(crate) fn new(alloc: Global) -> Self
        ensures { result ≡ [] }
    {
        Numbering {
            values: IndexSet::new(alloc),
        }
    }

    /// Adds a value after the others. The errors are `Repeated`, with the number of the value, and
    /// `Memory`.
    pub(crate) fn add(&mut self, value: K) -> Result<(), NumbersError>
    where
        K: Drop,
        ensures { OnOk result (self.new ≡ self.old ++ value ∷ []) }
    {
        let (number, is_new) = self.values.insert_full(value)?;
        if !is_new {
            return Err(NumbersError::Repeated(number));
        }
        Ok(())
    }

    /// The number of a value, if it has one.
    pub(crate) fn number(&self, value: &K) -> Option<usize>
        ensures { IfSome result (λ n. slice_get self.now n ≡ Some value.now) }
    {
        let (number, found) = self.values.get_full(value)?;
        if equal(found, value) {
            Some(number)
        } else {
            None
        }
    }

    /// All values, in the order of their numbers.
    pub(crate) fn all(&self) -> &[K]
        ensures { result.now ≡ self.now }
    {
        self.values.as_slice()
    }
}
