//! A text, which clauses see as the list of its bytes.
mod leading_bytes;

ghost use Rattle.std.specs.Fmt.{styled_text};
ghost use Rattle.std.specs.Prelude.{◌≡◌, ◌==◌, IfOk, List, ℕ, Some, string_bytes};
ghost use Rattle.std.specs.Coded.{coded_ℕ};
ghost use Rattle.std.proofs.Common.{rules};
ghost use Rattle.std.specs.Cmp.{partial_order_from_own_ties};
ghost use Rattle.std.specs.Cmp.Rules.{comparing, hashing};
ghost use Rattle.std.specs.Cmp.Lexicographic.{slice_cmp};
ghost use Rattle.std.specs.Ordering.{nat_cmp, as_partial_cmp};
ghost use Rattle.std.specs.Hash as fed;
ghost use lib.Pointwise.{pointwise};
ghost use Rattle.lalrpop_collections.specs.lists.LeadingBytes.{AreBytes, leading_number};

use self::leading_bytes::leading_number;
use crate::memory::OutOfMemory;
use std::alloc::Global;
use std::cmp::Ordering;
use std::fmt;
use std::hash::{Hash, Hasher};
use std::marker::Model;
use std::sync::Arc;

/// A text, whose copies share its bytes. Texts that differ in the first eight bytes are compared by
/// these bytes alone.
#[derive(Drop)]
pub struct Text {
    shared: Arc<Leading>,
}

// A string with its leading number, which is made from the first eight bytes of the string.
#[derive(Drop)]
struct Leading {
    number: u64,
    string: String,
}

impl Model for Text {
    ghost use Rattle.std.specs.Prelude.{◌≡◌, List, ℕ, string_bytes};
    ghost use Rattle.lalrpop_collections.specs.lists.LeadingBytes.{AreBytes, leading_number};

    ghost Value = { List ℕ };

    ghost view = { λ t. string_bytes t.shared.value.string };

    ghost invariant = { λ t. AreBytes (string_bytes t.shared.value.string) ×
        (t.shared.value.number ≡ leading_number (string_bytes t.shared.value.string)) };
}

impl Text {
    /// A text with the bytes of a string slice, which are copied.
    pub fn new(alloc: Global, text: &str) -> Result<Self, OutOfMemory>
        ensures { IfOk result (λ made. made ≡ text.now) }
    {
        Text::from_string(alloc, String::from_str(alloc, text)?)
    }

    /// A text with the bytes of a string, which are not copied.
    pub fn from_string(alloc: Global, string: String) -> Result<Self, OutOfMemory>
        ensures { IfOk result (λ made. made ≡ string_bytes string) }
    {
        let number = leading_number(string.as_bytes());
        Ok(Text {
            shared: Arc::new(alloc, Leading { number, string })?,
        })
    }

    /// The string of the text. Its bytes are copied only if a copy of the text shares them.
    pub fn into_string(self, alloc: Global) -> Result<String, OutOfMemory>
        ensures { IfOk result (λ string. string_bytes string ≡ self) }
    {
        match Arc::try_unwrap(self.shared) {
            Ok(leading) => Ok(leading.string),
            Err(shared) => Ok(String::from_str(alloc, shared.as_ref().string.as_str())?),
        }
    }

    /// The text as a string slice.
    pub fn as_str(&self) -> &str
        ensures { result.now ≡ self.now }
    {
        self.shared.as_ref().string.as_str()
    }

    // The first eight bytes as one number.
    fn leading_number(&self) -> u64
        ensures number { result ≡ leading_number self.now }
        ensures bytes { AreBytes self.now }
    {
        self.shared.as_ref().number
    }

    // The order of two texts with the same leading number. If neither text has more than eight
    // bytes, the order is that of their lengths.
    fn order_led(&self, other: &Text) -> Ordering
        requires same { leading_number self.now ≡ leading_number other.now }
        requires own { AreBytes self.now }
        requires others { AreBytes other.now }
        ensures { result ≡ slice_cmp nat_cmp self.now other.now }
    {
        let (own, others) = (self.as_str(), other.as_str());
        if own.len() <= 8 && others.len() <= 8 {
            return own.len().cmp(&others.len());
        }
        own.cmp(others)
    }

    /// The allocator with which the text was made.
    pub fn allocator(&self) -> Global {
        *self.shared.as_ref().string.allocator()
    }

    /// A copy, which shares the bytes. It keeps the allocator of the text.
    pub fn clone(&self, _alloc: Global) -> Result<Self, OutOfMemory>
        ensures { IfOk result (λ copy. copy ≡ self.now) }
    {
        Ok(Text {
            shared: self.shared.clone()?,
        })
    }
}

impl PartialEq for Text {
    ghost eq = { pointwise ◌==◌ };

    ghost laws = { Prim.search (comparing, rules) };

    fn eq(&self, other: &Text) -> bool {
        if self.leading_number() != other.leading_number() {
            return false;
        }
        let (own, others) = (self.as_str(), other.as_str());
        if own.len() <= 8 {
            return own.len() == others.len();
        }
        own == others
    }
}

impl Eq for Text {
    ghost laws = { Prim.search (comparing, rules) };
}

impl Ord for Text {
    ghost cmp = { slice_cmp nat_cmp };

    ghost total = { Prim.search (comparing, rules) };

    ghost matches_partial_cmp = { Prim.search (comparing, rules) };

    ghost matches_eq = { Prim.search (comparing, rules) };

    fn cmp(&self, other: &Text) -> Ordering {
        match self.leading_number().cmp(&other.leading_number()) {
            Ordering::Equal => self.order_led(other),
            unequal => unequal,
        }
    }
}

impl PartialOrd for Text {
    ghost partial_cmp = { as_partial_cmp (slice_cmp nat_cmp) };

    ghost laws = { partial_order_from_own_ties (Prim.search (comparing, rules))
        (Prim.search (comparing, rules)) };

    fn partial_cmp(&self, other: &Text) -> Option<Ordering> {
        Some(self.cmp(other))
    }
}

impl Hash for Text {
    ghost hash_input = { fed.str };

    ghost respects_eq = { Prim.search (hashing, rules) };

    fn hash<H: Hasher>(&self, state: &mut H) {
        self.as_str().hash(state);
    }
}

impl fmt::Debug for Text {
    fn fmt<W: fmt::Write>(&self, f: &mut fmt::Formatter<W>) -> fmt::Result {
        fmt::Debug::fmt(self.as_str(), f)
    }
}

impl fmt::Display for Text {
    ghost output = { λ t. Some t };

    ghost styled_output = { λ t style. Some (styled_text style t) };

    fn fmt<W: fmt::Write>(&self, f: &mut fmt::Formatter<W>) -> fmt::Result {
        fmt::Display::fmt(self.as_str(), f)
    }
}
