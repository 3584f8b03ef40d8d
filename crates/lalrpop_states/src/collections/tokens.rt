//! Maps from keys to lookaheads. Lookaheads that are added for one key are joined.
ghost use Rattle.std.specs.Prelude.{◌≡◌, OnOk, IfOk, Contains, Some, option_copied};
ghost use Rattle.std.specs.BTreeMap.{keys};
ghost use Rattle.lalrpop_collections.specs.Words.{AllDiffer, Bits};
ghost use Rattle.lalrpop_collections.specs.lists.Entries.{IsJoinedAt, readings};

use crate::lookahead::{Lookahead, join};
use lalrpop_collections::exact::Exact;
use lalrpop_collections::memory::OutOfMemory;
use lalrpop_grammar::lookahead::token_set::TokenSet;
use std::alloc::Global;
use std::collections::BTreeMap;

/// Adds tokens to those of a key. Returns whether the key is new or has more tokens than before;
/// `OutOfMemory` if an allocation fails.
pub fn add_tokens<K: Ord + Exact + Drop, L: Lookahead>(
    alloc: Global,
    map: &mut BTreeMap<K, L>,
    key: K,
    tokens: &L,
) -> Result<bool, OutOfMemory>
    ensures joined { IfOk result (λ changed. IsJoinedAt key (L.meaning tokens.now) changed
        (readings L.meaning map.old.entries) (readings L.meaning map.new.entries)) }
    ensures differ { OnOk result (AllDiffer (keys map.new)) }
{
    if let Some(known) = map.get_mut(&key) {
        return join(alloc, known, tokens);
    }
    map.insert(key, tokens.copy(alloc)?)?;
    Ok(true)
}

/// The set of tokens of a key, if the map has the key.
pub fn find_tokens<'map, K: Ord + Exact>(
    map: &'map BTreeMap<K, TokenSet>,
    key: &K,
) -> Option<&'map TokenSet>
    ensures found { (set : Bits) →
        option_copied result ≡ Some set →
        Contains map.now.entries (key.now, set) }
    ensures all { AllDiffer (keys map.now) →
        (set : Bits) →
        Contains map.now.entries (key.now, set) →
        option_copied result ≡ Some set }
{
    map.get(key)
}
