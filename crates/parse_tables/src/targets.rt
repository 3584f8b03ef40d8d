//! The targets of shifts and gotos, as numbers in a row.
ghost use Rattle.std.specs.Prelude.{◌≡◌, ◌≢◌, ◌+◌, ◌≤◌, ℕ, OnOk, IfOk, Some, length, option_map, slice_get, slice_index};
ghost use Rattle.std.specs.BTreeMap.{get};
ghost use Rattle.lalrpop_base.specs.Words.{number_of};
ghost use Rattle.parse_tables.specs.Codes.{target_code};

use crate::cells::number_of;
use crate::error::ParseTableError;
use lalrpop_base::lr1_core::state::StateIndex;
use std::collections::BTreeMap;

/// Puts the target of each name, after a base, at the number of the name in a row of zeros. The
/// error is `TooLarge`.
pub(crate) fn put_targets<K: Ord>(
    names: &[K],
    targets: &BTreeMap<K, StateIndex>,
    base: usize,
    row: &mut Vec<u32>,
) -> Result<(), ParseTableError>
    requires zeros { (n : ℕ) → slice_index row.old.items n ≡ 0 }
    requires long { length names.now ≤ length row.old.items }
    ensures put { OnOk result ((n : ℕ) (x : K) → slice_get names.now n ≡ Some x → slice_index
        row.new.items n ≡ target_code base (option_map number_of (get K.cmp targets.now x))) }
    ensures others { (n : ℕ) → length names.now ≤ n → slice_index row.new.items n ≡ 0 }
    ensures len { length row.new.items ≡ length row.old.items }
{
    if targets.is_empty() {
        return Ok(());
    }
    for (place, name) in names.iter().enumerate() {
        if let Some(target) = targets.get(name) {
            row[place] = code_of(base, target.0)?;
        }
    }
    Ok(())
}

// The number of a target after a base. The error is `TooLarge`.
fn code_of(base: usize, target: usize) -> Result<u32, ParseTableError>
    ensures { IfOk result (λ code. code ≡ base + target) }
{
    match base.checked_add(target) {
        Some(code) => number_of(code),
        None => Err(ParseTableError::TooLarge),
    }
}
