//! Arrays of JSON, and objects of the states to which symbols lead.
ghost use Rattle.std.specs.Prelude.{◌≡◌, ◌++◌, OnOk, codes, string_bytes};
ghost use Rattle.std.specs.List.{flat_map};
ghost use Rattle.table_data.specs.Json.{array, after_separator, separated, member, object};

use super::naming::Naming;
use super::to_json::ToJson;
use lalrpop_base::lr1_core::state::StateIndex;
use lalrpop_base::memory::OutOfMemory;
use std::alloc::Global;
use std::collections::BTreeMap;

/// Appends an array of values. The separator comes between the values: a comma, and a line end if
/// each value is on a line of its own.
pub(crate) fn push_array<T: ToJson>(
    alloc: Global,
    text: &mut String,
    separator: &str,
    values: &[T],
    naming: &Naming<'_>,
) -> Result<(), OutOfMemory>
    ensures { OnOk result (string_bytes text.new ≡ string_bytes text.old ++ array separator.now
        (T.json naming.now) values.now) }
{
    text.push_str("[")?;
    push_listed(alloc, text, separator, values, naming)?;
    text.push_str("]")?;
    Ok(())
}

// Appends values with a separator between them.
fn push_listed<T: ToJson>(
    alloc: Global,
    text: &mut String,
    separator: &str,
    values: &[T],
    naming: &Naming<'_>,
) -> Result<(), OutOfMemory>
    ensures { OnOk result (string_bytes text.new ≡ string_bytes text.old ++ separated separator.now
        (T.json naming.now) values.now) }
{
    let [first, others @ ..] = values else {
        return Ok(());
    };
    first.push_json(alloc, text, naming)?;
    push_others(alloc, text, separator, others, naming)?;
    Ok(())
}

// Appends values, each after a separator.
fn push_others<T: ToJson>(
    alloc: Global,
    text: &mut String,
    separator: &str,
    values: &[T],
    naming: &Naming<'_>,
) -> Result<(), OutOfMemory>
    ensures { OnOk result (string_bytes text.new ≡ string_bytes text.old ++ flat_map
        (after_separator separator.now (T.json naming.now)) values.now) }
{
    for value in values {
        push_other(alloc, text, separator, value, naming)?;
    }
    Ok(())
}

// Appends a value after a separator.
fn push_other<T: ToJson>(
    alloc: Global,
    text: &mut String,
    separator: &str,
    value: &T,
    naming: &Naming<'_>,
) -> Result<(), OutOfMemory>
    ensures { OnOk result (string_bytes text.new ≡
        string_bytes text.old ++ after_separator separator.now (T.json naming.now) value.now) }
{
    text.push_str(separator)?;
    value.push_json(alloc, text, naming)?;
    Ok(())
}

/// Appends an object that has, for each symbol, the state to which it leads.
pub(crate) fn push_targets<K: Ord + ToJson>(
    alloc: Global,
    text: &mut String,
    targets: &BTreeMap<K, StateIndex>,
    naming: &Naming<'_>,
) -> Result<(), OutOfMemory>
    ensures { OnOk result (string_bytes text.new ≡ string_bytes text.old ++ object
        (member (K.json naming.now)) targets.now.entries) }
{
    text.push_str("{")?;
    let mut separator = "";
    for (symbol, target) in targets.iter() {
        push_target(alloc, text, separator, symbol, *target, naming)?;
        separator = ",";
    }
    text.push_str("}")?;
    Ok(())
}

// Appends a member of such an object after a separator.
fn push_target<K: ToJson>(
    alloc: Global,
    text: &mut String,
    separator: &str,
    symbol: &K,
    target: StateIndex,
    naming: &Naming<'_>,
) -> Result<(), OutOfMemory>
    ensures { OnOk result (string_bytes text.new ≡
        string_bytes text.old ++ after_separator separator.now
        (member (K.json naming.now)) (symbol.now, target)) }
{
    text.push_str(separator)?;
    symbol.push_json(alloc, text, naming)?;
    write!(text, ":{target}")?;
    Ok(())
}
