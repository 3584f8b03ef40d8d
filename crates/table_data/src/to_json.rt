//! The trait of values that are written as JSON.
ghost use Rattle.std.specs.Prelude.{◌≡◌, ◌++◌, ◌∷◌, [], List, ℕ, IsFalse, IsTrue, OnOk, string_bytes};
ghost use Rattle.std.specs.Fmt.{decimal};
ghost use Rattle.json.specs.Print.{escape, escape_byte, quoted};
ghost use Rattle.table_data.specs.declared.naming.Naming.{Naming};

use super::naming::Naming;
use lalrpop_base::memory::OutOfMemory;
use serde_json::Value;
use std::alloc::Global;

/// A value with a JSON text that depends only on the value and the names of tokens and token sets.
pub(crate) trait ToJson {
    // The JSON text of a value, by the terminals and the token sets.
    ghost json: { Naming → Self → List ℕ };

    /// Appends the JSON text. `OutOfMemory` if an allocation fails.
    fn push_json(
        &self,
        alloc: Global,
        text: &mut String,
        naming: &Naming<'_>,
    ) -> Result<(), OutOfMemory>
        ensures { OnOk result
            (string_bytes text.new ≡ string_bytes text.old ++ json naming.now self.now) };
}

/// Appends a string of JSON, quoted and escaped.
pub fn push_quoted(alloc: Global, text: &mut String, shown: &str) -> Result<(), OutOfMemory>
    ensures { OnOk result (string_bytes text.new ≡ string_bytes text.old ++ quoted shown.now) }
{
    if is_plain(shown) {
        write!(text, "\"{shown}\"")?;
        return Ok(());
    }
    push_escaped(alloc, text, shown)
}

// Whether no byte of a text is escaped in a string of JSON.
fn is_plain(shown: &str) -> bool
    ensures { IsTrue result → escape shown.now ≡ shown.now }
{
    for byte in shown.as_bytes() {
        if is_escaped(*byte) {
            return false;
        }
    }
    true
}

// Whether a byte is escaped in a string of JSON.
fn is_escaped(byte: u8) -> bool
    ensures { IsFalse result → escape_byte byte ≡ byte ∷ [] }
{
    if byte < 32 {
        return true;
    }
    if byte == b'"' {
        return true;
    }
    byte == b'\\'
}

// Appends a string of JSON, quoted and escaped, by a value of JSON.
fn push_escaped(alloc: Global, text: &mut String, shown: &str) -> Result<(), OutOfMemory>
    ensures { OnOk result (string_bytes text.new ≡ string_bytes text.old ++ quoted shown.now) }
{
    let value = Value::try_from_str(alloc, shown)?;
    let quoted = value.to_string(alloc)?;
    text.push_str(quoted.as_str())?;
    Ok(())
}

/// Appends a label and a number.
pub fn push_number(text: &mut String, label: &str, number: usize) -> Result<(), OutOfMemory>
    ensures { OnOk result (string_bytes text.new ≡ string_bytes text.old ++ (label.now ++ decimal
        number)) }
{
    write!(text, "{label}{number}")?;
    Ok(())
}
