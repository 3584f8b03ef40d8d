//! The arrays of a file for Rust, which are one value.
ghost use Rattle.std.specs.Prelude.{◌≡◌, ◌++◌, OnOk, string_bytes};
ghost use Rattle.std.specs.List.{flat_map};
ghost use Rattle.parser_in_rust.specs.Arrays.{array_type, array_value, tables_text};

use file_parts::bits::bits_of;
use file_parts::numbers::push_numbers;
use file_parts::parts::Array;
use std::alloc::{AllocError, Global};

/// Appends the arrays as one value.
pub(crate) fn push_tables(
    alloc: Global,
    text: &mut String,
    arrays: &[Array],
) -> Result<(), AllocError>
    ensures { OnOk result (string_bytes text.new ≡ string_bytes text.old ++ tables_text arrays.now) }
{
    text.push_str("struct Tables {\n")?;
    push_types(text, arrays)?;
    text.push_str("}\n\n#[rustfmt::skip]\nstatic TABLES: Tables = Tables {\n")?;
    push_values(alloc, text, arrays)?;
    text.push_str("};\n\n")?;
    Ok(())
}

// Appends the comments and the types of arrays.
fn push_types(text: &mut String, arrays: &[Array]) -> Result<(), AllocError>
    ensures { OnOk result (string_bytes text.new ≡
        string_bytes text.old ++ flat_map array_type arrays.now) }
{
    for array in arrays {
        push_type(text, array)?;
    }
    Ok(())
}

// Appends the comment and the type of an array.
fn push_type(text: &mut String, array: &Array) -> Result<(), AllocError>
    ensures { OnOk result (string_bytes text.new ≡ string_bytes text.old ++ array_type array.now) }
{
    text.push_str("    /// ")?;
    text.push_str(&array.comment)?;
    text.push_str("\n    ")?;
    text.push_str(&array.name)?;
    text.push_str(": [u")?;
    text.push_str(bits_of(&array.numbers))?;
    write!(text, "; {}],\n", array.numbers.len())?;
    Ok(())
}

// Appends the values of arrays.
fn push_values(alloc: Global, text: &mut String, arrays: &[Array]) -> Result<(), AllocError>
    ensures { OnOk result (string_bytes text.new ≡
        string_bytes text.old ++ flat_map array_value arrays.now) }
{
    for array in arrays {
        push_value(alloc, text, array)?;
    }
    Ok(())
}

// Appends the value of an array.
fn push_value(alloc: Global, text: &mut String, array: &Array) -> Result<(), AllocError>
    ensures { OnOk result (string_bytes text.new ≡ string_bytes text.old ++ array_value array.now) }
{
    text.push_str("    ")?;
    text.push_str(&array.name)?;
    text.push_str(": [\n")?;
    push_numbers(alloc, text, "        ", &array.numbers)?;
    text.push_str("    ],\n")?;
    Ok(())
}
