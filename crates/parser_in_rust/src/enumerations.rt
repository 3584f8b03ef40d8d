//! The enumerations of a file for Rust.
ghost use Rattle.std.specs.Prelude.{◌≡◌, ◌++◌, OnOk, string_bytes};
ghost use Rattle.std.specs.List.{flat_map};
ghost use Rattle.parser_in_rust.specs.Enumerations.{count_bits, enumeration_text, variant_lines};

use file_parts::parts::Constant;
use std::alloc::AllocError;

/// Appends an enumeration of constants.
pub(crate) fn push_enumeration(
    text: &mut String,
    comment: &str,
    name: &str,
    constants: &[Constant],
) -> Result<(), AllocError>
    ensures { OnOk result (string_bytes text.new ≡
        string_bytes text.old ++ enumeration_text comment.now name.now constants.now) }
{
    text.push_str("/// ")?;
    text.push_str(comment)?;
    text.push_str("\n#[derive(Clone, Copy, Debug, PartialEq, Eq, PartialOrd, Ord, Hash)]\n")?;
    text.push_str("#[repr(u")?;
    text.push_str(bits_of(constants.len()))?;
    text.push_str(")]\npub enum ")?;
    text.push_str(name)?;
    text.push_str(" {\n")?;
    push_variants(text, constants)?;
    text.push_str("}\n\n")?;
    Ok(())
}

// The bits of the smallest numbers of so many constants.
fn bits_of(count: usize) -> &'static str
    ensures { result.now ≡ count_bits count }
{
    if count <= 256 {
        return "8";
    }
    if count <= 65_536 {
        return "16";
    }
    "32"
}

// Appends the comments and the names of constants.
fn push_variants(text: &mut String, constants: &[Constant]) -> Result<(), AllocError>
    ensures { OnOk result (string_bytes text.new ≡
        string_bytes text.old ++ flat_map variant_lines constants.now) }
{
    for constant in constants {
        push_variant(text, constant)?;
    }
    Ok(())
}

// Appends the comment and the name of a constant.
fn push_variant(text: &mut String, constant: &Constant) -> Result<(), AllocError>
    ensures { OnOk result (string_bytes text.new ≡
        string_bytes text.old ++ variant_lines constant.now) }
{
    text.push_str("    /// ")?;
    text.push_str(&constant.comment)?;
    text.push_str("\n    ")?;
    text.push_str(&constant.name)?;
    text.push_str(",\n")?;
    Ok(())
}
