//! The comment at the top of a file.
ghost use Rattle.std.specs.Prelude.{◌≡◌, ◌++◌, OnOk, string_bytes};
ghost use Rattle.symbol_texts.specs.Heading.{about_text, heading_text};

use std::alloc::AllocError;

/// Appends the comment at the top of a file, of which each line begins with a sign. It has the start
/// symbol, the method that made the tables, the number of states, and how to use the file. An error
/// is an allocation failure.
pub fn push_heading(
    text: &mut String,
    sign: &str,
    start: &str,
    method: &str,
    states: usize,
    usage: &str,
) -> Result<(), AllocError>
    ensures { OnOk result (string_bytes text.new ≡ string_bytes text.old ++ heading_text sign.now
        start.now method.now states usage.now) }
{
    text.push_str(sign)?;
    text.push_str(" A parser by the LR(1) tables of lrshow 0.23.1. Do not edit it.\n")?;
    text.push_str(sign)?;
    text.push_str("\n")?;
    push_about(text, sign, start, method, states)?;
    text.push_str(sign)?;
    text.push_str(
        " The tables are exact: a state has an action on a terminal only if the LR(1) tables have one.\n",
    )?;
    text.push_str(sign)?;
    text.push_str(" ")?;
    text.push_str(usage)?;
    text.push_str("\n")?;
    Ok(())
}

// Appends the line on the tables.
fn push_about(
    text: &mut String,
    sign: &str,
    start: &str,
    method: &str,
    states: usize,
) -> Result<(), AllocError>
    ensures { OnOk result (string_bytes text.new ≡
        string_bytes text.old ++ about_text sign.now start.now method.now states) }
{
    text.push_str(sign)?;
    text.push_str(" Start symbol: ")?;
    text.push_str(start)?;
    text.push_str(". Method: ")?;
    text.push_str(method)?;
    write!(text, ". Conflicts: none. States: {states}.\n")?;
    Ok(())
}
