//! Warnings in words.
ghost use Rattle.std.specs.Prelude.{◌≡◌, IfOk, option_map, string_bytes};
ghost use Rattle.grammar_diagnostics.specs.Messages.{doubt_text, message, name_now, usual_way_out, way_out};
ghost use Rattle.grammar_diagnostics.specs.Warnings.{warning_view};

use crate::places::line_at;
use crate::warnings::Warning;
use lalrpop_collections::memory::OutOfMemory;
use lalrpop_grammar::repr::NonterminalString;
use std::alloc::Global;

/// A warning in words: what is doubtful, and a way out. `text` is the text of the grammar, `start`
/// the start symbol, and `near` a name that may be meant, as `suggestion` returns it.
pub fn message(
    alloc: Global,
    text: &str,
    start: &NonterminalString,
    near: Option<&NonterminalString>,
    warning: &Warning<'_>,
) -> Result<String, OutOfMemory>
    ensures { IfOk result (λ words. string_bytes words
        ≡ message text.now start.now (option_map name_now near.entry) (warning_view warning.now)) }
{
    let doubt = doubt_text(alloc, text, start, warning)?;
    let hint = way_out(alloc, near, warning)?;
    Ok(format!(in alloc; "{doubt}; {hint}")?)
}

/// What is doubtful, in words. `text` is the text of the grammar, and `start` the start symbol.
pub fn doubt_text(
    alloc: Global,
    text: &str,
    start: &NonterminalString,
    warning: &Warning<'_>,
) -> Result<String, OutOfMemory>
    ensures { IfOk result (λ words. string_bytes words
        ≡ doubt_text text.now start.now (warning_view warning.now)) }
{
    match warning {
        Warning::Undefined(name, _) => Ok(format!(in alloc; "`{name}` has no production")?),
        Warning::Unreachable(name, _) => {
            Ok(format!(in alloc; "`{name}` is in no list that `{start}` derives")?)
        }
        Warning::Unproductive(name, _) => {
            Ok(format!(in alloc; "`{name}` derives no list of terminals")?)
        }
        Warning::Cyclic(name, _) => Ok(format!(in alloc; "`{name}` derives itself")?),
        Warning::NothingToInline(name, _) => {
            Ok(format!(in alloc; "`{name}` is to be inlined and has no production")?)
        }
        Warning::NeverInlined(name, _) => {
            Ok(format!(in alloc; "`{name}` is to be inlined and is on no right side")?)
        }
        Warning::Repeated(_, first) => {
            let line = line_at(text, first.span.0);
            Ok(format!(in alloc; "the right side is that of line {line}")?)
        }
        Warning::NoStart => Ok(format!(in alloc; "`{start}` has no production")?),
        Warning::StartUsed(_) => Ok(format!(in alloc; "`{start}` is on a right side")?),
    }
}

/// A way out of a warning, in words. `near` is a name that may be meant, as `suggestion` returns it.
pub fn way_out(
    alloc: Global,
    near: Option<&NonterminalString>,
    warning: &Warning<'_>,
) -> Result<String, OutOfMemory>
    ensures { IfOk result (λ words. string_bytes words
        ≡ way_out (option_map name_now near.entry) (warning_view warning.now)) }
{
    match near {
        None => Ok(String::from_str(alloc, usual_way_out(warning))?),
        Some(other) => Ok(format!(in alloc; "perhaps `{other}` is meant")?),
    }
}

// The usual way out of a warning.
fn usual_way_out(warning: &Warning<'_>) -> &'static str
    ensures { result.now ≡ usual_way_out (warning_view warning.now) }
{
    match warning {
        Warning::Undefined(_, _) => "write one, or mend the name",
        Warning::Unreachable(_, _) => "use it, or leave it out",
        Warning::Unproductive(_, _) => "write a production without it",
        Warning::Cyclic(_, _) => "leave out the production that leads back",
        Warning::NothingToInline(_, _) => "write one",
        Warning::NeverInlined(_, _) => "leave the mark out",
        Warning::Repeated(_, _) => "leave one of the two out",
        Warning::NoStart => "name another start symbol",
        Warning::StartUsed(_) => "add a start symbol that is on none",
    }
}
