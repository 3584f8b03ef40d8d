//! The name that may be meant by one without a production.
ghost use Rattle.std.specs.Prelude.{◌≡◌, ◌<◌, ◌^◌, ◌&&◌, IfOk, nat_lt, option_copied};
ghost use Rattle.lalrpop_grammar.specs.grammars.WellFormed.{IsWellFormed};
ghost use Rattle.grammar_diagnostics.specs.Nearest.{IsNearestResult, name_distance, name_reach, near_view, nearer_of, nearest_name, suggested};
ghost use Rattle.grammar_diagnostics.specs.Warnings.{is_defined, warning_view};

use crate::tests::is_defined;
use crate::warnings::Warning;
use lalrpop_collections::memory::OutOfMemory;
use lalrpop_grammar::repr::NonterminalString;
use lalrpop_grammar::repr::grammar::{Grammar, NonterminalData};
use std::alloc::Global;
use strsim::levenshtein;

// A name so far, and the distance that a nearer one is below.
#[derive(Clone, Copy)]
pub(crate) struct Near<'grammar> {
    pub(crate) limit: usize,
    pub(crate) name: Option<&'grammar NonterminalString>,
}

/// The name with a production that is nearest to another by the edits from one to the other, and
/// the first of several. `None` if each has more edits than a third of the bytes of the name and one
/// more. For example, there is none for a name of one byte. `OutOfMemory` if an allocation fails.
pub fn nearest_name<'grammar>(
    alloc: Global,
    grammar: &'grammar Grammar,
    name: &NonterminalString,
) -> Result<Option<&'grammar NonterminalString>, OutOfMemory>
    requires { IsWellFormed grammar.now }
    ensures nearest { IfOk result
        (λ near. IsNearestResult grammar.now name.now (option_copied near)) }
    ensures first { IfOk result (λ near. option_copied near ≡ nearest_name grammar.now name.now) }
{
    let near = first_nearest(alloc, grammar, name)?;
    Ok(near)
}

// The first of the nearest names with a production.
fn first_nearest<'grammar>(
    alloc: Global,
    grammar: &'grammar Grammar,
    name: &NonterminalString,
) -> Result<Option<&'grammar NonterminalString>, OutOfMemory>
    ensures { IfOk result (λ near. option_copied near ≡ nearest_name grammar.now name.now) }
{
    let mut near = Near {
        limit: reach(name) + 1,
        name: None,
    };
    for (other, entry) in grammar.nonterminals.iter() {
        near = nearer(alloc, name, near, other, entry)?;
    }
    Ok(near.name)
}

// The greatest distance of a name that may be meant by another.
fn reach(name: &NonterminalString) -> usize
    ensures value { result ≡ name_reach name.now }
    ensures small { result < 2 ^ 63 }
{
    (name.text.as_str().len() + 1) / 3
}

// The name of an entry, if it has a production and is nearer than what was found before.
fn nearer<'grammar>(
    alloc: Global,
    name: &NonterminalString,
    near: Near<'grammar>,
    other: &'grammar NonterminalString,
    entry: &NonterminalData,
) -> Result<Near<'grammar>, OutOfMemory>
    ensures { IfOk result (λ found. near_view found
        ≡ nearer_of name.now (near_view near.entry) (other.now, entry.now)) }
{
    let distance = distance(alloc, name, other)?;
    if is_nearer(entry, distance, near.limit) {
        return Ok(Near {
            limit: distance,
            name: Some(other),
        });
    }
    Ok(near)
}

// Whether an entry has a production and a distance is below a limit.
fn is_nearer(entry: &NonterminalData, distance: usize, limit: usize) -> bool
    ensures { result ≡ (is_defined entry.now && nat_lt distance limit) }
{
    is_defined(entry) && distance < limit
}

// The distance of two names.
fn distance(
    alloc: Global,
    name: &NonterminalString,
    other: &NonterminalString,
) -> Result<usize, OutOfMemory>
    ensures { IfOk result (λ edits. edits ≡ name_distance name.now other.now) }
{
    let edits = levenshtein(alloc, name.text.as_str(), other.text.as_str())?;
    Ok(edits)
}

/// The name that may be meant by that of a warning: the nearest to an undefined one, or to a start
/// symbol without a production. `None` for other warnings. `OutOfMemory` if an allocation fails.
pub fn suggestion<'grammar>(
    alloc: Global,
    grammar: &'grammar Grammar,
    start: &NonterminalString,
    warning: &Warning<'_>,
) -> Result<Option<&'grammar NonterminalString>, OutOfMemory>
    ensures { IfOk result
        (λ near. option_copied near ≡ suggested grammar.now start.now (warning_view warning.now)) }
{
    match warning {
        Warning::Undefined(name, _) => first_nearest(alloc, grammar, name),
        Warning::Unreachable(_, _) => Ok(None),
        Warning::Unproductive(_, _) => Ok(None),
        Warning::Cyclic(_, _) => Ok(None),
        Warning::NothingToInline(_, _) => Ok(None),
        Warning::NeverInlined(_, _) => Ok(None),
        Warning::Repeated(_, _) => Ok(None),
        Warning::NoStart => first_nearest(alloc, grammar, start),
        Warning::StartUsed(_) => Ok(None),
    }
}
