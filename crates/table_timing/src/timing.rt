//! The time of each part of making the tables of a grammar.
mod parts;

ghost use Rattle.lalrpop_base.specs.Words.{IsWellFormed};

use grammar_text::grammar::read;
use grammar_text::read_error::ReadError;
use grammar_text::symbols::{is_a_name, name_of};
use lalrpop_base::memory::OutOfMemory;
use lalrpop_base::repr::NonterminalString;
use lalrpop_base::repr::grammar::Grammar;
use lalrpop_base::repr::norm_error::NormError;
use lalrpop_lr1::inline::inline;
use parts::{time_canonical, time_first, time_lanes, time_lr0};
use std::{fs, io};

/// Prints the time of each part for a file and a start symbol, and returns the exit status: 2 if
/// the file gives no grammar. `None` if the start symbol is no name.
pub fn time_file(rt: &HostRuntime, name: &str, start: &str) -> anyhow::Result<Option<u8>> {
    if !is_a_name(start) {
        return Ok(None);
    }
    let Ok(text) = fs::read_to_string(rt, name) else {
        eprintln!(rt; "{name}: cannot be read")?;
        return Ok(Some(2));
    };
    let start = name_of(rt.alloc(), start)?;
    match read(rt.alloc(), text.as_str()) {
        Ok(grammar) => Ok(Some(time_read(rt, name, grammar, &start)?)),
        Err(ReadError::Line(number)) => {
            eprintln!(rt; "{name}, line {number}: not a grammar line")?;
            Ok(Some(2))
        }
        Err(ReadError::TooManyActions) => Ok(Some(too_many_actions(rt, name)?)),
        Err(ReadError::Memory) => Err(OutOfMemory.into()),
    }
}

// Prints that no number is left for an action, and returns the exit status 2.
fn too_many_actions(rt: &HostRuntime, name: &str) -> io::Result<u8> {
    eprintln!(rt; "{name}: too many actions")?;
    Ok(2)
}

// Times the parts for a grammar. Its marked nonterminals are inlined first.
fn time_read(
    rt: &HostRuntime,
    name: &str,
    grammar: Grammar,
    start: &NonterminalString,
) -> anyhow::Result<u8>
    requires { IsWellFormed grammar }
{
    match inline(rt.alloc(), grammar) {
        Ok(inlined) => time_parts(rt, &inlined, start),
        Err(
            NormError::Cycle {
                span: _,
                name: cycle,
            },
        ) => {
            eprintln!(rt; "{name}: cyclic inline of {cycle}")?;
            Ok(2)
        }
        Err(NormError::TooManyActions) => Ok(too_many_actions(rt, name)?),
        Err(NormError::Memory) => Err(OutOfMemory.into()),
    }
}

// Times the parts, one after the other.
fn time_parts(rt: &HostRuntime, grammar: &Grammar, start: &NonterminalString) -> anyhow::Result<u8>
    requires { IsWellFormed grammar.now }
{
    time_first(rt, grammar)?;
    time_lr0(rt, grammar, start)?;
    time_lanes(rt, grammar, start)?;
    time_canonical(rt, grammar, start)?;
    Ok(0)
}
