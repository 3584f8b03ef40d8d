//! Reading a grammar text.
ghost use Rattle.std.specs.Prelude.{◌≡◌, None, List, position, IfOk, OnOk, IfErr, ◌≤◌, ◌^◌, length};
ghost use Rattle.std.specs.List.Sorted.{IsStrictlySortedBy};
ghost use Rattle.lalrpop_base.specs.Words.{IsWellFormed};
ghost use Rattle.grammar_text.specs.declared.lines.PlacedLine.{PlacedLine};
ghost use Rattle.grammar_text.specs.declared.read_error.ReadError.TheVariants.{Memory};
ghost use Rattle.grammar_text.specs.Lines.{lines_of, is_fault};
ghost use Rattle.grammar_text.specs.Grammar.{StandsFor, productions_in, terminal_cmp};
ghost use Rattle.grammar_text.specs.Collected.{IsCollected};
ghost use Rattle.grammar_text.specs.Faults.{IsFaultOf};

use crate::collected::{Collected, with_line};
use crate::lines::placed_line;
use crate::read_error::ReadError;
use lalrpop_base::memory::OutOfMemory;
use lalrpop_base::repr::TerminalString;
use lalrpop_base::repr::grammar::{Algorithm, Grammar};
use lalrpop_base::repr::terminals::{TerminalSet, TerminalSetError};
use std::alloc::Global;
use std::collections::BTreeSet;

/// Reads a grammar text. It returns an error if a line is no grammar line, if there are more
/// productions than numbers of actions, or if an allocation fails.
pub fn read(alloc: Global, text: &str) -> Result<Grammar, ReadError>
    ensures ok { IfOk result (StandsFor (lines_of text.now)) }
    ensures well_formed { IfOk result IsWellFormed }
    ensures no_fault { OnOk result (position is_fault (lines_of text.now) ≡ None) }
    ensures few { OnOk result (length (productions_in (lines_of text.now)) ≤ 2 ^ 32) }
    ensures err { IfErr result (IsFaultOf (lines_of text.now)) }
{
    let collected = collected_of(alloc, text)?;
    Ok(grammar_of(alloc, collected)?)
}

// Collects what the lines of a text say. If a line is no grammar line, `collected_of` reports that
// line rather than too many actions. So it reads all lines before it returns an error of
// `with_line`.
fn collected_of(alloc: Global, text: &str) -> Result<Collected, ReadError>
    ensures ok { IfOk result (IsCollected (lines_of text.now)) }
    ensures no_fault { OnOk result (position is_fault (lines_of text.now) ≡ None) }
    ensures few { OnOk result (length (productions_in (lines_of text.now)) ≤ 2 ^ 32) }
    ensures err { IfErr result (IsFaultOf (lines_of text.now)) }
{
    let mut so_far = Ok(Collected::new(alloc));
    let mut number = 0;
    let mut at = 0;
    for line in text.split('\n') {
        number += 1;
        let placed = placed_line(alloc, line, at)?;
        if placed.is_no_grammar_line() {
            return Err(ReadError::Line(number));
        }
        so_far = with_line(alloc, so_far, placed);
        at += line.len() + 1;
    }
    so_far
}

/// The grammar of what was collected.
pub(crate) fn grammar_of(alloc: Global, collected: Collected) -> Result<Grammar, OutOfMemory>
    ensures { IfOk result (λ grammar. (lines : List PlacedLine) →
        IsCollected lines collected →
        StandsFor lines grammar) }
{
    let terminals = set_of(alloc, collected.terminals)?;
    let algorithm = Algorithm { lalr: false };
    Ok(Grammar {
        nonterminals: collected.nonterminals,
        terminals,
        action_fn_defns: collected.action_fn_defns,
        algorithm,
    })
}

// The set of terminals, numbered in ascending order.
fn set_of(alloc: Global, terminals: BTreeSet<TerminalString>) -> Result<TerminalSet, OutOfMemory>
    ensures value { IfOk result (λ set. set ≡ terminals.keys) }
    ensures ascending { IfOk result (IsStrictlySortedBy terminal_cmp) }
{
    let mut all = Vec::new(alloc);
    for terminal in terminals {
        all.push(terminal)?;
    }
    match TerminalSet::new(alloc, all) {
        Ok(set) => Ok(set),
        Err(TerminalSetError::Repeated(_)) => unreachable!(),
        Err(TerminalSetError::Memory) => Err(OutOfMemory),
    }
}
