//! A call that asks for the tables of a grammar as numbers.
ghost use Rattle.std.specs.Prelude.{◌≡◌, ℕ, List, IfOk};
ghost use Rattle.lalrpop_base.specs.Words.{IsWellFormed};
ghost use Rattle.lr1_calls.specs.Calls.{method_for};
ghost use Rattle.lr1_calls.specs.Copied.{IsCopied, filled};
ghost use Rattle.lr1_calls.specs.Tables.{AreGiven, AreNumbersFor, AreNumbersIfAny, IsOutcome, IsOutcomeFor, IsTextOf, numbers_in, status_of};

use crate::ask::method_for;
use grammar_text::grammar::read;
use grammar_text::read_error::ReadError;
use grammar_text::symbols::name_of;
use lalrpop_base::lr1_core::state::Lr1State;
use lalrpop_base::memory::OutOfMemory;
use lalrpop_base::repr::NonterminalString;
use lalrpop_base::repr::grammar::Grammar;
use lalrpop_base::repr::norm_error::NormError;
use lalrpop_construction::options::{Method, Options};
use lalrpop_inline::inline::inline;
use lalrpop_tables::build::TablesOrCount;
use lalrpop_tables::lr1::build_states_or_count;
use std::alloc::Global;
use std::str::from_utf8;
use table_numbers::error::NumbersError;
use table_numbers::numbers::{write, write_with_items};

/// What a call for tables comes to. `Fault` also stands for tables without numbers.
#[derive(Drop)]
pub(crate) enum Outcome {
    Numbers(Vec<u32>),
    Conflicts,
    Fault,
    Memory,
}

/// The tables of the grammar text `text` for the start symbol `start`, as numbers, with the items
/// of each state if `items` is `true`. As many of the numbers as fit go to `out`, and how many there
/// are to `length`. The result is the status: 0 for tables, 1 for conflicts, 2 for a fault, and 3
/// if an allocation fails. Only tables have numbers.
pub fn tables(
    alloc: Global,
    text: &[u8],
    start: &[u8],
    canonical: bool,
    items: bool,
    out: &mut [u32],
    length: &mut usize,
) -> u8
    ensures { AreGiven (method_for canonical) items text.now start.now result out.old out.new
        length.new }
{
    let outcome = outcome_of(alloc, text, start, method_for(canonical), items);
    give(&outcome, out, length)
}

// Copies the numbers of an outcome to `out`, as many as fit. `length` becomes how many there are.
// Returns the status.
fn give(outcome: &Outcome, out: &mut [u32], length: &mut usize) -> u8
    ensures status { result ≡ status_of outcome.now }
    ensures copied { IsCopied (numbers_in outcome.now) out.old out.new length.new }
{
    match outcome {
        Outcome::Numbers(numbers) => {
            *length = numbers.len();
            fill(numbers, out);
            0
        }
        Outcome::Conflicts => none(1, length),
        Outcome::Fault => none(2, length),
        Outcome::Memory => none(3, length),
    }
}

// A status without numbers.
fn none(status: u8, length: &mut usize) -> u8
    ensures status { result ≡ status }
    ensures none { length.new ≡ 0 }
{
    *length = 0;
    status
}

// Copies numbers, as many as fit.
fn fill(numbers: &[u32], out: &mut [u32])
    ensures { out.new ≡ filled numbers.now out.old }
{
    let count = numbers.len().min(out.len());
    out[..count].copy_from_slice(&numbers[..count]);
}

// The outcome for bytes.
fn outcome_of(alloc: Global, text: &[u8], start: &[u8], method: Method, items: bool) -> Outcome
    ensures { IsOutcome method items text.now start.now result }
{
    let Ok(text) = from_utf8(text) else {
        return Outcome::Fault;
    };
    let Ok(start) = from_utf8(start) else {
        return Outcome::Fault;
    };
    match outcome_of_text(alloc, text, start, method, items) {
        Ok(outcome) => outcome,
        Err(_) => Outcome::Memory,
    }
}

// The outcome for a text.
fn outcome_of_text(
    alloc: Global,
    text: &str,
    start: &str,
    method: Method,
    items: bool,
) -> Result<Outcome, OutOfMemory>
    ensures { IfOk result (IsOutcome method items text.now start.now) }
{
    match read(alloc, text) {
        Ok(grammar) => outcome_of_grammar(alloc, grammar, start, method, items),
        Err(ReadError::Line(_)) => Ok(Outcome::Fault),
        Err(ReadError::TooManyActions) => Ok(Outcome::Fault),
        Err(ReadError::Memory) => Err(OutOfMemory),
    }
}

// The outcome for the grammar of a text. The marked nonterminals of the grammar are inlined first.
fn outcome_of_grammar(
    alloc: Global,
    grammar: Grammar,
    start: &str,
    method: Method,
    items: bool,
) -> Result<Outcome, OutOfMemory>
    requires { IsWellFormed grammar }
    ensures { (text : List ℕ) →
        IsTextOf text grammar →
        IfOk result (IsOutcome method items text start.now) }
{
    let name = name_of(alloc, start)?;
    match inline(alloc, grammar) {
        Ok(inlined) => outcome_of_inlined(alloc, &inlined, name, method, items),
        Err(NormError::Cycle { span: _, name: _ }) => Ok(Outcome::Fault),
        Err(NormError::TooManyActions) => Ok(Outcome::Fault),
        Err(NormError::Memory) => Err(OutOfMemory),
    }
}

// The outcome for a grammar without marked nonterminals.
fn outcome_of_inlined(
    alloc: Global,
    grammar: &Grammar,
    start: NonterminalString,
    method: Method,
    items: bool,
) -> Result<Outcome, OutOfMemory>
    requires { IsWellFormed grammar.now }
    ensures { IfOk result (IsOutcomeFor method items start grammar.now) }
{
    if grammar.nonterminals.get(&start).is_none() {
        return Ok(Outcome::Fault);
    }
    let options = Options {
        method,
        ..Options::default()
    };
    match build_states_or_count(alloc, grammar, start, &options)? {
        TablesOrCount::Tables(states) => numbers_of(alloc, grammar, &states, items),
        TablesOrCount::Conflicts(_) => Ok(Outcome::Conflicts),
    }
}

// The outcome for tables: their numbers, if they have numbers.
fn numbers_of(
    alloc: Global,
    grammar: &Grammar,
    states: &[Lr1State<'_>],
    items: bool,
) -> Result<Outcome, OutOfMemory>
    ensures { IfOk result (AreNumbersIfAny items grammar.now states.now) }
{
    match written(alloc, grammar, states, items) {
        Ok(numbers) => Ok(Outcome::Numbers(numbers)),
        Err(NumbersError::Memory) => Err(OutOfMemory),
        Err(_) => Ok(Outcome::Fault),
    }
}

// The numbers of states, with items or without.
fn written(
    alloc: Global,
    grammar: &Grammar,
    states: &[Lr1State<'_>],
    items: bool,
) -> Result<Vec<u32>, NumbersError>
    ensures { IfOk result (λ numbers. AreNumbersFor items grammar.now numbers.items states.now) }
{
    if items {
        return write_with_items(alloc, grammar, states);
    }
    write(alloc, grammar, states)
}
