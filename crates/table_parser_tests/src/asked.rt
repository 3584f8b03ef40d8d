// What tests ask of one table.
//
// The function `answer` alone owns a table. Each function that owns one has to prove that it drops
// each part of it, which takes half a minute of processor time.

use super::growths::each_call;
use super::nodes::parsed;
use super::reports::report;
use super::tables::table;
use parse_tables::table::ParseTable;
use std::alloc::Global;
use std::test::Fail;

/// What is asked. A report has a limit of steps.
#[derive(Clone, Copy)]
pub enum Ask {
    EachCall,
    Parsed,
    Report(usize),
}

/// The answer of the table of a grammar, whose start symbol is `S`, for bits.
pub fn answer(alloc: Global, ask: Ask, text: &str, bits: &[u32]) -> Result<String, Fail> {
    let table = table(alloc, text)?;
    answer_of(alloc, ask, &table, bits)
}

// The answer of a table for bits.
fn answer_of(alloc: Global, ask: Ask, table: &ParseTable, bits: &[u32]) -> Result<String, Fail> {
    match ask {
        Ask::EachCall => each_call(alloc, table, bits),
        Ask::Parsed => parsed(alloc, table, bits),
        Ask::Report(limit) => report(alloc, table, bits, limit),
    }
}

/// An input with the text of its grammar, and the expected answer.
pub type Case = (&'static str, &'static [u32], &'static str);

/// Fails unless each answer is the expected one.
pub fn expect(alloc: Global, ask: Ask, cases: &[(&str, &[u32], &str)]) -> Result<(), Fail> {
    for (text, bits, expected) in cases {
        let answer = answer(alloc, ask, text, bits)?;
        if answer.as_str() != *expected {
            return Err(Fail::new(format_args!("{answer} is not {expected}")));
        }
    }
    Ok(())
}
