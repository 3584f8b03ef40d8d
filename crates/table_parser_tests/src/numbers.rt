// Tables as numbers: tables that come back, and the parse table of numbers while each allocation is
// refused in turn.

use grammar_text::symbols::name_of;
use lalrpop_base::repr::grammar::Grammar;
use lalrpop_tables::build::options::Options;
use lalrpop_tables::lr1::build_states;
use parse_tables::error::ParseTableError;
use parse_tables::table::TableAction;
use refused_growth::attempts::Attempt;
use std::alloc::Global;
use std::test::Fail;
use table_numbers::error::NumbersError;
use table_numbers::numbers::{read, write};
use table_numbers::parse_table::{ReadTableError, read_table};
use test_fixtures::growths::each_growth_refused;
use test_fixtures::texts::{CROSSED, ONE, SUMS, grammar};

// The numbers of the tables of a text.
fn numbers_of(alloc: Global, text: &str) -> Result<Vec<u32>, Fail> {
    let grammar = grammar(alloc, text)?;
    let Ok(states) = build_states(alloc, &grammar, name_of(alloc, "S")?, &Options::default()) else {
        return Err(Fail::from("no tables"));
    };
    Ok(write(alloc, &grammar, &states)?)
}

// Whether the numbers of the states that are read are the numbers again.
fn comes_back(alloc: Global, text: &str) -> Result<bool, Fail> {
    let numbers = numbers_of(alloc, text)?;
    let grammar = grammar(alloc, text)?;
    let states = read(alloc, &grammar, &numbers)?;
    let again = write(alloc, &grammar, &states)?;
    Ok(again.as_slice() == numbers.as_slice())
}

// The grammar of the example of `docs/FORMATS.md`, and its numbers, worked out by hand.
const TEXT: &str = "S = A\nA = \"x\"";

const NUMBERS: [u32; 35] = [
    1280454996, 1, 0, 1, 2, 2, 1, 3, 16, 18, 25, 30, 0, 1, 1, 1, 1, 1, 1, 0, 2, 1, 0, 1, 0, 0, 0,
    1, 1, 0, 0, 0, 1, 0, 0,
];

// A call that makes the parse table of numbers. It reads states, and makes their table.
#[derive(Drop)]
struct ReadTable<'g> {
    grammar: &'g Grammar,
}

impl Attempt for ReadTable<'_> {
    fn attempt(&mut self, alloc: Global) -> Option<bool> {
        match read_table(alloc, self.grammar, &NUMBERS) {
            Ok(table) => Some(table.action(0, 0) == TableAction::Shift(2)),
            Err(ReadTableError::Numbers(NumbersError::Memory)) => None,
            Err(ReadTableError::Table(ParseTableError::Memory)) => None,
            Err(_) => Some(false),
        }
    }
}

// Makes the parse table while its allocations are refused.
fn refuse_table(alloc: Global) -> Result<(), Fail> {
    let grammar = grammar(alloc, TEXT)?;
    let mut table = ReadTable { grammar: &grammar };
    each_growth_refused(alloc, &mut table)
}

#[test]
fn numbers_are_read(rt: HostRuntime) -> Result<(), Fail> {
    let alloc = rt.alloc();
    for text in [ONE, SUMS, CROSSED] {
        assert!(rt; comes_back(alloc, text)?);
    }
    refuse_table(alloc)
}
