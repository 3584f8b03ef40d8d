// Runs while each allocation is refused in turn.

use super::asked::{Ask, expect};
use super::reports::refuse_reports;
use super::tables::{nodes, run};
use parse_nodes::error::NodeError;
use parse_tables::table::ParseTable;
use refused_growth::attempts::Attempt;
use std::alloc::Global;
use std::test::Fail;
use table_parser::error::TableParseError;
use table_parser::expected::expected_after;
use table_parser::values::{SemanticActions, ValueError, ValueStack};
use test_fixtures::growths::each_growth_refused;
use test_fixtures::texts::SUMS;

// The value of a terminal is 1, and that of a reduction is the length of its right side.
#[derive(Drop)]
struct Lengths;

impl SemanticActions for Lengths {
    type Value = usize;

    type Stop = u32;

    fn shift(&mut self, _position: usize, _bit: u32) -> Result<usize, u32> {
        Ok(1)
    }

    fn reduce(
        &mut self,
        _production: u32,
        values: &mut Vec<usize>,
        _first: usize,
        _end: usize,
    ) -> Result<usize, u32> {
        Ok(values.len())
    }
}

// The tokens that are expected.
fn expected(alloc: Global, table: &ParseTable, bits: &[u32]) -> Option<bool> {
    match expected_after(alloc, table, 100, bits) {
        Ok(tokens) => Some(tokens.contains_bit(2)),
        Err(TableParseError::Memory) => None,
        Err(_) => Some(false),
    }
}

// A run that makes values, which have no memory of their own.
fn values(alloc: Global, table: &ParseTable, bits: &[u32]) -> Option<bool> {
    let mut stack = ValueStack::new(alloc, Lengths);
    match run(alloc, table, 100, bits, &mut stack) {
        Ok(()) => Some(stack.into_value().is_some()),
        Err(TableParseError::Memory) => None,
        Err(TableParseError::Stopped(ValueError::Memory)) => None,
        Err(_) => Some(false),
    }
}

// A tree, and the children of its root.
fn tree(alloc: Global, table: &ParseTable, bits: &[u32]) -> Option<bool> {
    match nodes(alloc, table, 100, bits) {
        Ok(tree) => match tree.children(alloc, tree.root().unwrap_or(0)) {
            Ok(children) => Some(children.len() == 1),
            Err(_) => None,
        },
        Err(TableParseError::Memory) => None,
        Err(TableParseError::Stopped(NodeError::Memory)) => None,
        Err(_) => Some(false),
    }
}

// What is asked.
#[derive(Clone, Copy)]
enum Call {
    Expected,
    Values,
    Tree,
}

// A call on an input.
#[derive(Drop)]
struct Asked<'a> {
    call: Call,
    table: &'a ParseTable,
    bits: &'a [u32],
}

impl Attempt for Asked<'_> {
    fn attempt(&mut self, alloc: Global) -> Option<bool> {
        match self.call {
            Call::Expected => expected(alloc, self.table, self.bits),
            Call::Values => values(alloc, self.table, self.bits),
            Call::Tree => tree(alloc, self.table, self.bits),
        }
    }
}

/// Makes each call while its allocations are refused.
pub fn each_call(alloc: Global, table: &ParseTable, bits: &[u32]) -> Result<String, Fail> {
    for call in [Call::Expected, Call::Values, Call::Tree] {
        let mut asked = Asked { call, table, bits };
        each_growth_refused(alloc, &mut asked)?;
    }
    refuse_reports(alloc, table)?;
    Ok(String::new(alloc))
}

// The bits are those of N - ( N - N ).
#[test]
fn calls_report_allocation_failures(rt: HostRuntime) -> Result<(), Fail> {
    let bits: &[u32] = &[3, 2, 0, 3, 2, 3, 1];
    expect(rt.alloc(), Ask::EachCall, &[(SUMS, bits, "")])
}
