// Refusals with the expected tokens, also while each allocation is refused in turn.

use super::asked::{Ask, Case, expect};
use expecting_parser::error::ExpectingError;
use expecting_parser::names::expected_text;
use expecting_parser::nodes::parse_nodes_expecting;
use expecting_parser::parse::parse_expecting;
use parse_nodes::error::NodeError;
use parse_tables::table::ParseTable;
use refused_growth::attempts::Attempt;
use std::alloc::Global;
use std::test::Fail;
use table_parser::error::TableParseError;
use table_parser::handler::Silent;
use test_fixtures::growths::each_growth_refused;
use test_fixtures::texts::SUMS;

/// What is reported of an input in so many steps.
pub fn report(
    alloc: Global,
    table: &ParseTable,
    bits: &[u32],
    limit: usize,
) -> Result<String, Fail> {
    match parse_expecting(alloc, table, limit, bits.iter().copied(), &mut Silent) {
        Ok(()) => Ok(String::from_str(alloc, "parsed")?),
        Err(ExpectingError::Refused(refusal, Ok(tokens))) => {
            let names = expected_text(alloc, table, &tokens)?;
            Ok(format!(in alloc; "{} at {}: {names}", refusal.bit, refusal.position)?)
        }
        Err(ExpectingError::Refused(refusal, Err(error))) => {
            Ok(format!(in alloc; "{} at {}: {error}", refusal.bit, refusal.position)?)
        }
        Err(error) => Ok(format!(in alloc; "{error}")?),
    }
}

// The bits of `(`, `)`, `-` and `N` are 0 to 3, and that of the end is 4. States are merged: each
// reduces on `)` after an `N` without parentheses, too.
const REPORTS: [Case; 8] = [
    (SUMS, &[3], "parsed"),
    (SUMS, &[3, 3], "3 at 1: \"-\" or end of input"),
    (SUMS, &[3, 1], "1 at 1: \"-\" or end of input"),
    (SUMS, &[3, 2], "4 at 2: \"(\" or \"N\""),
    (SUMS, &[], "4 at 0: \"(\" or \"N\""),
    (SUMS, &[0, 3], "4 at 2: \")\" or \"-\""),
    (SUMS, &[0, 3, 2, 1, 3], "1 at 3: \"(\" or \"N\""),
    (SUMS, &[3, 7], "the token 7 at position 1 is no terminal"),
];

// Tries limits. The first `N` of `N N` is one step. Then the trial of `-` takes two reductions and a
// shift, and that of the end takes three reductions. N - N takes eight steps.
fn expect_limits(alloc: Global) -> Result<(), Fail> {
    let wrong: &[u32] = &[3, 3];
    let right: &[u32] = &[3, 2, 3];
    let known = "3 at 1: \"-\" or end of input";
    let unknown = "3 at 1: the run needs more steps than the limit allows";
    let limit = "the run needs more steps than the limit allows";
    expect(alloc, Ask::Report(4), &[(SUMS, wrong, known)])?;
    expect(alloc, Ask::Report(3), &[(SUMS, wrong, unknown)])?;
    expect(alloc, Ask::Report(8), &[(SUMS, right, "parsed")])?;
    expect(alloc, Ask::Report(7), &[(SUMS, right, limit)])
}

#[test]
fn refusals_have_the_expected_tokens(rt: HostRuntime) -> Result<(), Fail> {
    let alloc = rt.alloc();
    expect(alloc, Ask::Report(100), &REPORTS)?;
    expect_limits(alloc)
}

// A refusal of the second of two tokens, and how often it was reported without expected tokens.
#[derive(Drop)]
struct Refusal<'a> {
    table: &'a ParseTable,
    without: usize,
}

impl Attempt for Refusal<'_> {
    fn attempt(&mut self, alloc: Global) -> Option<bool> {
        match parse_expecting(alloc, self.table, 100, [3, 3].iter().copied(), &mut Silent) {
            Err(ExpectingError::Refused(refusal, Ok(tokens))) if refusal.position == 1 => {
                match expected_text(alloc, self.table, &tokens) {
                    Ok(text) => Some(text.as_str() == "\"-\" or end of input"),
                    Err(_) => None,
                }
            }
            Err(ExpectingError::Refused(refusal, Err(TableParseError::Memory)))
                if refusal.position == 1 => {
                self.without = self.without.saturating_add(1);
                None
            }
            Err(ExpectingError::Failed(TableParseError::Memory)) => None,
            _ => Some(false),
        }
    }
}

// A tree.
#[derive(Drop)]
struct Tree<'a> {
    table: &'a ParseTable,
}

impl Attempt for Tree<'_> {
    fn attempt(&mut self, alloc: Global) -> Option<bool> {
        match parse_nodes_expecting(alloc, self.table, 100, [3, 2, 3].iter().copied()) {
            Ok(tree) => Some(tree.root() == Some(7)),
            Err(ExpectingError::Failed(TableParseError::Memory)) => None,
            Err(ExpectingError::Failed(TableParseError::Stopped(NodeError::Memory))) => None,
            Err(_) => Some(false),
        }
    }
}

/// Refuses the allocations of both, by the table of sums. A refusal is reported without expected
/// tokens if these cannot be made.
pub fn refuse_reports(alloc: Global, table: &ParseTable) -> Result<(), Fail> {
    let mut refusal = Refusal { table, without: 0 };
    each_growth_refused(alloc, &mut refusal)?;
    if refusal.without == 0 {
        return Err(Fail::from("each refusal has expected tokens"));
    }
    each_growth_refused(alloc, &mut Tree { table })
}
