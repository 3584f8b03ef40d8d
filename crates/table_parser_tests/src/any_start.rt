// Parses by the table of an augmented grammar.
ghost use Rattle.std.specs.Prelude.{IfOk};
ghost use Rattle.table_parser_tests.specs.Premises.{ArePremisesMet};

use any_start_parser::nodes::parse_nodes_from_any;
use any_start_parser::production::only_production;
use grammar_text::symbols::name_of;
use lalrpop_base::repr::augment;
use lalrpop_tables::build::options::Options;
use lalrpop_tables::lr1::build_states;
use parse_nodes::error::NodeError;
use parse_nodes::tree::ParseNodes;
use parse_tables::table::ParseTable;
use std::alloc::Global;
use std::process::Abort;
use std::test::Fail;
use table_parser::error::TableParseError;
use test_fixtures::texts::grammar;

// The start symbol E is on right sides. The bits of `+` and `x` are 0 and 1, and that of the end
// is 2.
const SUMS: &str = "E = E \"+\" T\nE = T\nT = \"x\"";

// The bits of x + x.
const SUM: [u32; 3] = [1, 0, 1];

// The table of the augmented grammar, and the number of the production of its new start symbol.
fn augmented(alloc: Global) -> Result<(ParseTable, u32), Fail>
    ensures { IfOk result (λ r. ArePremisesMet r.0 r.1) }
{
    let Ok((grammar, start)) = augment(alloc, grammar(alloc, SUMS)?, name_of(alloc, "E")?) else {
        return Err(Fail::from("no augmented grammar"));
    };
    let Ok(states) = build_states(alloc, &grammar, start.clone(alloc)?, &Options::default()) else {
        return Err(Fail::from("no tables"));
    };
    let table = ParseTable::new(alloc, &grammar, &states)?;
    let Some(number) = only_production(&table, &start) else {
        return Err(Fail::from("no production"));
    };
    Ok((table, number))
}

// The nodes of an input, or why there are none.
fn nodes(
    alloc: Global,
    table: &ParseTable,
    number: u32,
    limit: usize,
    bits: &[u32],
) -> Result<ParseNodes, TableParseError<NodeError>> {
    parse_nodes_from_any(alloc, table, number, limit, bits.iter().copied())
}

// The nodes of x + x are x, T, E, +, x, T and E. The root is not that of the new start symbol.
fn expect_nodes(
    rt: &impl Abort,
    alloc: Global,
    table: &ParseTable,
    number: u32,
) -> Result<(), Fail> {
    let Ok(tree) = nodes(alloc, table, number, 8, &SUM) else {
        return Err(Fail::from("no tree"));
    };
    assert_eq!(rt; tree.root(), Some(6));
    let children = tree.children(alloc, 6)?;
    assert_eq!(rt; children.as_slice(), [2, 3, 5].as_slice());
    Ok(())
}

// With the reduction by the production of the new start symbol, x + x takes 8 steps. The second
// token of x x is wrong.
fn expect_refusals(
    rt: &impl Abort,
    alloc: Global,
    table: &ParseTable,
    number: u32,
) -> Result<(), Fail> {
    assert!(rt;
        matches!(
            nodes(alloc, table, number, 7, &SUM),
            Err(TableParseError::Limit)
        )
    );
    match nodes(alloc, table, number, 8, &[1, 1]) {
        Err(TableParseError::Refused(refusal)) => {
            assert_eq!(rt; (refusal.position, refusal.bit), (1, 1));
            Ok(())
        }
        _ => Err(Fail::from("a wrong input has a tree")),
    }
}

// Tries inputs.
fn expect_all(rt: &impl Abort, alloc: Global, table: &ParseTable, number: u32) -> Result<(), Fail> {
    expect_nodes(rt, alloc, table, number)?;
    expect_refusals(rt, alloc, table, number)
}

#[test]
fn results_are_those_of_the_old_grammar(rt: HostRuntime) -> Result<(), Fail> {
    let alloc = rt.alloc();
    let (table, number) = augmented(alloc)?;
    expect_all(&rt, alloc, &table, number)
}
