// Tables of grammars, and runs over bits.
//
// All tests run a parser by the functions here, which promise nothing of the run.

use grammar_text::symbols::name_of;
use lalrpop_tables::build::options::Options;
use lalrpop_tables::lr1::build_states;
use parse_nodes::error::NodeError;
use parse_nodes::parse::parse_nodes;
use parse_nodes::tree::ParseNodes;
use parse_tables::table::ParseTable;
use std::alloc::Global;
use std::test::Fail;
use table_parser::error::TableParseError;
use table_parser::events::parse_events;
use table_parser::handler::ParseHandler;
use test_fixtures::texts::grammar;

/// The table of a grammar with the start symbol `S`.
pub fn table(alloc: Global, text: &str) -> Result<ParseTable, Fail> {
    let grammar = grammar(alloc, text)?;
    let Ok(states) = build_states(alloc, &grammar, name_of(alloc, "S")?, &Options::default()) else {
        return Err(Fail::from("no tables"));
    };
    Ok(ParseTable::new(alloc, &grammar, &states)?)
}

/// Parses bits.
pub fn run<H: ParseHandler>(
    alloc: Global,
    table: &ParseTable,
    limit: usize,
    bits: &[u32],
    handler: &mut H,
) -> Result<(), TableParseError<H::Stop>> {
    parse_events(alloc, table, limit, bits.iter().copied(), handler)
}

/// The nodes of the tree of bits.
pub fn nodes(
    alloc: Global,
    table: &ParseTable,
    limit: usize,
    bits: &[u32],
) -> Result<ParseNodes, TableParseError<NodeError>> {
    parse_nodes(alloc, table, limit, bits.iter().copied())
}

/// The line of a production in the text of the grammar, counted from 0.
pub fn line_of(table: &ParseTable, production: u32) -> usize {
    match table.productions().get(production as usize) {
        Some(production) => production.action.index(),
        None => usize::MAX,
    }
}
