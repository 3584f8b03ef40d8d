//! What is shown of a grammar.
ghost use Rattle.std.specs.Prelude.{⊤};
ghost use Rattle.lalrpop_base.specs.Words.{IsWellFormed};

use crate::request::{Request, Task};
use crate::texts::{expected_text, refused_text, tree_text};
use grammar_text::symbols::name_of;
use lalrpop_base::memory::OutOfMemory;
use lalrpop_base::repr::TerminalString;
use lalrpop_base::repr::grammar::Grammar;
use lalrpop_tables::build::{Method, Options, TablesOrCount};
use lalrpop_tables::lr1::build_states_or_count;
use parse_nodes::error::NodeError;
use parse_nodes::parse::parse_nodes;
use parse_tables::error::ParseTableError;
use parse_tables::table::ParseTable;
use program_answers::answer::Shown;
use program_answers::ask::Ask;
use program_answers::words::tokens_of;
use std::alloc::Global;
use table_parser::error::TableParseError;
use table_parser::expected::expected_after;

// The status for a fault that `lrtab` does not have.
const OTHER: u8 = 4;

impl Ask for Request<'_> {
    ghost IsShown = { λ _ _ _ _. ⊤ };

    fn shown(
        &self,
        alloc: Global,
        method: Method,
        grammar: &Grammar,
    ) -> Result<Shown, OutOfMemory> {
        let (status, text) = shown(alloc, self, method, grammar)?;
        Shown::of(alloc, status, text, String::new(alloc))
    }
}

// The exit status, and the text that a request shows of a grammar. Without tables, the text has the
// number of conflicts.
fn shown(
    alloc: Global,
    request: &Request<'_>,
    method: Method,
    grammar: &Grammar,
) -> Result<(u8, String), OutOfMemory>
    requires { IsWellFormed grammar.now }
{
    let start = name_of(alloc, request.start)?;
    let options = Options {
        method,
        ..Options::default()
    };
    match build_states_or_count(alloc, grammar, start, &options)? {
        TablesOrCount::Tables(states) => match ParseTable::new(alloc, grammar, &states) {
            Ok(table) => shown_by(alloc, request, &table),
            Err(ParseTableError::Memory) => Err(OutOfMemory),
            Err(error) => Ok((OTHER, format!(in alloc; "{error}\n")?)),
        },
        TablesOrCount::Conflicts(count) => Ok((1, format!(in alloc; "conflicts: {count}\n")?)),
    }
}

// The same by a parse table.
fn shown_by(
    alloc: Global,
    request: &Request<'_>,
    table: &ParseTable,
) -> Result<(u8, String), OutOfMemory> {
    let tokens = tokens_of(alloc, request.tokens)?;
    let bits = bits_of(alloc, table, &tokens)?;
    match request.task {
        Task::Parse => parse(alloc, table, request.limit, &tokens, &bits),
        Task::Expected => expected(alloc, table, request.limit, &tokens, &bits),
    }
}

// The bits of tokens. That of a token which is no terminal is the number of terminals.
fn bits_of(
    alloc: Global,
    table: &ParseTable,
    tokens: &[TerminalString],
) -> Result<Vec<u32>, OutOfMemory> {
    let terminals = table.terminals();
    let mut bits = Vec::new(alloc);
    for token in tokens {
        let bit = match terminals.bit(token) {
            Some(bit) => bit,
            None => terminals.all().len(),
        };
        bits.push(u32::try_from(bit).unwrap_or(u32::MAX))?;
    }
    Ok(bits)
}

// The exit status and the text of a parse of tokens.
fn parse(
    alloc: Global,
    table: &ParseTable,
    limit: usize,
    tokens: &[TerminalString],
    bits: &[u32],
) -> Result<(u8, String), OutOfMemory> {
    match parse_nodes(alloc, table, limit, bits.iter().copied()) {
        Ok(tree) => Ok((0, tree_text(alloc, table, &tree)?)),
        Err(TableParseError::Stopped(NodeError::Memory)) => Err(OutOfMemory),
        Err(error) => failure(alloc, tokens, &error),
    }
}

// The exit status and the text of the tokens that may come after tokens.
fn expected(
    alloc: Global,
    table: &ParseTable,
    limit: usize,
    tokens: &[TerminalString],
    bits: &[u32],
) -> Result<(u8, String), OutOfMemory> {
    match expected_after(alloc, table, limit, bits) {
        Ok(expected) => Ok((0, expected_text(alloc, table.terminals(), &expected)?)),
        Err(error) => failure(alloc, tokens, &error),
    }
}

// The exit status and the text of a run without a result.
fn failure<S>(
    alloc: Global,
    tokens: &[TerminalString],
    error: &TableParseError<S>,
) -> Result<(u8, String), OutOfMemory> {
    match error {
        TableParseError::Refused(refusal) => {
            Ok((1, refused_text(alloc, tokens, refusal.position)?))
        }
        TableParseError::Unknown(position, _) => Ok((1, refused_text(alloc, tokens, *position)?)),
        TableParseError::Limit => Ok((1, String::from_str(alloc, "limit\n")?)),
        TableParseError::Stopped(_) => Ok((OTHER, String::from_str(alloc, "stopped\n")?)),
        TableParseError::TooLong => Ok((OTHER, String::from_str(alloc, "too long\n")?)),
        TableParseError::Memory => Err(OutOfMemory),
    }
}
