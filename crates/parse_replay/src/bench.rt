//! Parses of made inputs by a table, so that instructions can be counted.
mod inputs;

use inputs::{Input, table_of};
use parse_nodes::builder::NodeBuilder;
use std::alloc::Global;
use std::convert::Infallible;
use table_parser::handler::{ParseHandler, Silent};
use table_parser::machine::Machine;
use table_parser::values::{SemanticActions, ValueStack};

/// Parses a made input, and says how much was made. The words are what is made (`events`, `nodes`
/// or `values`), of which language (`calculator` or `json`), and how often its terminals are
/// repeated. Without words it makes each of them, of short inputs.
pub fn bench_text(alloc: Global, words: &[String]) -> anyhow::Result<String> {
    let [what, language, count] = words else {
        let calculator = all_made(alloc, "calculator")?;
        let json = all_made(alloc, "json")?;
        return Ok(format!(in alloc; "{calculator}\n{json}\n")?);
    };
    let count = count.as_str().parse::<usize>().unwrap_or(10);
    let made = one_made(alloc, language.as_str(), what.as_str(), count)?;
    Ok(format!(in alloc; "{made}\n")?)
}

// Makes what a word says, of an input of a language.
fn one_made(alloc: Global, language: &str, what: &str, count: usize) -> anyhow::Result<String> {
    let table = table_of(alloc, language)?;
    let input = Input::of(alloc, language, &table)?;
    made(alloc, &input, what, count)
}

// Makes each thing of a short input of a language.
fn all_made(alloc: Global, language: &str) -> anyhow::Result<String> {
    let events = one_made(alloc, language, "events", 10)?;
    let nodes = one_made(alloc, language, "nodes", 10)?;
    let values = one_made(alloc, language, "values", 10)?;
    Ok(format!(in alloc; "{language}: {events}; {nodes}; {values}")?)
}

// Makes what a word says, and says how much was made.
fn made(alloc: Global, input: &Input<'_>, what: &str, count: usize) -> anyhow::Result<String> {
    match what {
        "events" => {
            let is_parsed = is_parsed(alloc, input, count, &mut Silent);
            Ok(format!(in alloc; "events, parsed: {is_parsed}")?)
        }
        "nodes" => {
            let mut builder = NodeBuilder::new(alloc);
            let is_parsed = is_parsed(alloc, input, count, &mut builder);
            let nodes = builder.nodes().len();
            Ok(format!(in alloc; "{nodes} nodes, parsed: {is_parsed}")?)
        }
        _ => {
            let mut stack = ValueStack::new(alloc, Leaves);
            let is_parsed = is_parsed(alloc, input, count, &mut stack);
            let leaves = stack.into_value().unwrap_or(0);
            Ok(format!(in alloc; "{leaves} terminals, parsed: {is_parsed}")?)
        }
    }
}

// The value of a tree is how many terminals it has.
#[derive(Drop)]
struct Leaves;

impl SemanticActions for Leaves {
    type Value = usize;

    type Stop = Infallible;

    fn shift(&mut self, _position: usize, _bit: u32) -> Result<usize, Infallible> {
        Ok(1)
    }

    fn reduce(
        &mut self,
        _production: u32,
        _values: &mut Vec<usize>,
        first: usize,
        end: usize,
    ) -> Result<usize, Infallible> {
        Ok(end.saturating_sub(first))
    }
}

// Whether the input with so many repetitions is parsed.
fn is_parsed<H: ParseHandler>(
    alloc: Global,
    input: &Input<'_>,
    count: usize,
    handler: &mut H,
) -> bool {
    let mut machine = Machine::new(alloc, input.table, usize::MAX);
    if !is_read(&mut machine, &input.first, 1, handler) {
        return false;
    }
    if !is_read(&mut machine, &input.repeated, count, handler) {
        return false;
    }
    let last = is_read(&mut machine, &input.last, 1, handler);
    last && machine.finish(handler).is_ok()
}

// Whether terminals are read, so often.
fn is_read<H: ParseHandler>(
    machine: &mut Machine<'_>,
    bits: &[u32],
    count: usize,
    handler: &mut H,
) -> bool {
    for _ in 0..count {
        for bit in bits {
            if machine.shift(*bit, handler).is_err() {
                return false;
            }
        }
    }
    true
}
