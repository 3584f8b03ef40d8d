//! The whole JSON text.
ghost use Rattle.std.specs.Prelude.{IfOk, string_bytes};
ghost use Rattle.lalrpop_base.specs.Words.{IsWellFormed};
ghost use Rattle.table_data.specs.Conflicts.{AreShown};
ghost use Rattle.table_data.specs.Whole.{IsData};

use super::causes::shown_causes;
use super::conflicts::ShownConflict;
use super::lists::push_array;
use super::naming::naming_of;
use super::rules::push_productions;
use super::to_json::ToJson;
use super::walks::{Context, shown_conflicts};
use lalrpop_base::first::FirstSets;
use lalrpop_base::lr1_core::state::{Lr1Conflict, Lr1State};
use lalrpop_base::memory::OutOfMemory;
use lalrpop_base::repr::NonterminalString;
use lalrpop_base::repr::grammar::Grammar;
use lalrpop_traces::trace::Tracer;
use std::alloc::Global;

/// The JSON text of a grammar and its start symbol, with states and conflicts. The states are those
/// of its tables, or those with the conflicts. `OutOfMemory` if an allocation fails.
pub fn tables_json<'grammar>(
    alloc: Global,
    grammar: &'grammar Grammar,
    start: &NonterminalString,
    states: &[Lr1State<'grammar>],
    conflicts: &[Lr1Conflict<'grammar>],
) -> Result<String, OutOfMemory>
    requires well_formed { IsWellFormed grammar.now }
    ensures { IfOk result
        (λ text. IsData grammar.now start.now states.now conflicts.now (string_bytes text)) }
{
    let terminals = &grammar.terminals;
    let shown = shown_in(alloc, grammar, states, conflicts)?;
    let causes = shown_causes(alloc, grammar, states, conflicts)?;
    let naming = naming_of(alloc, terminals, states, conflicts)?;
    let mut text = String::new(alloc);
    text.push_str("{\"format\":\"lrshow\",\n\"version\":3,\n\"start\":")?;
    start.push_json(alloc, &mut text, &naming)?;
    text.push_str(",\n\"terminals\":")?;
    push_array(alloc, &mut text, ",", terminals.all(), &naming)?;
    text.push_str(",\n\"productions\":")?;
    push_productions(alloc, &mut text, grammar, &naming)?;
    text.push_str(",\n\"sets\":")?;
    push_array(alloc, &mut text, ",\n", naming.sets.as_slice(), &naming)?;
    text.push_str(",\n\"states\":")?;
    push_array(alloc, &mut text, ",\n", states, &naming)?;
    text.push_str(",\n\"conflicts\":")?;
    push_array(alloc, &mut text, ",\n", &shown, &naming)?;
    text.push_str(",\n\"causes\":")?;
    push_array(alloc, &mut text, ",\n", &causes, &naming)?;
    text.push_str("}\n")?;
    Ok(text)
}

// The conflicts with examples. If there are no conflicts, no tracer is made.
fn shown_in<'conflicts, 'grammar>(
    alloc: Global,
    grammar: &'grammar Grammar,
    states: &[Lr1State<'grammar>],
    conflicts: &'conflicts [Lr1Conflict<'grammar>],
) -> Result<Vec<ShownConflict<'conflicts, 'grammar>>, OutOfMemory>
    requires well_formed { IsWellFormed grammar.now }
    ensures { IfOk result (λ shown. AreShown states.now conflicts.now shown.items) }
{
    if conflicts.is_empty() {
        return Ok(Vec::new(alloc));
    }
    let first_sets = FirstSets::new(alloc, grammar)?;
    let tracer = Tracer::new(alloc, &first_sets, states)?;
    let context = Context {
        states,
        first_sets: &first_sets,
        terminals: &grammar.terminals,
        tracer: &tracer,
    };
    shown_conflicts(alloc, &context, conflicts)
}
