//! The nodes of a graph. Each is a state.
ghost use Rattle.std.specs.Prelude.{◌≡◌, ◌++◌, OnOk, string_bytes};
ghost use Rattle.std.specs.List.{flat_map};
ghost use Rattle.table_pictures.specs.Nodes.{accepting_end, accepts, action_xml, conflict_line, conflict_xml, entry_xml, has_conflict, is_kernel_item, item_line, kernel_line, line_end, node, node_end, node_head, red_line, reduction_line};

use super::escape::push_xml;
use super::symbols::{push_production, push_symbol, push_symbols, push_tokens};
use lalrpop_base::lookahead::token_set::TokenSet;
use lalrpop_base::lr1_core::item::Lr1Item;
use lalrpop_base::lr1_core::state::{Action, Lr1Conflict, Lr1State, StateIndex};
use lalrpop_base::memory::OutOfMemory;
use lalrpop_base::repr::terminals::TerminalSet;
use lalrpop_base::repr::{NonterminalString, Production, Symbol};
use std::alloc::Global;

// The end of a line of a node, which aligns the line to the left.
const LINE_END: &str = "<BR ALIGN=\"LEFT\"/>";

// Appends the end of a line of a node.
fn push_line_end(text: &mut String) -> Result<(), OutOfMemory>
    ensures { OnOk result (string_bytes text.new ≡ string_bytes text.old ++ line_end) }
{
    text.push_str(LINE_END)?;
    Ok(())
}

/// Appends the node of a state. `conflicts` has those of all states, and the node shows those of
/// its own state.
pub(crate) fn push_node(
    alloc: Global,
    text: &mut String,
    start: &NonterminalString,
    state: &Lr1State<'_>,
    conflicts: &[Lr1Conflict<'_>],
    terminals: &TerminalSet,
) -> Result<(), OutOfMemory>
    ensures { OnOk result (string_bytes text.new ≡ string_bytes text.old ++ node terminals.now
        start.now conflicts.now state.now) }
{
    push_head(text, state.index)?;
    push_entry(alloc, text, &state.items.vec)?;
    push_line_end(text)?;
    push_kernel(alloc, text, start, &state.items.vec, state.index)?;
    push_reductions(alloc, text, &state.reductions, terminals)?;
    push_conflicts(alloc, text, state.index, conflicts, terminals)?;
    push_accepting(text, &state.reductions, start)?;
    push_end(text, is_in_conflict(state.index, conflicts))?;
    Ok(())
}

// Appends the head of a node, with the number of its state.
fn push_head(text: &mut String, number: StateIndex) -> Result<(), OutOfMemory>
    ensures { OnOk result (string_bytes text.new ≡ string_bytes text.old ++ node_head number.0) }
{
    write!(text, "  {number} [label=<<B>State {number}</B>")?;
    Ok(())
}

// Appends the symbol by which a state with these items is entered. State 0 is entered by none.
fn push_entry(alloc: Global, text: &mut String, items: &[Lr1Item<'_>]) -> Result<(), OutOfMemory>
    ensures { OnOk result (string_bytes text.new ≡ string_bytes text.old ++ entry_xml items.now) }
{
    for item in items {
        if let Some(symbol) = item.prefix().last() {
            text.push_str(" by")?;
            push_symbol(alloc, text, symbol)?;
            return Ok(());
        }
    }
    Ok(())
}

// Appends a second frame, if a state reduces by a production of the start symbol.
fn push_accepting(
    text: &mut String,
    reductions: &[(TokenSet, &Production)],
    start: &NonterminalString,
) -> Result<(), OutOfMemory>
    ensures { OnOk result (string_bytes text.new ≡ string_bytes text.old ++ accepting_end start.now
        reductions.now) }
{
    text.push_str(">")?;
    if is_accepting(reductions, start) {
        text.push_str(" peripheries=2")?;
    }
    Ok(())
}

// Whether one of the reductions is by a production of the start symbol.
fn is_accepting(reductions: &[(TokenSet, &Production)], start: &NonterminalString) -> bool
    ensures { result ≡ accepts start.now reductions.now }
{
    reductions.iter().any(|r| &r.1.nonterminal == start)
}

/// Whether a state has a conflict.
pub(crate) fn is_in_conflict(number: StateIndex, conflicts: &[Lr1Conflict<'_>]) -> bool
    ensures { result ≡ has_conflict conflicts.now number.0 }
{
    conflicts.iter().any(|c| c.state.0 == number.0)
}

// Appends the end of a node, red if the state has a conflict.
fn push_end(text: &mut String, is_red: bool) -> Result<(), OutOfMemory>
    ensures { OnOk result (string_bytes text.new ≡ string_bytes text.old ++ node_end is_red) }
{
    if is_red {
        text.push_str(" color=red penwidth=2];\n")?;
        return Ok(());
    }
    text.push_str("];\n")?;
    Ok(())
}

// Appends the lines of the kernel items of a state.
fn push_kernel(
    alloc: Global,
    text: &mut String,
    start: &NonterminalString,
    items: &[Lr1Item<'_>],
    number: StateIndex,
) -> Result<(), OutOfMemory>
    ensures { OnOk result (string_bytes text.new ≡ string_bytes text.old ++ flat_map
        (kernel_line start.now number.0) items.now) }
{
    for item in items {
        push_kernel_item(alloc, text, start, item, number)?;
    }
    Ok(())
}

// Appends the line of an item, if the item is in the kernel.
fn push_kernel_item(
    alloc: Global,
    text: &mut String,
    start: &NonterminalString,
    item: &Lr1Item<'_>,
    number: StateIndex,
) -> Result<(), OutOfMemory>
    ensures { OnOk result (string_bytes text.new ≡ string_bytes text.old ++ kernel_line start.now
        number.0 item.now) }
{
    if !is_kernel(item, start, number.0) {
        return Ok(());
    }
    push_item(alloc, text, item)?;
    Ok(())
}

// Whether an item is in the kernel of its state. Its dot is after a symbol, or the state is state 0
// and the left side of the production is the start symbol.
fn is_kernel(item: &Lr1Item<'_>, start: &NonterminalString, number: usize) -> bool
    ensures { result ≡ is_kernel_item start.now number item.now }
{
    item.index > 0 || (number == 0 && &item.production.nonterminal == start)
}

// Appends the line of an item.
fn push_item(alloc: Global, text: &mut String, item: &Lr1Item<'_>) -> Result<(), OutOfMemory>
    ensures { OnOk result (string_bytes text.new ≡ string_bytes text.old ++ item_line item.now) }
{
    push_xml(text, item.production.nonterminal.text.as_str())?;
    text.push_str(" -&gt;")?;
    push_symbols(alloc, text, item.prefix())?;
    text.push_str(" &bull;")?;
    push_symbols(alloc, text, item.rest())?;
    push_line_end(text)?;
    Ok(())
}

// Appends the lines of reductions.
fn push_reductions(
    alloc: Global,
    text: &mut String,
    reductions: &[(TokenSet, &Production)],
    terminals: &TerminalSet,
) -> Result<(), OutOfMemory>
    ensures { OnOk result (string_bytes text.new ≡ string_bytes text.old ++ flat_map
        (reduction_line terminals.now) reductions.now) }
{
    for reduction in reductions {
        push_reduction(alloc, text, reduction, terminals)?;
    }
    Ok(())
}

// Appends the line of a reduction.
fn push_reduction(
    alloc: Global,
    text: &mut String,
    reduction: &(TokenSet, &Production),
    terminals: &TerminalSet,
) -> Result<(), OutOfMemory>
    ensures { OnOk result (string_bytes text.new ≡ string_bytes text.old ++ reduction_line
        terminals.now reduction.now) }
{
    text.push_str("<I>reduce</I> ")?;
    push_production(alloc, text, reduction.1)?;
    text.push_str(" <I>on</I>")?;
    push_tokens(alloc, text, &reduction.0, terminals)?;
    push_line_end(text)?;
    Ok(())
}

// Appends the lines of the conflicts of a state.
fn push_conflicts(
    alloc: Global,
    text: &mut String,
    number: StateIndex,
    conflicts: &[Lr1Conflict<'_>],
    terminals: &TerminalSet,
) -> Result<(), OutOfMemory>
    ensures { OnOk result (string_bytes text.new ≡ string_bytes text.old ++ flat_map
        (conflict_line terminals.now number.0) conflicts.now) }
{
    for conflict in conflicts {
        push_conflict_of(alloc, text, number, conflict, terminals)?;
    }
    Ok(())
}

// Appends the line of a conflict, if the conflict is in the state.
fn push_conflict_of(
    alloc: Global,
    text: &mut String,
    number: StateIndex,
    conflict: &Lr1Conflict<'_>,
    terminals: &TerminalSet,
) -> Result<(), OutOfMemory>
    ensures { OnOk result (string_bytes text.new ≡ string_bytes text.old ++ conflict_line
        terminals.now number.0 conflict.now) }
{
    if conflict.state.0 == number.0 {
        push_red_line(alloc, text, conflict, terminals)?;
    }
    Ok(())
}

// Appends the line of a conflict in red.
fn push_red_line(
    alloc: Global,
    text: &mut String,
    conflict: &Lr1Conflict<'_>,
    terminals: &TerminalSet,
) -> Result<(), OutOfMemory>
    ensures { OnOk result (string_bytes text.new ≡ string_bytes text.old ++ red_line terminals.now
        conflict.now) }
{
    text.push_str("<FONT COLOR=\"red\">")?;
    push_conflict(alloc, text, conflict)?;
    push_tokens(alloc, text, &conflict.lookahead, terminals)?;
    text.push_str("</FONT>")?;
    push_line_end(text)?;
    Ok(())
}

// Appends the two actions of a conflict, and `on` for the tokens that follow.
fn push_conflict(
    alloc: Global,
    text: &mut String,
    conflict: &Lr1Conflict<'_>,
) -> Result<(), OutOfMemory>
    ensures { OnOk result
        (string_bytes text.new ≡ string_bytes text.old ++ conflict_xml conflict.now) }
{
    push_action(alloc, text, &conflict.action)?;
    push_production(alloc, text, conflict.production)?;
    text.push_str(", on")?;
    Ok(())
}

// Appends the other action of a conflict, before its reduction.
fn push_action(alloc: Global, text: &mut String, action: &Action<'_>) -> Result<(), OutOfMemory>
    ensures { OnOk result (string_bytes text.new ≡ string_bytes text.old ++ action_xml action.now) }
{
    match action {
        Action::Shift(_, target) => write!(text, "shift to {target}, or reduce ")?,
        Action::Reduce(other) => {
            text.push_str("reduce ")?;
            push_production(alloc, text, *other)?;
            text.push_str(", or ")?;
        }
    }
    Ok(())
}
