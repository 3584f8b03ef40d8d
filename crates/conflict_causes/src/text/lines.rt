//! The lines of a cause.
ghost use Rattle.std.specs.Prelude.{◌≡◌, ◌++◌, OnOk, codes, length, map, string_bytes};
ghost use Rattle.std.specs.List.{flat_map};
ghost use Rattle.lalrpop_collections.specs.lists.Bits.{rising};
ghost use Rattle.lalrpop_ambiguity.specs.derivations.Derivations.{root};
ghost use Rattle.lalrpop_ambiguity.specs.derivations.Represented.{tree_of};
ghost use Rattle.lalrpop_grammar.specs.grammars.Names.{symbol_text, symbols_text};
ghost use Rattle.lalrpop_grammar.specs.grammars.Tokens.{token_of};
ghost use Rattle.conflict_causes.specs.CauseTexts.{cause_numbers, cause_tokens, found_text, heading, item_text, kind_of, other_lines, plural, reduce_line, rule_text, search_text, shifting_line, summary_line};

use lalrpop_ambiguity::derivation::Derivation;
use lalrpop_ambiguity::search::Search;
use lalrpop_ambiguity::witness::Ambiguity;
use lalrpop_base::lookahead::token_set::TokenSet;
use lalrpop_base::lr1_core::item::Lr0Item;
use lalrpop_base::lr1_core::state::Action;
use lalrpop_base::memory::OutOfMemory;
use lalrpop_base::repr::terminals::TerminalSet;
use lalrpop_base::repr::{Production, Symbol};
use std::alloc::Global;
use std::collections::BTreeSet;

/// Appends the numbers of conflicts and of causes.
pub(super) fn push_summary(
    text: &mut String,
    conflicts: usize,
    causes: usize,
) -> Result<(), OutOfMemory>
    ensures { OnOk result
        (string_bytes text.new ≡ string_bytes text.old ++ summary_line conflicts causes) }
{
    write!(text, "{conflicts} conflict")?;
    text.push_str(plural(conflicts))?;
    write!(text, " of {causes} cause")?;
    text.push_str(plural(causes))?;
    text.push_str("\n")?;
    Ok(())
}

/// The end of a noun after a number.
pub(super) fn plural(number: usize) -> &'static str
    ensures { result.now ≡ plural number }
{
    if number == 1 { "" } else { "s" }
}

/// Appends the heading of a cause: its number, its kind, its tokens and its states.
pub(super) fn push_heading(
    text: &mut String,
    number: usize,
    action: &Action<'_>,
    tokens: &TokenSet,
    terminals: &TerminalSet,
    states: &BTreeSet<usize>,
) -> Result<(), OutOfMemory>
    ensures { OnOk result (string_bytes text.new ≡ string_bytes text.old ++ heading number
        action.now terminals.now tokens.now states.now.keys) }
{
    write!(text, "cause {number}: ")?;
    text.push_str(kind_of(action))?;
    text.push_str(" on")?;
    push_tokens(text, tokens, terminals)?;
    push_states(text, states)?;
    Ok(())
}

/// The kind of a conflict with a reduction and another action.
pub(super) fn kind_of(action: &Action<'_>) -> &'static str
    ensures { result.now ≡ kind_of action.now }
{
    match action {
        Action::Shift(_, _) => "shift/reduce",
        Action::Reduce(_) => "reduce/reduce",
    }
}

/// Appends the tokens of a set by ascending bit, each after a space.
pub(super) fn push_tokens(
    text: &mut String,
    set: &TokenSet,
    terminals: &TerminalSet,
) -> Result<(), OutOfMemory>
    ensures { OnOk result (string_bytes text.new ≡ string_bytes text.old ++ cause_tokens
        (map (token_of terminals.now) (rising set.now))) }
{
    for token in set.iter(terminals) {
        write!(text, " {token}")?;
    }
    Ok(())
}

// Appends the states of a cause, and the end of a line.
fn push_states(text: &mut String, states: &BTreeSet<usize>) -> Result<(), OutOfMemory>
    ensures { OnOk result (string_bytes text.new ≡ string_bytes text.old ++ (codes " in state" ++
        (plural (length states.now.keys) ++ (cause_numbers states.now.keys ++ codes "\n")))) }
{
    text.push_str(" in state")?;
    text.push_str(plural(states.len()))?;
    push_numbers(text, states)?;
    text.push_str("\n")?;
    Ok(())
}

/// Appends numbers, each after a space.
pub(super) fn push_numbers(text: &mut String, numbers: &BTreeSet<usize>) -> Result<(), OutOfMemory>
    ensures { OnOk result
        (string_bytes text.new ≡ string_bytes text.old ++ cause_numbers numbers.now.keys) }
{
    for number in numbers.iter() {
        write!(text, " {number}")?;
    }
    Ok(())
}

/// Appends the lines of the action that is not the reduction of a conflict: a line of each item
/// that shifts, or the other reduction.
pub(super) fn push_others(
    text: &mut String,
    action: &Action<'_>,
    items: &BTreeSet<Lr0Item<'_>>,
) -> Result<(), OutOfMemory>
    ensures { OnOk result (string_bytes text.new ≡ string_bytes text.old ++ other_lines action.now
        items.now.keys) }
{
    match action {
        Action::Shift(_, _) => push_shifts(text, items),
        Action::Reduce(production) => push_reduction(text, *production),
    }
}

// Appends a line of each item that shifts.
fn push_shifts(text: &mut String, items: &BTreeSet<Lr0Item<'_>>) -> Result<(), OutOfMemory>
    ensures { OnOk result
        (string_bytes text.new ≡ string_bytes text.old ++ flat_map shifting_line items.now.keys) }
{
    for item in items.iter() {
        push_shift(text, item)?;
    }
    Ok(())
}

// Appends the line of an item that shifts.
fn push_shift(text: &mut String, item: &Lr0Item<'_>) -> Result<(), OutOfMemory>
    ensures { OnOk result (string_bytes text.new ≡ string_bytes text.old ++ shifting_line item.now) }
{
    text.push_str("  shift by   ")?;
    push_item(text, item)?;
    text.push_str("\n")?;
    Ok(())
}

/// Appends an item, with a mark in the place of its dot.
pub(super) fn push_item(text: &mut String, item: &Lr0Item<'_>) -> Result<(), OutOfMemory>
    ensures { OnOk result (string_bytes text.new ≡ string_bytes text.old ++ item_text item.now) }
{
    write!(text, "{} =", item.production.nonterminal)?;
    push_symbols(text, item.prefix())?;
    text.push_str(" (*)")?;
    push_symbols(text, item.rest())?;
    Ok(())
}

// Appends symbols, each after a space.
fn push_symbols(text: &mut String, symbols: &[Symbol]) -> Result<(), OutOfMemory>
    ensures { OnOk result
        (string_bytes text.new ≡ string_bytes text.old ++ symbols_text symbols.now) }
{
    for symbol in symbols {
        write!(text, " {symbol}")?;
    }
    Ok(())
}

/// Appends the line of a reduction.
pub(super) fn push_reduction(text: &mut String, production: &Production) -> Result<(), OutOfMemory>
    ensures { OnOk result
        (string_bytes text.new ≡ string_bytes text.old ++ reduce_line production.now) }
{
    text.push_str("  reduce     ")?;
    push_rule(text, production)?;
    text.push_str("\n")?;
    Ok(())
}

/// Appends a production.
pub(super) fn push_rule(text: &mut String, production: &Production) -> Result<(), OutOfMemory>
    ensures { OnOk result
        (string_bytes text.new ≡ string_bytes text.old ++ rule_text production.now) }
{
    write!(text, "{} =", production.nonterminal)?;
    push_symbols(text, production.symbols.as_slice())?;
    Ok(())
}

/// Appends the result of a search of so many steps. Two derivations have a mark after so many moves.
pub(super) fn push_search(
    alloc: Global,
    text: &mut String,
    search: &Search<'_>,
    steps: usize,
    moves: usize,
) -> Result<(), OutOfMemory>
    ensures { OnOk result
        (string_bytes text.new ≡ string_bytes text.old ++ search_text steps moves search.now) }
{
    match search {
        Search::Found(found) => push_found(alloc, text, found, moves),
        Search::Exhausted => {
            text.push_str("  no input with two derivations was found: the search was exhausted\n")?;
            Ok(())
        }
        Search::Cut => {
            text.push_str("  no input with two derivations was found: the search was cut at ")?;
            write!(text, "{steps} steps or its memory limit\n")?;
            Ok(())
        }
    }
}

// Appends two derivations, one under the other, each with a mark after so many moves.
fn push_found(
    alloc: Global,
    text: &mut String,
    found: &Ambiguity<'_>,
    moves: usize,
) -> Result<(), OutOfMemory>
    ensures { OnOk result
        (string_bytes text.new ≡ string_bytes text.old ++ found_text moves found.now) }
{
    let left = found.left.marked_text(alloc, moves)?;
    let right = found.right.marked_text(alloc, moves)?;
    text.push_str("  two derivations of ")?;
    push_root(text, &found.left)?;
    write!(text, ":\n    {right}\n    {left}\n")?;
    Ok(())
}

// Appends the symbol at the root of a derivation.
fn push_root(text: &mut String, tree: &Derivation<'_>) -> Result<(), OutOfMemory>
    ensures { OnOk result (string_bytes text.new ≡ string_bytes text.old ++ symbol_text
        (root (tree_of tree.now))) }
{
    match tree {
        Derivation::Node(production, _) => write!(text, "{}", production.nonterminal)?,
        Derivation::Leaf(symbol) => write!(text, "{symbol}")?,
    }
    Ok(())
}
