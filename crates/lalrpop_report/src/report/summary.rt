//! The summary of a report.
ghost use Rattle.std.specs.Prelude.{◌≡◌, ◌++◌, IfOk, OnOk, string_bytes, map, count_by, codes};
ghost use Rattle.std.specs.Fmt.{decimal};
ghost use Rattle.std.specs.List.{flat_map};
ghost use Rattle.lalrpop_states.specs.declared.lr1_core.state.Conflict.{Conflict};
ghost use Rattle.lalrpop_report.specs.reports.Report.{section_header, opening, states_line, is_shift, is_reduce, kind_line, ascending, state_number, conflict_states_line, conflicts_summary};

use lalrpop_base::lr1_core::state::{Action, Conflict};
use lalrpop_base::memory::OutOfMemory;
use std::alloc::Global;
use std::collections::BTreeSet;

/// Appends the header of a section.
pub(crate) fn push_section_header(text: &mut String, title: &str) -> Result<(), OutOfMemory>
    ensures { OnOk result
        (string_bytes text.new ≡ string_bytes text.old ++ section_header title.now) }
{
    write!(
        text,
        "\n{title}\n----------------------------------------\n"
    )?;
    Ok(())
}

/// Appends the beginning of a report.
pub(crate) fn push_opening(text: &mut String) -> Result<(), OutOfMemory>
    ensures { OnOk result (string_bytes text.new ≡ string_bytes text.old ++ opening) }
{
    text.push_str("Lalrpop Report File\n========================================\n")?;
    push_section_header(text, "Summary")?;
    text.push_str("\n")?;
    Ok(())
}

/// Appends the line of a number of states.
pub(crate) fn push_states_line(text: &mut String, count: usize) -> Result<(), OutOfMemory>
    ensures { OnOk result (string_bytes text.new ≡ string_bytes text.old ++ states_line count) }
{
    write!(text, "Constructed {count} states\n")?;
    Ok(())
}

// Appends the line of a number of conflicts of a kind, if there are some.
fn push_kind(text: &mut String, label: &str, count: usize) -> Result<(), OutOfMemory>
    ensures { OnOk result
        (string_bytes text.new ≡ string_bytes text.old ++ kind_line label.now count) }
{
    if count == 0 {
        return Ok(());
    }
    write!(text, "    {label}{count}\n")?;
    Ok(())
}

// Whether an action is a shift.
fn is_shift(action: &Action<'_>) -> bool
    ensures { result ≡ is_shift action.now }
{
    match action {
        Action::Shift(_, _) => true,
        Action::Reduce(_) => false,
    }
}

// Whether an action is a reduction.
fn is_reduce(action: &Action<'_>) -> bool
    ensures { result ≡ is_reduce action.now }
{
    match action {
        Action::Shift(_, _) => false,
        Action::Reduce(_) => true,
    }
}

// How many conflicts are between a reduction and a shift.
fn count_shifts<L>(conflicts: &[Conflict<'_, L>]) -> usize
    ensures { result ≡ count_by (λ (c : Conflict L). is_shift c.action) conflicts.now }
{
    conflicts.iter().filter(|c| is_shift(&c.action)).count()
}

// How many conflicts are between two reductions.
fn count_reduces<L>(conflicts: &[Conflict<'_, L>]) -> usize
    ensures { result ≡ count_by (λ (c : Conflict L). is_reduce c.action) conflicts.now }
{
    conflicts.iter().filter(|c| is_reduce(&c.action)).count()
}

// The numbers of the states that have conflicts.
fn numbers_of<L>(
    alloc: Global,
    conflicts: &[Conflict<'_, L>],
) -> Result<BTreeSet<usize>, OutOfMemory>
    ensures { IfOk result
        (λ numbers. numbers.keys ≡ ascending (map (state_number {L = L}) conflicts.now)) }
{
    let mut numbers = BTreeSet::new(alloc);
    for conflict in conflicts {
        numbers.insert(conflict.state.0)?;
    }
    Ok(numbers)
}

// Appends numbers, each after a space.
fn push_numbers(text: &mut String, numbers: &BTreeSet<usize>) -> Result<(), OutOfMemory>
    ensures { OnOk result (string_bytes text.new ≡ string_bytes text.old ++ flat_map
        (λ n. codes " " ++ decimal n) numbers.now.keys) }
{
    for number in numbers.iter() {
        write!(text, " {number}")?;
    }
    Ok(())
}

// Appends the line of the states that have conflicts.
fn push_conflict_states<L>(
    alloc: Global,
    text: &mut String,
    conflicts: &[Conflict<'_, L>],
) -> Result<(), OutOfMemory>
    ensures { OnOk result
        (string_bytes text.new ≡ string_bytes text.old ++ conflict_states_line conflicts.now) }
{
    let numbers = numbers_of(alloc, conflicts)?;
    text.push_str("States with conflicts: ")?;
    push_numbers(text, &numbers)?;
    text.push_str("\n")?;
    Ok(())
}

/// Appends the number of conflicts, in all and of each kind, and the states that have some.
pub(crate) fn push_conflicts_summary<L>(
    alloc: Global,
    text: &mut String,
    conflicts: &[Conflict<'_, L>],
) -> Result<(), OutOfMemory>
    ensures { OnOk result
        (string_bytes text.new ≡ string_bytes text.old ++ conflicts_summary conflicts.now) }
{
    write!(text, "Has {} conflicts\n", conflicts.len())?;
    push_kind(text, "shift/reduce:  ", count_shifts(conflicts))?;
    push_kind(text, "reduce/reduce: ", count_reduces(conflicts))?;
    push_conflict_states(alloc, text, conflicts)?;
    Ok(())
}
