//! Numbers that are reached over edges, in rounds.
ghost use Rattle.std.specs.Prelude.{◌≡◌, ◌++◌, ◌∷◌, ◌<◌, [], IfOk, OnOk, true, false, filter, get_or, map, replicate, set, if◌then◌else◌};
ghost use Rattle.table_pictures.specs.Paths.{turned};
ghost use Rattle.table_pictures.specs.Rounds.{crosses, edges_crossed, flags_after, sent_over};

use lalrpop_base::memory::OutOfMemory;
use std::alloc::Global;

/// The flags after so many rounds. The edges that the flags cross are added to `crossed`. The
/// rounds end before if no edge is crossed.
pub(crate) fn flags_after(
    alloc: Global,
    edges: &[(usize, usize)],
    flags: Vec<bool>,
    rounds: usize,
    crossed: &mut Vec<(usize, usize)>,
) -> Result<Vec<bool>, OutOfMemory>
    ensures flags { IfOk result
        (λ after. after.items ≡ flags_after edges.now flags.items rounds) }
    ensures crossed { OnOk result (crossed.new.items ≡
        crossed.old.items ++ edges_crossed edges.now flags.items rounds) }
{
    let mut flags = flags;
    for _ in 0..rounds {
        let few = crossed.len();
        flags = next_flags(alloc, edges, &flags, crossed)?;
        if crossed.len() == few {
            return Ok(flags);
        }
    }
    Ok(flags)
}

// The flags after one round more.
fn next_flags(
    alloc: Global,
    edges: &[(usize, usize)],
    flags: &[bool],
    crossed: &mut Vec<(usize, usize)>,
) -> Result<Vec<bool>, OutOfMemory>
    ensures flags { IfOk result (λ next. next.items ≡ sent_over flags.now edges.now flags.now) }
    ensures crossed { OnOk result (crossed.new.items ≡
        crossed.old.items ++ filter (crosses flags.now) edges.now) }
{
    let mut next = Vec::new(alloc);
    next.extend_from_slice(flags)?;
    for edge in edges {
        send(flags, *edge, &mut next, crossed)?;
    }
    Ok(next)
}

// Sets the flag at the end of an edge that crosses the flags, and adds that edge.
fn send(
    flags: &[bool],
    edge: (usize, usize),
    next: &mut Vec<bool>,
    crossed: &mut Vec<(usize, usize)>,
) -> Result<(), OutOfMemory>
    ensures flags { OnOk result (next.new.items ≡
        (if crosses flags.now edge then set next.old.items edge.1 true else next.old.items)) }
    ensures crossed { OnOk result (crossed.new.items ≡
        crossed.old.items ++ filter (crosses flags.now) (edge ∷ [])) }
{
    if !crosses(flags, edge) {
        return Ok(());
    }
    if edge.1 < next.len() {
        next[edge.1] = true;
    }
    crossed.push(edge)?;
    Ok(())
}

// Whether an edge leads from a number with its flag to one whose flag is not set.
fn crosses(flags: &[bool], edge: (usize, usize)) -> bool
    ensures { result ≡ crosses flags.now edge }
{
    flag_at(flags, edge.0, false) && !flag_at(flags, edge.1, true)
}

/// The flags of the numbers below `count`, of which only that of one number is set.
pub(crate) fn only_flag(
    alloc: Global,
    count: usize,
    number: usize,
) -> Result<Vec<bool>, OutOfMemory>
    requires { number < count }
    ensures { IfOk result (λ flags. flags.items ≡ set (replicate count false) number true) }
{
    let mut flags = Vec::new(alloc);
    flags.resize(count, false)?;
    flags[number] = true;
    Ok(flags)
}

/// The edges in the other direction.
pub(crate) fn turned(
    alloc: Global,
    edges: &[(usize, usize)],
) -> Result<Vec<(usize, usize)>, OutOfMemory>
    ensures { IfOk result (λ back. back.items ≡ map turned edges.now) }
{
    let mut back = Vec::new(alloc);
    for edge in edges {
        back.push((edge.1, edge.0))?;
    }
    Ok(back)
}

/// The flag of a number. After the last flag, it is `past`.
pub(crate) fn flag_at(flags: &[bool], number: usize, past: bool) -> bool
    ensures { result ≡ get_or flags.now number past }
{
    if number < flags.len() {
        return flags[number];
    }
    past
}
