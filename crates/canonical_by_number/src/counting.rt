//! The number of conflicts of the canonical states, with sets of tokens by number.
ghost use Rattle.std.specs.Prelude.{◌≡◌, ◌≤◌, [], List, IfOk, length};
ghost use Rattle.lalrpop_base.specs.Words.{AreNumbers};
ghost use Rattle.lalrpop_grammar.specs.declared.repr.TerminalString.{TerminalString as Name};
ghost use Rattle.canonical_by_number.specs.Closures.{AreFirsts};
ghost use Rattle.canonical_by_number.specs.Conflicts.{CountsMore, IsConflictTotal, conflicts_of};
ghost use Rattle.canonical_by_number.specs.Edges.{AreOverSymbols, bits_of};
ghost use Rattle.canonical_by_number.specs.Kernels.{AreKernelsIn};
ghost use Rattle.canonical_by_number.specs.States.{AreMadeIn};
ghost use Rattle.canonical_by_number.specs.TokenSets.{AreSetsIn};

use crate::conflicts::{add_conflicts, bits_of};
use crate::kernels::PackedKernels;
use crate::states::{StateMemory, first_kernels, firsts_of, next_state};
use crate::token_sets::TokenSets;
use lalrpop_base::lookahead::token_set::TokenSet;
use lalrpop_base::memory::OutOfMemory;
use lalrpop_base::numbers::Numbers;
use lalrpop_construction::construction::lr::Lr;
use std::alloc::Global;

// A number of conflicts and those of the state that is left in `work`.
fn with_state(
    numbers: &Numbers<'_>,
    bits: &[Option<usize>],
    sets: &TokenSets,
    work: &StateMemory,
    old: usize,
) -> usize
    requires finished { AreSetsIn sets.now work.now.finished.items }
    requires edges { AreOverSymbols numbers.now.symbols.items work.now.edges.items }
    requires bits { length numbers.now.symbols.items ≤ length bits.now }
    ensures { (terminals : List Name) →
        bits.now ≡ bits_of terminals numbers.now.symbols.items →
        CountsMore (conflicts_of numbers.now sets.now terminals work.now.finished.items
        work.now.edges.items) old result }
{
    add_conflicts(numbers, bits, sets, &work.finished, &work.edges, old)
}

// The number of the conflicts of all states of a construction, of which none is made yet.
fn count_all<'grammar>(
    alloc: Global,
    lr: &Lr<'grammar, TokenSet>,
    numbers: &Numbers<'grammar>,
    bits: &[Option<usize>],
    firsts: &[usize],
    sets: &mut TokenSets,
    kernels: &mut PackedKernels,
) -> Result<usize, OutOfMemory>
    requires numbers { AreNumbers lr.now.construction.rules numbers.now }
    requires few { length numbers.now.items.items ≤ 4294967296 }
    requires bits { bits.now ≡
        bits_of lr.now.construction.rules.terminals numbers.now.symbols.items }
    requires firsts { AreFirsts numbers.now sets.old firsts.now }
    requires kernels { AreKernelsIn numbers.now sets.old kernels.old.list }
    requires made { AreMadeIn lr.now.construction numbers.now sets.old kernels.old [] }
    ensures { IfOk result (IsConflictTotal lr.now.construction) }
{
    let mut work = StateMemory::new(alloc);
    let mut count = 0;
    'states: while next_state(alloc, lr, numbers, firsts, sets, kernels, &mut work)? {
        count = with_state(numbers, bits, sets, &work, count);
    }
    Ok(count)
}

/// The number of the conflicts of all states of a construction. A number above the greatest `usize`
/// is returned as that `usize`. `OutOfMemory` if an allocation fails, or if there are more than 2
/// to the power of 32 sets of tokens or dotted productions.
pub fn count_conflicts<'grammar>(
    alloc: Global,
    lr: &Lr<'grammar, TokenSet>,
) -> Result<usize, OutOfMemory>
    ensures { IfOk result (IsConflictTotal lr.now.construction) }
{
    let grammar = lr.grammar();
    let numbers = lr.numbers();
    if numbers.items.len() > 4294967296 {
        return Err(OutOfMemory);
    }
    let bits = bits_of(alloc, numbers, &grammar.terminals)?;
    let mut sets = TokenSets::new(alloc);
    let firsts = firsts_of(alloc, numbers, &mut sets)?;
    let mut kernels = first_kernels(alloc, lr, numbers, &mut sets)?;
    count_all(
        alloc,
        lr,
        numbers,
        bits.as_slice(),
        firsts.as_slice(),
        &mut sets,
        &mut kernels,
    )
}
