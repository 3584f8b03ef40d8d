//! The steps of a construction: its first kernel, and one state more.
ghost use Rattle.std.specs.Prelude.{◌≡◌, ◌+◌, ◌<◌, ◌≤◌, [], ℕ, List, Contains, Some, IfOk, OnOk, IsFalse, IsTrue, length, slice_get};
ghost use Rattle.lalrpop_base.specs.Words.{AreNumbers, Bits};
ghost use Rattle.lalrpop_numbers.specs.declared.numbers.numbered.Numbered.{Numbered as Item};
ghost use Rattle.lalrpop_numbers.specs.declared.numbers.suffixes.Suffix.{Suffix as Rest};
ghost use Rattle.lalrpop_states.specs.declared.lr1_core.state.State.{State};
ghost use Rattle.canonical_by_number.specs.TokenSets.{AreSetsIn, KeepsNumbers};
ghost use Rattle.canonical_by_number.specs.Closures.{AreFirsts, ArePackedIn, kernel_in};
ghost use Rattle.canonical_by_number.specs.Edges.{AreOverSymbols};
ghost use Rattle.canonical_by_number.specs.Kernels.{AreKernelsIn};
ghost use Rattle.canonical_by_number.specs.States.{AreMadeIn, IsStateMore};

use crate::closure::{ClosureMemory, closure};
use crate::conflicts::finished_of;
use crate::kernels::PackedKernels;
use crate::moves::{PackedMoves, transitions};
use crate::token_sets::{TokenSets, pair_of};
use lalrpop_base::collections::sparse_map::SparseMap;
use lalrpop_base::lookahead::token_set::TokenSet;
use lalrpop_base::memory::OutOfMemory;
use lalrpop_base::numbers::Numbers;
use lalrpop_base::numbers::numbered::Numbered;
use lalrpop_base::numbers::suffixes::Suffix;
use lalrpop_base::sequence::Sequence;
use lalrpop_construction::construction::lr::Lr;
use std::alloc::Global;

// The number of FIRST of a suffix, if there is one.
fn first_number(
    alloc: Global,
    suffix: &Option<Suffix>,
    sets: &mut TokenSets,
) -> Result<usize, OutOfMemory>
    ensures kept { OnOk result (KeepsNumbers sets.old sets.new) }
    ensures number { IfOk result (λ number. (rest : Rest) →
        suffix.now ≡ Some rest →
        slice_get sets.new number ≡ Some rest.first) }
{
    let Some(suffix) = suffix else {
        return Ok(0);
    };
    let first = suffix.first.clone(alloc)?;
    let number = sets.number_of(first)?;
    Ok(number)
}

/// For each dotted production before a nonterminal, the number of the set FIRST of its suffix.
/// `OutOfMemory` if an allocation fails, or if there are too many sets.
pub fn firsts_of<'grammar>(
    alloc: Global,
    numbers: &Numbers<'grammar>,
    sets: &mut TokenSets,
) -> Result<Vec<usize>, OutOfMemory>
    ensures kept { OnOk result (KeepsNumbers sets.old sets.new) }
    ensures firsts { IfOk result (λ firsts. AreFirsts numbers.now sets.new firsts.items) }
{
    let mut firsts = Vec::new(alloc);
    for suffix in &numbers.suffixes {
        firsts.push(first_number(alloc, suffix, sets)?)?;
    }
    Ok(firsts)
}

// The items by number, packed.
fn packed_items(
    alloc: Global,
    items: &[Numbered<TokenSet>],
    sets: &mut TokenSets,
) -> Result<Sequence<u64>, OutOfMemory>
    requires { (e : Item Bits) → Contains items.now e → e.number < 4294967296 }
    ensures kept { OnOk result (KeepsNumbers sets.old sets.new) }
    ensures packed { IfOk result (ArePackedIn sets.new) }
    ensures items { IfOk result (λ packed. kernel_in sets.new packed ≡ items.now) }
{
    let mut packed = Sequence::new(alloc);
    for item in items {
        let tokens = sets.number_of(item.lookahead.clone(alloc)?)?;
        packed.push(pair_of(item.number, tokens))?;
    }
    Ok(packed)
}

/// The kernels when a construction begins: the kernel of the start symbol, which has no state yet.
/// `OutOfMemory` if an allocation fails, or if there are too many sets.
pub fn first_kernels<'grammar>(
    alloc: Global,
    lr: &Lr<'grammar, TokenSet>,
    numbers: &Numbers<'grammar>,
    sets: &mut TokenSets,
) -> Result<PackedKernels, OutOfMemory>
    requires numbers { AreNumbers lr.now.construction.rules numbers.now }
    requires few { length numbers.now.items.items ≤ 4294967296 }
    ensures kept { OnOk result (KeepsNumbers sets.old sets.new) }
    ensures kernels { IfOk result (λ kernels. AreKernelsIn numbers.now sets.new kernels.list) }
    ensures made { IfOk result
        (λ kernels. AreMadeIn lr.now.construction numbers.now sets.new kernels []) }
{
    let start = lr.start_kernel(alloc, numbers)?;
    let packed = packed_items(alloc, start.as_slice(), sets)?;
    let mut kernels = PackedKernels::new(alloc);
    kernels.add_state(packed)?;
    Ok(kernels)
}

/// Memory that is reused from state to state.
///
/// - `list`: the items of the state that was made last, by rising number, with their sets.
/// - `finished`: those items whose dot is at the end.
/// - `moves`: the items with the dot moved, by the symbol over which it moved.
/// - `edges`: the transitions of the state, by numbers of symbols and of kernels.
#[derive(Drop)]
pub struct StateMemory {
    pub closure: ClosureMemory,
    pub list: Vec<(usize, usize)>,
    pub finished: Vec<(usize, usize)>,
    pub moves: PackedMoves,
    pub edges: Vec<(usize, usize)>,
}

impl StateMemory {
    /// Memory for states, which is empty.
    pub fn new(alloc: Global) -> Self {
        StateMemory {
            closure: ClosureMemory::new(alloc),
            list: Vec::new(alloc),
            finished: Vec::new(alloc),
            moves: SparseMap::new(alloc),
            edges: Vec::new(alloc),
        }
    }
}

/// Closes the next kernel, if one is left, and returns whether one was. The kernels to which its
/// state leads are added to `kernels`. The items and transitions of the state are left in `work`.
/// `OutOfMemory` if an allocation fails, or if there are too many sets.
pub fn next_state<'grammar>(
    alloc: Global,
    lr: &Lr<'grammar, TokenSet>,
    numbers: &Numbers<'grammar>,
    firsts: &[usize],
    sets: &mut TokenSets,
    kernels: &mut PackedKernels,
    work: &mut StateMemory,
) -> Result<bool, OutOfMemory>
    requires numbers { AreNumbers lr.now.construction.rules numbers.now }
    requires few { length numbers.now.items.items ≤ 4294967296 }
    requires firsts { AreFirsts numbers.now sets.old firsts.now }
    requires kernels { AreKernelsIn numbers.now sets.old kernels.old.list }
    requires made { (states : List (State Bits)) ×
        AreMadeIn lr.now.construction numbers.now sets.old kernels.old states }
    ensures kept { OnOk result (KeepsNumbers sets.old sets.new) }
    ensures kernels { OnOk result (AreKernelsIn numbers.now sets.new kernels.new.list) }
    ensures made { IfOk result (λ more. IsTrue more → (states : List (State Bits)) →
        AreMadeIn lr.now.construction numbers.now sets.old kernels.old states →
        IsStateMore lr.now.construction numbers.now sets.new kernels.new states
        work.new.finished.items work.new.edges.items) }
    ensures finished { IfOk result
        (λ more. IsTrue more → AreSetsIn sets.new work.new.finished.items) }
    ensures edges { IfOk result (λ more. IsTrue more →
        AreOverSymbols numbers.now.symbols.items work.new.edges.items) }
    ensures counted { IfOk result
        (λ more. IsTrue more → kernels.new.handed ≡ kernels.old.handed + 1) }
    ensures none { IfOk result (λ more. IsFalse more → kernels.new ≡ kernels.old) }
    ensures same { IfOk result (λ more. IsFalse more → sets.new ≡ sets.old) }
    ensures all { IfOk result
        (λ more. IsFalse more → kernels.new.handed ≡ length kernels.new.list) }
{
    let Some(number) = kernels.next() else {
        return Ok(false);
    };
    closure(
        alloc,
        lr,
        numbers,
        firsts,
        sets,
        kernels.items(number),
        &mut work.closure,
        &mut work.list,
    )?;
    finished_of(numbers, &work.list, &mut work.finished)?;
    transitions(
        alloc,
        numbers,
        sets,
        &work.list,
        kernels,
        &mut work.moves,
        &mut work.edges,
    )?;
    Ok(true)
}
