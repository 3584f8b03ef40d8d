//! The closure of a kernel.
//!
//! A closure adds all productions of a nonterminal, with the dot at the start and the same tokens.
//! So the tokens are kept once for each nonterminal, by its number, until the items are made.
ghost use Rattle.std.specs.Prelude.{◌≡◌, ◌<◌, ◌≤◌, ◌∷◌, [], ℕ, IfOk, OnOk, IfSome, IfNone, Contains, length, map};
ghost use Rattle.std.specs.Map.{keys_of};
ghost use Rattle.lalrpop_base.specs.Words.{Bits, AreNumbered, AreNumbers, item_by, items_by};
ghost use Rattle.lalrpop_construction.specs.closures.Propagation.{IsPropagation, Propagates, expansions_in, numbered_of, parts_in, unfolded};
ghost use Rattle.lalrpop_construction.specs.closures.Propagation.{with_tokens};
ghost use Rattle.lalrpop_base.specs.Words.{AreItemsBy, IsClosureBy, meant, readings};
ghost use Rattle.lalrpop_collections.specs.lists.Entries.{GathersMore};

use super::lookahead_build::LookaheadBuild;
use super::lr::Lr;
use super::workspace::Workspace;
use lalrpop_base::collections::queue::Queue;
use lalrpop_base::collections::sparse_map::SparseMap;
use lalrpop_base::lookahead::Lookahead;
use lalrpop_base::memory::OutOfMemory;
use lalrpop_base::numbers::Numbers;
use lalrpop_base::numbers::numbered::Numbered;
use lalrpop_base::repr::Symbol;
use std::alloc::Global;

// Adds the tokens that an item gives to the nonterminal after its dot. The nonterminal goes into
// the queue if it is new or has more tokens than before.
fn propagate<'grammar, L: LookaheadBuild>(
    alloc: Global,
    lr: &Lr<'grammar, L>,
    numbers: &Numbers<'grammar>,
    number: usize,
    tokens: &L,
    shared: &mut SparseMap<L>,
    queue: &mut Queue,
) -> Result<(), OutOfMemory>
    requires numbers { AreNumbers lr.now.construction.rules numbers.now }
    requires known { number < length numbers.now.items.items }
    requires limit { length numbers.now.symbols.items ≤ queue.old.limit }
    ensures limit { queue.new.limit ≡ queue.old.limit }
    ensures shares { OnOk result (Propagates L.begins L.passes lr.now.construction.rules numbers.now
        (item_by numbers.now.items.items (record
        { number = number; lookahead = L.meaning tokens.now }) ∷ [])
        (readings L.meaning shared.old) (readings L.meaning shared.new)
        queue.old.numbers queue.new.numbers) }
{
    let Some(symbol) = numbers.behind[number] else {
        return Ok(());
    };
    let Some(suffix) = &numbers.suffixes[number] else {
        return Ok(());
    };
    let Some((next, remainder)) = numbers.items[number].shift_symbol() else {
        return Ok(());
    };
    let Symbol::Nonterminal(name) = next else {
        return Ok(());
    };
    let _grammar = lr.grammar();
    if L::give(alloc, lr, name, remainder, suffix, tokens, symbol, shared)? {
        queue.add(symbol)?;
    }
    Ok(())
}

// Adds the tokens that the items of a kernel give.
fn propagate_kernel<'grammar, L: LookaheadBuild>(
    alloc: Global,
    lr: &Lr<'grammar, L>,
    numbers: &Numbers<'grammar>,
    kernel: &[Numbered<L>],
    shared: &mut SparseMap<L>,
    queue: &mut Queue,
) -> Result<(), OutOfMemory>
    requires numbers { AreNumbers lr.now.construction.rules numbers.now }
    requires known { AreNumbered numbers.now.items.items kernel.now }
    requires limit { length numbers.now.symbols.items ≤ queue.old.limit }
    ensures limit { queue.new.limit ≡ queue.old.limit }
    ensures shares { OnOk result (Propagates L.begins L.passes lr.now.construction.rules numbers.now
        (map (meant L.meaning) (items_by numbers.now.items.items kernel.now))
        (readings L.meaning shared.old) (readings L.meaning shared.new)
        queue.old.numbers queue.new.numbers) }
{
    for item in kernel {
        propagate(
            alloc,
            lr,
            numbers,
            item.number,
            &item.lookahead,
            shared,
            queue,
        )?;
    }
    Ok(())
}

// Adds the tokens that the productions of a nonterminal give. `expansions` has the numbers of these
// productions with the dot at the start, and `tokens` are those of the nonterminal.
fn propagate_expansions<'grammar, L: LookaheadBuild>(
    alloc: Global,
    lr: &Lr<'grammar, L>,
    numbers: &Numbers<'grammar>,
    expansions: &[usize],
    tokens: &L,
    shared: &mut SparseMap<L>,
    queue: &mut Queue,
) -> Result<(), OutOfMemory>
    requires numbers { AreNumbers lr.now.construction.rules numbers.now }
    requires known { AreNumbered numbers.now.items.items
        (expansions_in (L.meaning tokens.now) expansions.now) }
    requires limit { length numbers.now.symbols.items ≤ queue.old.limit }
    ensures limit { queue.new.limit ≡ queue.old.limit }
    ensures shares { OnOk result (Propagates L.begins L.passes lr.now.construction.rules numbers.now
        (items_by numbers.now.items.items (expansions_in (L.meaning tokens.now) expansions.now))
        (readings L.meaning shared.old) (readings L.meaning shared.new)
        queue.old.numbers queue.new.numbers) }
{
    for number in expansions {
        propagate(alloc, lr, numbers, *number, tokens, shared, queue)?;
    }
    Ok(())
}

// A copy of the tokens of a nonterminal, if it has an entry.
#[tactic(auto, using(lalrpop_collections::proofs::theory::lists::Members::contains_map))]
fn nonterminal_tokens<L: Lookahead>(
    alloc: Global,
    shared: &SparseMap<L>,
    symbol: usize,
) -> Result<Option<L>, OutOfMemory>
    ensures found { IfOk result (λ answer. IfSome answer
        (λ tokens. Contains (readings L.meaning shared.now) (symbol, L.meaning tokens))) }
    ensures none { IfOk result (λ answer. IfNone answer
        (¬ Contains (keys_of shared.now) symbol)) }
{
    match shared.get(symbol) {
        Some(tokens) => Ok(Some(tokens.copy(alloc)?)),
        None => Ok(None),
    }
}

// Fills `shared` with the tokens that each nonterminal of the closure of a kernel gets.
fn propagate_all<'grammar, L: LookaheadBuild>(
    alloc: Global,
    lr: &Lr<'grammar, L>,
    numbers: &Numbers<'grammar>,
    kernel: &[Numbered<L>],
    shared: &mut SparseMap<L>,
    queue: &mut Queue,
) -> Result<(), OutOfMemory>
    requires numbers { AreNumbers lr.now.construction.rules numbers.now }
    requires known { AreNumbered numbers.now.items.items kernel.now }
    requires kernel { AreItemsBy L.meaning lr.now.construction.rules
        (items_by numbers.now.items.items kernel.now) }
    ensures { OnOk result (IsPropagation L.begins L.passes lr.now.construction.rules
        numbers.now (map (meant L.meaning) (items_by numbers.now.items.items kernel.now))
        (readings L.meaning shared.new) []) }
{
    shared.clear();
    queue.restart(numbers.symbols.len())?;
    propagate_kernel(alloc, lr, numbers, kernel, shared, queue)?;
    while let Some(symbol) = queue.take() {
        if let Some(tokens) = nonterminal_tokens(alloc, shared, symbol)? {
            let expansions = &numbers.expansions[symbol];
            propagate_expansions(alloc, lr, numbers, expansions, &tokens, shared, queue)?;
        }
    }
    Ok(())
}

// Adds the items of a kernel to the table.
fn gather_kernel<L: Lookahead>(
    alloc: Global,
    kernel: &[Numbered<L>],
    table: &mut SparseMap<L>,
) -> Result<(), OutOfMemory>
    ensures { OnOk result (GathersMore (parts_in L.meaning kernel.now)
        (readings L.meaning table.old) (readings L.meaning table.new)) }
{
    for item in kernel {
        table.join_copy(alloc, item.number, &item.lookahead)?;
    }
    Ok(())
}

// Adds the productions of a nonterminal to the table, with the dot at the start and the tokens. The
// last production gets the tokens themselves, and the others get copies.
fn gather_expansions<L: Lookahead>(
    alloc: Global,
    expansions: &[usize],
    tokens: L,
    table: &mut SparseMap<L>,
) -> Result<(), OutOfMemory>
    ensures { OnOk result (GathersMore (with_tokens (L.meaning tokens) expansions.now)
        (readings L.meaning table.old) (readings L.meaning table.new)) }
{
    let Some((last, others)) = expansions.split_last() else {
        return Ok(());
    };
    for number in others {
        table.join_copy(alloc, *number, &tokens)?;
    }
    table.join(*last, tokens)?;
    Ok(())
}

// Adds the productions of all nonterminals of a closure to the table.
fn gather_nonterminals<'grammar, L: Lookahead>(
    alloc: Global,
    numbers: &Numbers<'grammar>,
    shared: Vec<(usize, L)>,
    table: &mut SparseMap<L>,
) -> Result<(), OutOfMemory>
    requires { (e : ℕ × Bits) →
        Contains (readings L.meaning shared.items) e →
        e.0 < length numbers.now.expansions.items }
    ensures { OnOk result (GathersMore
        (unfolded numbers.now (readings L.meaning shared.items))
        (readings L.meaning table.old) (readings L.meaning table.new)) }
{
    for (symbol, tokens) in shared {
        gather_expansions(alloc, &numbers.expansions[symbol], tokens, table)?;
    }
    Ok(())
}

// The entries of a table, as items by number.
fn items_of<L: Lookahead>(
    alloc: Global,
    entries: Vec<(usize, L)>,
) -> Result<Vec<Numbered<L>>, OutOfMemory>
    ensures { IfOk result (λ items. items.items ≡ map numbered_of entries.items) }
{
    let mut items = Vec::with_capacity(alloc, entries.len())?;
    for (number, lookahead) in entries {
        items.push(Numbered { number, lookahead })?;
    }
    Ok(items)
}

/// The items of the closure of a kernel, with their tokens, by rising number. `work` is memory that
/// is reused from state to state. `OutOfMemory` if an allocation fails.
pub fn closure<'grammar, L: LookaheadBuild>(
    alloc: Global,
    lr: &Lr<'grammar, L>,
    numbers: &Numbers<'grammar>,
    kernel: &[Numbered<L>],
    work: &mut Workspace<L>,
) -> Result<Vec<Numbered<L>>, OutOfMemory>
    requires numbers { AreNumbers lr.now.construction.rules numbers.now }
    requires known { AreNumbered numbers.now.items.items kernel.now }
    requires kernel { AreItemsBy L.meaning lr.now.construction.rules
        (items_by numbers.now.items.items kernel.now) }
    ensures known { IfOk result (λ items. AreNumbered numbers.now.items.items items.items) }
    ensures closed { IfOk result (λ items. IsClosureBy L.meaning L.begins L.passes
        lr.now.construction.rules (items_by numbers.now.items.items kernel.now)
        (items_by numbers.now.items.items items.items)) }
{
    propagate_all(
        alloc,
        lr,
        numbers,
        kernel,
        &mut work.shared,
        &mut work.queue,
    )?;
    work.items.clear();
    gather_kernel(alloc, kernel, &mut work.items)?;
    let shared = work.shared.take_all(alloc)?;
    gather_nonterminals(alloc, numbers, shared, &mut work.items)?;
    let entries = work.items.take_rising(alloc)?;
    items_of(alloc, entries)
}
