//! The closure of a kernel, with sets of tokens by number.
//!
//! A closure adds all productions of a nonterminal, with the dot at the start and the same tokens.
//! So the number of the set is kept once for each nonterminal, until the items are made.
ghost use Rattle.std.specs.Prelude.{◌≡◌, ◌<◌, ◌≤◌, ◌∷◌, [], ℕ, IfOk, OnOk, Contains, Some, length, slice_get};
ghost use Rattle.std.specs.Map.{keys_of};
ghost use Rattle.lalrpop_base.specs.Words.{AreItems, AreNumbered, AreNumbers, item_by, items_by, readings};
ghost use Rattle.lalrpop_collections.specs.lists.Entries.{IsJoinedAt};
ghost use Rattle.lalrpop_collections.specs.lists.Places.{AllDiffer};
ghost use Rattle.lalrpop_construction.specs.closures.Propagation.{expansions_in, parts_in, unfolded, with_tokens};
ghost use Rattle.lalrpop_states.specs.closures.Closure.{itself};
ghost use Rattle.canonical_by_number.specs.TokenSets.{AreSetsIn, KeepsNumbers, set_at};
ghost use Rattle.canonical_by_number.specs.Closures.{AreFirsts, ArePackedIn, GathersNumbers, IsNumberedClosure, IsNumberedPropagation, PropagatesNumbers, given_set, kernel_in};

use crate::number_map::NumberMap;
use crate::token_sets::TokenSets;
use lalrpop_base::collections::queue::Queue;
use lalrpop_base::lookahead::token_set::TokenSet;
use lalrpop_base::memory::OutOfMemory;
use lalrpop_base::numbers::Numbers;
use lalrpop_construction::construction::lr::Lr;
use std::alloc::Global;

// The number of the set of tokens that an item gives to the nonterminal after its dot: FIRST of the
// symbols after it and, if these symbols are nullable, the tokens of the item.
fn given_number(
    alloc: Global,
    sets: &mut TokenSets,
    first: usize,
    nullable: bool,
    tokens: usize,
) -> Result<usize, OutOfMemory>
    requires first { first < length sets.old }
    requires tokens { tokens < length sets.old }
    ensures kept { OnOk result (KeepsNumbers sets.old sets.new) }
    ensures given { IfOk result (λ number. slice_get sets.new number ≡
        Some (given_set nullable (set_at sets.old first) (set_at sets.old tokens))) }
{
    if !nullable {
        return Ok(first);
    }
    let given = sets.union(alloc, first, tokens)?;
    Ok(given)
}

// Adds these tokens to those of the nonterminal with the number `symbol`. Returns whether that
// number is new, or has more tokens than before.
fn give(
    alloc: Global,
    sets: &mut TokenSets,
    first: usize,
    nullable: bool,
    tokens: usize,
    symbol: usize,
    shared: &mut NumberMap,
) -> Result<bool, OutOfMemory>
    requires known { AreSetsIn sets.old shared.old }
    requires first { first < length sets.old }
    requires tokens { tokens < length sets.old }
    ensures kept { OnOk result (KeepsNumbers sets.old sets.new) }
    ensures known { OnOk result (AreSetsIn sets.new shared.new) }
    ensures given { IfOk result (λ changed. IsJoinedAt symbol
        (given_set nullable (set_at sets.old first) (set_at sets.old tokens)) changed
        (readings (set_at sets.old) shared.old) (readings (set_at sets.new) shared.new)) }
    ensures differ { OnOk result (AllDiffer (keys_of shared.new)) }
{
    let given = given_number(alloc, sets, first, nullable, tokens)?;
    let changed = shared.join(alloc, sets, symbol, given)?;
    Ok(changed)
}

// Adds the tokens that an item gives to the nonterminal after its dot. The nonterminal goes into
// the queue if it is new or has more tokens than before.
fn propagate<'grammar>(
    alloc: Global,
    lr: &Lr<'grammar, TokenSet>,
    numbers: &Numbers<'grammar>,
    firsts: &[usize],
    sets: &mut TokenSets,
    number: usize,
    tokens: usize,
    shared: &mut NumberMap,
    queue: &mut Queue,
) -> Result<(), OutOfMemory>
    requires numbers { AreNumbers lr.now.construction.rules numbers.now }
    requires firsts { AreFirsts numbers.now sets.old firsts.now }
    requires known { number < length numbers.now.items.items }
    requires tokens { tokens < length sets.old }
    requires shared { AreSetsIn sets.old shared.old }
    requires limit { length numbers.now.symbols.items ≤ queue.old.limit }
    ensures limit { queue.new.limit ≡ queue.old.limit }
    ensures shares { OnOk result (PropagatesNumbers lr.now.construction.rules numbers.now
        (item_by numbers.now.items.items (record
        { number = number; lookahead = set_at sets.old tokens }) ∷ [])
        sets.old sets.new shared.old shared.new queue.old.numbers queue.new.numbers) }
{
    let Some(suffix) = &numbers.suffixes[number] else {
        return Ok(());
    };
    let Some(symbol) = numbers.behind[number] else {
        return Ok(());
    };
    let _grammar = lr.grammar();
    let first = firsts[number];
    if give(alloc, sets, first, suffix.nullable, tokens, symbol, shared)? {
        queue.add(symbol)?;
    }
    Ok(())
}

// Adds the tokens that the items of a kernel give.
fn propagate_kernel<'grammar>(
    alloc: Global,
    lr: &Lr<'grammar, TokenSet>,
    numbers: &Numbers<'grammar>,
    firsts: &[usize],
    sets: &mut TokenSets,
    kernel: &[u64],
    shared: &mut NumberMap,
    queue: &mut Queue,
) -> Result<(), OutOfMemory>
    requires numbers { AreNumbers lr.now.construction.rules numbers.now }
    requires firsts { AreFirsts numbers.now sets.old firsts.now }
    requires known { AreNumbered numbers.now.items.items (kernel_in sets.old kernel.now) }
    requires packed { ArePackedIn sets.old kernel.now }
    requires shared { AreSetsIn sets.old shared.old }
    requires limit { length numbers.now.symbols.items ≤ queue.old.limit }
    ensures limit { queue.new.limit ≡ queue.old.limit }
    ensures shares { OnOk result (PropagatesNumbers lr.now.construction.rules numbers.now
        (items_by numbers.now.items.items (kernel_in sets.old kernel.now))
        sets.old sets.new shared.old shared.new queue.old.numbers queue.new.numbers) }
{
    for packed in kernel {
        let number = (*packed / 4294967296) as usize;
        let tokens = (*packed % 4294967296) as usize;
        propagate(
            alloc, lr, numbers, firsts, sets, number, tokens, shared, queue,
        )?;
    }
    Ok(())
}

// Adds the tokens that the productions of a nonterminal give. `expansions` has the numbers of these
// productions with the dot at the start, and `tokens` is the set of the nonterminal.
fn propagate_expansions<'grammar>(
    alloc: Global,
    lr: &Lr<'grammar, TokenSet>,
    numbers: &Numbers<'grammar>,
    firsts: &[usize],
    sets: &mut TokenSets,
    expansions: &[usize],
    tokens: usize,
    shared: &mut NumberMap,
    queue: &mut Queue,
) -> Result<(), OutOfMemory>
    requires numbers { AreNumbers lr.now.construction.rules numbers.now }
    requires firsts { AreFirsts numbers.now sets.old firsts.now }
    requires known { AreNumbered numbers.now.items.items
        (expansions_in (set_at sets.old tokens) expansions.now) }
    requires tokens { tokens < length sets.old }
    requires shared { AreSetsIn sets.old shared.old }
    requires limit { length numbers.now.symbols.items ≤ queue.old.limit }
    ensures limit { queue.new.limit ≡ queue.old.limit }
    ensures shares { OnOk result (PropagatesNumbers lr.now.construction.rules numbers.now
        (items_by numbers.now.items.items
        (expansions_in (set_at sets.old tokens) expansions.now))
        sets.old sets.new shared.old shared.new queue.old.numbers queue.new.numbers) }
{
    for number in expansions {
        propagate(
            alloc, lr, numbers, firsts, sets, *number, tokens, shared, queue,
        )?;
    }
    Ok(())
}

// Fills `shared` with the sets that the nonterminals of the closure of a kernel get.
fn propagate_all<'grammar>(
    alloc: Global,
    lr: &Lr<'grammar, TokenSet>,
    numbers: &Numbers<'grammar>,
    firsts: &[usize],
    sets: &mut TokenSets,
    kernel: &[u64],
    shared: &mut NumberMap,
    queue: &mut Queue,
) -> Result<(), OutOfMemory>
    requires numbers { AreNumbers lr.now.construction.rules numbers.now }
    requires firsts { AreFirsts numbers.now sets.old firsts.now }
    requires known { AreNumbered numbers.now.items.items (kernel_in sets.old kernel.now) }
    requires packed { ArePackedIn sets.old kernel.now }
    requires kernel { AreItems lr.now.construction.rules
        (items_by numbers.now.items.items (kernel_in sets.old kernel.now)) }
    ensures kept { OnOk result (KeepsNumbers sets.old sets.new) }
    ensures known { OnOk result (AreSetsIn sets.new shared.new) }
    ensures shares { OnOk result (IsNumberedPropagation lr.now.construction.rules numbers.now
        (items_by numbers.now.items.items (kernel_in sets.old kernel.now))
        sets.new shared.new []) }
{
    shared.clear();
    queue.restart(numbers.symbols.len())?;
    propagate_kernel(alloc, lr, numbers, firsts, sets, kernel, shared, queue)?;
    while let Some(symbol) = queue.take() {
        if let Some(tokens) = shared.get(symbol) {
            let expansions = &numbers.expansions[symbol];
            propagate_expansions(
                alloc, lr, numbers, firsts, sets, expansions, tokens, shared, queue,
            )?;
        }
    }
    Ok(())
}

// Adds the items of a kernel to the table.
fn gather_kernel(
    alloc: Global,
    sets: &mut TokenSets,
    kernel: &[u64],
    table: &mut NumberMap,
) -> Result<(), OutOfMemory>
    requires packed { ArePackedIn sets.old kernel.now }
    requires table { AreSetsIn sets.old table.old }
    ensures { OnOk result (GathersNumbers (parts_in itself (kernel_in sets.old kernel.now))
        sets.old sets.new table.old table.new) }
{
    for packed in kernel {
        let number = (*packed / 4294967296) as usize;
        let tokens = (*packed % 4294967296) as usize;
        table.join(alloc, sets, number, tokens)?;
    }
    Ok(())
}

// Adds the productions of a nonterminal to the table, with the dot at the start and the set.
fn gather_expansions(
    alloc: Global,
    sets: &mut TokenSets,
    expansions: &[usize],
    tokens: usize,
    table: &mut NumberMap,
) -> Result<(), OutOfMemory>
    requires tokens { tokens < length sets.old }
    requires table { AreSetsIn sets.old table.old }
    ensures { OnOk result (GathersNumbers (with_tokens (set_at sets.old tokens) expansions.now)
        sets.old sets.new table.old table.new) }
{
    for number in expansions {
        table.join(alloc, sets, *number, tokens)?;
    }
    Ok(())
}

// Adds the productions of all nonterminals of a closure to the table.
fn gather_nonterminals<'grammar>(
    alloc: Global,
    numbers: &Numbers<'grammar>,
    sets: &mut TokenSets,
    shared: &[(usize, usize)],
    table: &mut NumberMap,
) -> Result<(), OutOfMemory>
    requires numbered { (e : ℕ × ℕ) →
        Contains shared.now e →
        e.0 < length numbers.now.expansions.items }
    requires shared { AreSetsIn sets.old shared.now }
    requires table { AreSetsIn sets.old table.old }
    ensures { OnOk result (GathersNumbers
        (unfolded numbers.now (readings (set_at sets.old) shared.now))
        sets.old sets.new table.old table.new) }
{
    for entry in shared {
        gather_expansions(alloc, sets, &numbers.expansions[entry.0], entry.1, table)?;
    }
    Ok(())
}

/// Memory that closures reuse.
///
/// - `shared`: the set of each nonterminal of a closure.
/// - `queue`: the nonterminals whose tokens are not passed on yet.
/// - `rising`: the nonterminals by rising number, each with its set.
/// - `table`: the set of each item of the closure.
#[derive(Drop)]
pub struct ClosureMemory {
    pub shared: NumberMap,
    pub queue: Queue,
    pub rising: Vec<(usize, usize)>,
    pub table: NumberMap,
}

impl ClosureMemory {
    /// Memory for closures, which is empty.
    pub fn new(alloc: Global) -> Self {
        ClosureMemory {
            shared: NumberMap::new(alloc),
            queue: Queue::new(alloc),
            rising: Vec::new(alloc),
            table: NumberMap::new(alloc),
        }
    }
}

/// Replaces the contents of `list` by the items of the closure of a kernel, by rising number. Each
/// has the number of its set. `work` is memory that is reused from state to state. `OutOfMemory`
/// if an allocation fails, or if there are too many sets.
pub fn closure<'grammar>(
    alloc: Global,
    lr: &Lr<'grammar, TokenSet>,
    numbers: &Numbers<'grammar>,
    firsts: &[usize],
    sets: &mut TokenSets,
    kernel: &[u64],
    work: &mut ClosureMemory,
    list: &mut Vec<(usize, usize)>,
) -> Result<(), OutOfMemory>
    requires numbers { AreNumbers lr.now.construction.rules numbers.now }
    requires firsts { AreFirsts numbers.now sets.old firsts.now }
    requires known { AreNumbered numbers.now.items.items (kernel_in sets.old kernel.now) }
    requires packed { ArePackedIn sets.old kernel.now }
    requires kernel { AreItems lr.now.construction.rules
        (items_by numbers.now.items.items (kernel_in sets.old kernel.now)) }
    ensures kept { OnOk result (KeepsNumbers sets.old sets.new) }
    ensures closed { OnOk result (IsNumberedClosure lr.now.construction.rules numbers.now
        (items_by numbers.now.items.items (kernel_in sets.old kernel.now))
        sets.new list.new.items) }
{
    propagate_all(
        alloc,
        lr,
        numbers,
        firsts,
        sets,
        kernel,
        &mut work.shared,
        &mut work.queue,
    )?;
    work.shared.take_rising(&mut work.rising)?;
    work.table.clear();
    gather_kernel(alloc, sets, kernel, &mut work.table)?;
    gather_nonterminals(alloc, numbers, sets, &work.rising, &mut work.table)?;
    work.table.take_rising(list)?;
    Ok(())
}
