//! A depth first walk from marked nonterminals to those that they mention, with a stack of its own.
ghost use Rattle.std.specs.Prelude.{◌≡◌, ◌≤◌, ◌+◌, ◌*◌, ◌++◌, [], ◌∷◌, true, false, List, None, Some, reverse, IfOk, OnOk, IfErr, Contains, length};
ghost use Rattle.std.specs.BTreeMap.{get};
ghost use Rattle.std.specs.List.{flat_map};
ghost use Rattle.std.specs.BTreeSet.{contains};
ghost use Rattle.lalrpop_base.specs.Words.{name_cmp};
ghost use Rattle.lalrpop_grammar.specs.declared.repr.NonterminalString.{NonterminalString};
ghost use Rattle.lalrpop_inline.specs.inlining.InlineOrder.{IsMarked, IsCycleOf, HasSpan};
ghost use Rattle.lalrpop_inline.specs.inlining.InlineMeetings.{ComesBack, ComesBackFrom, GoesPast, IsInside, IsMetName, IsNewest, ComesBackToAllOf, NamesBy, with_next};
ghost use Rattle.lalrpop_inline.specs.inlining.InlineWalks.{mentioned_in, nonterminal_names, IsWalk, IsFrame, HasFrames, HasNext, IsWalked, LeadTo};

use lalrpop_base::memory::OutOfMemory;
use lalrpop_base::repr::grammar::Grammar;
use lalrpop_base::repr::norm_error::{NormError, NormResult};
use lalrpop_base::repr::{NonterminalString, Production, Span, Symbol};
use std::alloc::Global;
use std::collections::BTreeSet;

/// The progress of a walk. `pending` has the marked nonterminals that it has not reached, and
/// `visiting` those that it is in. `order` has those that it has left, in that order.
#[derive(Drop)]
pub struct Walk {
    pub pending: BTreeSet<NonterminalString>,
    pub visiting: BTreeSet<NonterminalString>,
    pub order: Vec<NonterminalString>,
}

/// A nonterminal that a walk is in, and the nonterminals that it mentions and that are still to be
/// visited. The next one to visit is the last.
#[derive(Drop)]
pub struct Frame {
    pub name: NonterminalString,
    pub others: Vec<NonterminalString>,
}

// Adds the nonterminals among symbols.
fn push_names(
    alloc: Global,
    symbols: &[Symbol],
    names: &mut Vec<NonterminalString>,
) -> Result<(), OutOfMemory>
    ensures { OnOk result (names.new.items ≡
        names.old.items ++ flat_map nonterminal_names symbols.now) }
{
    for symbol in symbols {
        if let Symbol::Nonterminal(name) = symbol {
            names.push(name.clone(alloc)?)?;
        }
    }
    Ok(())
}

// The nonterminals that productions mention, once for each mention, in the order of the mentions.
fn mentioned(
    alloc: Global,
    productions: &[Production],
) -> Result<Vec<NonterminalString>, OutOfMemory>
    ensures { IfOk result (λ names. names.items ≡ mentioned_in productions.now) }
{
    let mut names = Vec::new(alloc);
    for production in productions {
        push_names(alloc, production.symbols.as_slice(), &mut names)?;
    }
    Ok(names)
}

// The span of a nonterminal's entry, or `Span(0, 0)` if it has no entry.
fn span_of(grammar: &Grammar, name: &NonterminalString) -> Span
    ensures { IsMarked grammar.now name.now →
        HasSpan (get name_cmp grammar.now.nonterminals name.now) result }
{
    match grammar.nonterminals.get(name) {
        Some(entry) => entry.span,
        None => Span(0, 0),
    }
}

// Reports a cycle if the walk is in the nonterminal. The nonterminal is not pending.
fn meet(alloc: Global, grammar: &Grammar, name: &NonterminalString, walk: &Walk) -> NormResult<()>
    ensures left { OnOk result (contains name_cmp walk.now.visiting name.now ≡ false) }
    ensures refused { IfErr result
        (λ e. LeadTo grammar.now walk.now name.now → IsCycleOf grammar.now e) }
    ensures met { IfErr result (NamesBy (IsMetName walk.now name.now)) }
{
    if walk.visiting.contains(name) {
        return Err(NormError::Cycle {
            span: span_of(grammar, name),
            name: name.clone(alloc)?,
        });
    }
    Ok(())
}

// The next pending one of the nonterminals that the frame mentions. Those before it are taken from
// the frame. If the walk is in one of them, there is a cycle.
fn next_pending(
    alloc: Global,
    grammar: &Grammar,
    walk: &Walk,
    frame: &mut Frame,
) -> NormResult<Option<NonterminalString>>
    requires walk { IsWalk grammar.now walk.now }
    requires frame { IsFrame grammar.now walk.now.order.items None frame.now }
    requires lead { (c : NonterminalString) →
        Contains frame.now.others.items c →
        LeadTo grammar.now walk.now c }
    ensures name { frame.new.name ≡ frame.old.name }
    ensures next { IfOk result (HasNext grammar.now walk.now frame.new) }
    ensures past { IfOk result (λ next. (path : List NonterminalString) →
        IsInside walk.now path →
        GoesPast grammar.now path walk.now.order.items (reverse frame.old.others.items)
        (with_next next (reverse frame.new.others.items))) }
    ensures refused { IfErr result (IsCycleOf grammar.now) }
    ensures met { IfErr result (NamesBy (λ name. (path : List NonterminalString) →
        IsInside walk.now path →
        ComesBack grammar.now path (reverse frame.old.others.items) walk.now.order.items name)) }
{
    while let Some(other) = frame.others.pop() {
        if walk.pending.contains(&other) {
            return Ok(Some(other));
        }
        meet(alloc, grammar, &other, walk)?;
    }
    Ok(None)
}

// Begins to visit a pending nonterminal, and adds a frame for it.
fn enter(
    alloc: Global,
    grammar: &Grammar,
    name: NonterminalString,
    walk: &mut Walk,
    frames: &mut Vec<Frame>,
) -> Result<(), OutOfMemory>
    requires walk { IsWalk grammar.now walk.now }
    requires pending { contains name_cmp walk.now.pending name ≡ true }
    requires frames { HasFrames grammar.now walk.now (Some name) (reverse frames.now.items) }
    ensures walked { OnOk result
        (IsWalked grammar.now walk.old walk.new (reverse frames.new.items)) }
    ensures taken { contains name_cmp walk.new.pending name ≡ false }
    ensures fewer { length walk.new.pending.keys + 1 ≡ length walk.old.pending.keys }
    ensures more { OnOk result (length frames.new.items ≡ length frames.old.items + 1) }
    ensures newest { OnOk result
        (IsNewest grammar.now name (reverse frames.old.items) (reverse frames.new.items)) }
    ensures order { OnOk result (walk.new.order.items ≡ walk.old.order.items) }
{
    walk.pending.remove(&name);
    walk.visiting.insert(name.clone(alloc)?)?;
    let others = mentioned(alloc, grammar.productions_for(&name))?;
    frames.push(Frame { name, others })?;
    Ok(())
}

// Begins to visit the next pending nonterminal that the frame mentions. If there is none, the walk
// leaves the nonterminal of the frame and lists it. The frame was the newest one.
fn step(
    alloc: Global,
    grammar: &Grammar,
    mut frame: Frame,
    walk: &mut Walk,
    frames: &mut Vec<Frame>,
) -> NormResult<()>
    requires walk { IsWalk grammar.now walk.now }
    requires frames { HasFrames grammar.now walk.now None (frame ∷ reverse frames.now.items) }
    ensures walked { OnOk result
        (IsWalked grammar.now walk.old walk.new (reverse frames.new.items)) }
    ensures falls { OnOk result (2 * length walk.new.pending.keys + length frames.new.items ≤
        2 * length walk.old.pending.keys + length frames.old.items) }
    ensures back { OnOk result (ComesBackToAllOf grammar.now (frame ∷ reverse frames.old.items)
        walk.old.order.items (reverse frames.new.items) walk.new.order.items) }
    ensures refused { IfErr result (IsCycleOf grammar.now) }
    ensures met { IfErr result (NamesBy (λ name. (rest : List NonterminalString) →
        ComesBackFrom grammar.now rest (frame ∷ reverse frames.old.items) walk.old.order.items
        name)) }
{
    if let Some(name) = next_pending(alloc, grammar, walk, &mut frame)? {
        frames.push(frame)?;
        enter(alloc, grammar, name, walk, frames)?;
        return Ok(());
    }
    walk.visiting.remove(&frame.name);
    walk.order.push(frame.name)?;
    Ok(())
}

/// Visits a nonterminal, if it is pending, and what it leads to. Each nonterminal is listed when
/// the walk leaves it.
pub(super) fn walk_from(
    alloc: Global,
    grammar: &Grammar,
    name: &NonterminalString,
    walk: &mut Walk,
) -> NormResult<()>
    requires walk { IsWalk grammar.now walk.now }
    requires outside { HasFrames grammar.now walk.now None [] }
    ensures walked { OnOk result (IsWalked grammar.now walk.old walk.new []) }
    ensures left { OnOk result (contains name_cmp walk.new.pending name.now ≡ false) }
    ensures back { OnOk result ((rest : List NonterminalString) →
        (b : NonterminalString) →
        ComesBack grammar.now [] rest walk.new.order.items b →
        ComesBack grammar.now [] (name.now ∷ rest) walk.old.order.items b) }
    ensures refused { IfErr result (IsCycleOf grammar.now) }
    ensures met { IfErr result (NamesBy (λ b. (rest : List NonterminalString) →
        ComesBack grammar.now [] (name.now ∷ rest) walk.old.order.items b)) }
{
    if !walk.pending.contains(name) {
        return Ok(());
    }
    let mut frames = Vec::new(alloc);
    enter(alloc, grammar, name.clone(alloc)?, walk, &mut frames)?;
    while let Some(frame) = frames.pop() {
        step(alloc, grammar, frame, walk, &mut frames)?;
    }
    Ok(())
}
