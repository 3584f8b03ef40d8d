//! Summaries of the items of a state: symbols on top of the stack, symbols that are expected, and
//! the nonterminal that will be produced.
ghost use Rattle.std.specs.Prelude.{◌≡◌, ◌<◌, ◌↔◌, ℕ, length, map, slice_get, option_copied, IfOk, IfSome, IsNone, IsTrue, Some};
ghost use Rattle.lalrpop_collections.specs.lists.Each.{EachItem};
ghost use Rattle.lalrpop_states.specs.states.ViewFolds.{longer_of, shorter_of};
ghost use Rattle.lalrpop_states.specs.states.Views.{IsLastLongest, IsFirstShortestOrEmpty, IsOneName, prefix_of, rest_of, nonterminal_of, moved};

use super::item::Item;
use super::state::State;
use lalrpop_collections::exact::equal;
use lalrpop_collections::memory::OutOfMemory;
use lalrpop_grammar::repr::{NonterminalString, Symbol};
use std::alloc::Global;

impl<'grammar, L> State<'grammar, L> {
    /// The longest list of symbols before a dot among the items, or the last of several longest
    /// ones. The state must have an item.
    pub fn max_prefix(&self) -> &'grammar [Symbol]
        requires some { 0 < length self.now.items.vec.items }
        ensures longest { IsLastLongest (map prefix_of self.now.items.vec.items) result.now }
    {
        let mut best = self.items.vec[0].prefix();
        for item in self.items.vec.iter() {
            best = longer(best, item.prefix());
        }
        best
    }

    /// The shortest list of symbols before the dot among the items whose dot is past the start, or
    /// the first of several shortest ones. The list is empty if there is no such item.
    pub fn will_pop(&self) -> &'grammar [Symbol]
        ensures shortest { IsFirstShortestOrEmpty (map prefix_of (moved self.now.items.vec.items))
            result.now }
    {
        let mut best: Option<&'grammar [Symbol]> = None;
        for item in self.items.vec.iter() {
            if item.index > 0 {
                best = shorter(best, item.prefix());
            }
        }
        match best {
            Some(list) => list,
            None => &[],
        }
    }

    /// The shortest list of symbols after the dot among the items whose dot is past the start, or
    /// the first of several shortest ones. The list is empty if there is no such item.
    pub fn will_push(&self) -> &'grammar [Symbol]
        ensures shortest { IsFirstShortestOrEmpty (map rest_of (moved self.now.items.vec.items))
            result.now }
    {
        let mut best: Option<&'grammar [Symbol]> = None;
        for item in self.items.vec.iter() {
            if item.index > 0 {
                best = shorter(best, item.rest());
            }
        }
        match best {
            Some(list) => list,
            None => &[],
        }
    }

    /// The nonterminal that all items whose dot is past the start produce. `None` if they produce
    /// several or there is no such item; `OutOfMemory` if an allocation fails.
    pub fn will_produce(&self, alloc: Global) -> Result<Option<NonterminalString>, OutOfMemory>
        ensures one { IfOk result (IsOneName (map nonterminal_of (moved self.now.items.vec.items))) }
    {
        let items = self.items.vec.as_slice();
        match first_moved(items) {
            Some(item) => {
                if have_name(items, &item.production.nonterminal) {
                    return Ok(Some(item.production.nonterminal.clone(alloc)?));
                }
                Ok(None)
            }
            None => Ok(None),
        }
    }
}

// The longer of two lists, or the second if both have the same length.
fn longer<'a>(best: &'a [Symbol], next: &'a [Symbol]) -> &'a [Symbol]
    ensures { result.now ≡ longer_of best.now next.now }
{
    if next.len() < best.len() { best } else { next }
}

// The shorter of two lists, or the first if both have the same length. The result is the second
// list if there is no first one.
fn shorter<'a>(best: Option<&'a [Symbol]>, next: &'a [Symbol]) -> Option<&'a [Symbol]>
    ensures { option_copied result ≡ shorter_of (option_copied best.entry) next.now }
{
    match best {
        Some(list) => {
            if next.len() < list.len() {
                Some(next)
            } else {
                Some(list)
            }
        }
        None => Some(next),
    }
}

// The first item whose dot is past the start, if there is one.
fn first_moved<'a, 'grammar, L>(items: &'a [Item<'grammar, L>]) -> Option<&'a Item<'grammar, L>>
    ensures found { IfSome result
        (λ item. (k : ℕ) × (slice_get items.now k ≡ Some item.now) × (0 < item.now.index)) }
    ensures none { IsNone result → EachItem (λ item. item.index ≡ 0) items.now }
{
    for item in items {
        if item.index > 0 {
            return Some(item);
        }
    }
    None
}

// Whether all items whose dot is past the start produce the nonterminal.
fn have_name<'grammar, L>(items: &[Item<'grammar, L>], name: &NonterminalString) -> bool
    ensures { IsTrue result ↔ EachItem
        (λ item. 0 < item.index → item.production.nonterminal ≡ name.now) items.now }
{
    for item in items {
        if item.index > 0 && !equal(&item.production.nonterminal, name) {
            return false;
        }
    }
    true
}
