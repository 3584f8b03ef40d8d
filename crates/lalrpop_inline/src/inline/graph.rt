//! The order in which marked nonterminals are inlined. A depth first walk goes from a nonterminal
//! to those that it mentions. It lists each marked nonterminal when it leaves it.
mod depth_first;

ghost use Rattle.std.specs.Prelude.{◌≡◌, ◌↔◌, true, IsTrue, IfOk, OnOk, IfErr, Contains};
ghost use Rattle.std.specs.BTreeSet.{contains};
ghost use Rattle.lalrpop_base.specs.Words.{name_cmp, inline_mark};
ghost use Rattle.lalrpop_grammar.specs.declared.repr.NonterminalString.{NonterminalString};
ghost use Rattle.lalrpop_inline.specs.inlining.InlineMeetings.{AreMarkedAmong, IsComeBackTo, NamesBy};
ghost use Rattle.lalrpop_inline.specs.inlining.InlineOrder.{IsMarked, IsInlineOrder, IsOnRing, IsCycleOf};

use depth_first::{Walk, walk_from};
use lalrpop_base::memory::OutOfMemory;
use lalrpop_base::repr::NonterminalString;
use lalrpop_base::repr::grammar::{Attribute, Grammar};
use lalrpop_base::repr::norm_error::NormResult;
use std::alloc::Global;
use std::collections::BTreeSet;

// Whether an attribute is the mark of a nonterminal to be inlined.
fn is_inline(attribute: &Attribute) -> bool
    ensures { IsTrue result ↔ (attribute.now ≡ inline_mark) }
{
    attribute.id.as_str() == "inline"
}

/// Whether one of the attributes is the mark of a nonterminal to be inlined.
pub fn is_marked(attributes: &[Attribute]) -> bool
    ensures { IsTrue result ↔ Contains attributes.now inline_mark }
{
    for attribute in attributes {
        if is_inline(attribute) {
            return true;
        }
    }
    false
}

// The marked nonterminals, in the order of their names.
fn marked(alloc: Global, grammar: &Grammar) -> Result<Vec<NonterminalString>, OutOfMemory>
    ensures found { IfOk result
        (λ names. (a : NonterminalString) → Contains names.items a ↔ IsMarked grammar.now a) }
    ensures among { IfOk result
        (λ names. AreMarkedAmong grammar.now.nonterminals.entries names.items) }
{
    let mut names = Vec::new(alloc);
    for (name, entry) in grammar.nonterminals.iter() {
        if is_marked(&entry.attributes) {
            names.push(name.clone(alloc)?)?;
        }
    }
    Ok(names)
}

// The names as a set.
fn set_of(
    alloc: Global,
    names: &[NonterminalString],
) -> Result<BTreeSet<NonterminalString>, OutOfMemory>
    ensures { IfOk result
        (λ set. (a : NonterminalString) → (contains name_cmp set a ≡ true) ↔ Contains names.now a) }
{
    let mut set = BTreeSet::new(alloc);
    for name in names {
        set.insert(name.clone(alloc)?)?;
    }
    Ok(set)
}

/// The marked nonterminals in an order to inline them: each after the marked ones that it mentions.
/// A depth first walk visits them in the order of their names, and those that one mentions from the
/// last mention to the first. If the walk comes back to a nonterminal that it is in, the error is
/// `Cycle` and names that one. The error is `Memory` if an allocation fails.
pub fn inline_order(alloc: Global, grammar: &Grammar) -> NormResult<Vec<NonterminalString>>
    ensures order { IfOk result (λ order. IsInlineOrder grammar.now order.items) }
    ensures acyclic { OnOk result ((a : NonterminalString) → IsOnRing grammar.now a → ⊥) }
    ensures refused { IfErr result (IsCycleOf grammar.now) }
    ensures met { IfErr result (NamesBy (IsComeBackTo grammar.now)) }
{
    let names = marked(alloc, grammar)?;
    let pending = set_of(alloc, &names)?;
    let visiting = BTreeSet::new(alloc);
    let order = Vec::new(alloc);
    let mut walk = Walk {
        pending,
        visiting,
        order,
    };
    for name in &names {
        walk_from(alloc, grammar, name, &mut walk)?;
    }
    Ok(walk.order)
}
