//! The rests of right sides after nullable names.
ghost use Rattle.std.specs.Prelude.{◌≡◌, ◌↔◌, ◌+◌, ◌<◌, ◌++◌, ℕ, List, [], Some, length, map, slice_set, IfOk, OnOk, Contains};
ghost use Rattle.std.specs.Map.{keys_of};
ghost use Rattle.lalrpop_grammar.specs.declared.repr.Symbol.{Symbol};
ghost use Rattle.lalrpop_grammar.specs.grammars.WellFormed.{IsWellFormed, productions};
ghost use Rattle.lalrpop_grammar.specs.first.FirstRests.{AreRests, IsPassed, IsReleased, IsListedOrPending, right_side, pending_at};

use super::names::Names;
use crate::repr::grammar::Grammar;
use crate::repr::{Production, Symbol};
use lalrpop_collections::memory::OutOfMemory;
use lalrpop_collections::sequence::Sequence;
use std::alloc::Global;
use std::marker::Model;
use std::mem::replace;

// What is left of a right side after nullable names, with the number of the name of its production.
// Clauses see it as the pair of both.
#[derive(Drop)]
pub(super) struct Rest<'grammar> {
    name: usize,
    symbols: &'grammar [Symbol],
}

impl<'grammar> Model for Rest<'grammar> {
    ghost use Rattle.std.specs.Prelude.{ℕ, List};
    ghost use Rattle.lalrpop_grammar.specs.declared.repr.Symbol.{Symbol};

    ghost Value = { ℕ × List Symbol };

    ghost view = { λ r. (r.name, r.symbols.now) };
}

impl<'grammar> Rest<'grammar> {
    // The number and the symbols.
    pub(super) fn parts(&self) -> (usize, &'grammar [Symbol])
        ensures name { result.0 ≡ self.now.0 }
        ensures symbols { result.1.now ≡ self.now.1 }
    {
        (self.name, self.symbols)
    }
}

// For each name the rests that wait until it is nullable. A nullable name has no list. All names
// without an entry share the last list.
type Pending<'grammar> = Vec<Option<Sequence<Rest<'grammar>>>>;

// All rests of the right sides of a grammar. Each is listed when the name before it turns out to be
// nullable.
pub(super) fn rests_of<'grammar>(
    alloc: Global,
    grammar: &'grammar Grammar,
    names: &Names,
) -> Result<Vec<Rest<'grammar>>, OutOfMemory>
    requires formed { IsWellFormed grammar.now }
    requires names { names.now ≡ keys_of grammar.now.nonterminals.entries }
    ensures { IfOk result
        (λ rests. AreRests (productions grammar.now) names.now rests.items) }
{
    let mut rests = right_sides(alloc, grammar, names)?;
    let mut pending = empty_lists(alloc, names.count())?;
    let mut next = 0;
    while next < rests.len() {
        let (name, symbols) = rests[next].parts();
        pass(names, name, symbols, &mut rests, &mut pending)?;
        next += 1;
    }
    Ok(rests)
}

// The right sides of all productions.
fn right_sides<'grammar>(
    alloc: Global,
    grammar: &'grammar Grammar,
    names: &Names,
) -> Result<Vec<Rest<'grammar>>, OutOfMemory>
    ensures { IfOk result
        (λ rests. rests.items ≡ map (right_side names.now) (productions grammar.now)) }
{
    let mut rests = Vec::new(alloc);
    for (_name, entry) in grammar.nonterminals.iter() {
        add_right_sides(names, &entry.productions, &mut rests)?;
    }
    Ok(rests)
}

// Appends the right sides of some productions.
fn add_right_sides<'grammar>(
    names: &Names,
    productions: &'grammar [Production],
    rests: &mut Vec<Rest<'grammar>>,
) -> Result<(), OutOfMemory>
    ensures { OnOk result
        (rests.new.items ≡ rests.old.items ++ map (right_side names.now) productions.now) }
{
    for production in productions {
        rests.push(Rest {
            name: names.number(&production.nonterminal),
            symbols: production.symbols.as_slice(),
        })?;
    }
    Ok(())
}

// An empty list for each number below a count.
fn empty_lists<'grammar>(alloc: Global, count: usize) -> Result<Pending<'grammar>, OutOfMemory>
    ensures count { IfOk result (λ pending. length pending.items ≡ count) }
    ensures empty { IfOk result (λ pending. (n : ℕ) → pending_at pending.items n ≡ Some []) }
{
    let mut pending = Vec::with_capacity(alloc, count)?;
    for _name in 0..count {
        pending.push(Some(Sequence::new(alloc)))?;
    }
    Ok(pending)
}

// Goes on from a rest. The name of an empty rest is nullable. What follows a name is a rest if the
// name is nullable.
fn pass<'grammar>(
    names: &Names,
    name: usize,
    symbols: &'grammar [Symbol],
    rests: &mut Vec<Rest<'grammar>>,
    pending: &mut Pending<'grammar>,
) -> Result<(), OutOfMemory>
    requires counted { length pending.old.items ≡ length names.now + 1 }
    requires within { name < length pending.old.items }
    ensures { OnOk result (IsPassed names.now name symbols.now rests.old.items rests.new.items
        pending.old.items pending.new.items) }
{
    let Some((first, after)) = symbols.split_first() else {
        return release(name, rests, pending);
    };
    match first {
        Symbol::Terminal(_) => Ok(()),
        Symbol::Nonterminal(first) => {
            let rest = Rest {
                name,
                symbols: after,
            };
            list_or_put_off(names.number(first), rest, rests, pending)
        }
    }
}

// Lists the rests that wait for a name, which is nullable.
fn release<'grammar>(
    name: usize,
    rests: &mut Vec<Rest<'grammar>>,
    pending: &mut Pending<'grammar>,
) -> Result<(), OutOfMemory>
    requires { name < length pending.old.items }
    ensures { OnOk result (IsReleased name rests.old.items rests.new.items
        pending.old.items pending.new.items) }
{
    match replace(&mut pending[name], None) {
        Some(list) => {
            let mut list = list.into_vec();
            rests.append(&mut list)?;
            Ok(())
        }
        None => Ok(()),
    }
}

// Lists a rest if the name before it is nullable. Otherwise the rest waits for the name.
fn list_or_put_off<'grammar>(
    name: usize,
    rest: Rest<'grammar>,
    rests: &mut Vec<Rest<'grammar>>,
    pending: &mut Pending<'grammar>,
) -> Result<(), OutOfMemory>
    requires { name < length pending.old.items }
    ensures { OnOk result (IsListedOrPending name rest.entry rests.old.items rests.new.items
        pending.old.items pending.new.items) }
{
    match replace(&mut pending[name], None) {
        Some(mut list) => {
            list.push(rest)?;
            pending[name] = Some(list);
            Ok(())
        }
        None => {
            rests.push(rest)?;
            Ok(())
        }
    }
}
