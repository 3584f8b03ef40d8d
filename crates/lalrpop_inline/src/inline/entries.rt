//! Inlines one nonterminal into the entries of a grammar that mention it.
ghost use Rattle.std.specs.Prelude.{◌≡◌, IfOk, OnOk, IfErr, Contains, length, map};
ghost use Rattle.std.specs.BTreeMap.{IsOrdered};
ghost use Rattle.std.specs.List.Sorted.{IsStrictlySortedBy};
ghost use Rattle.lalrpop_base.specs.Words.{name_cmp};
ghost use Rattle.lalrpop_grammar.specs.declared.repr.NonterminalString.{NonterminalString};
ghost use Rattle.lalrpop_inline.specs.inlining.InlineSteps.{replaced_all, named_entry, view_with, view_of, IsEntryReplaced, inlined_of};
ghost use Rattle.lalrpop_inline.specs.inlining.InlineOrder.{Mentions};
ghost use Rattle.lalrpop_inline.specs.inlining.InlineUsers.{replaced_at, replaced_places};
ghost use Rattle.lalrpop_grammar.specs.grammars.Entries.{users_at};
ghost use Rattle.lalrpop_inline.specs.inlining.InlineRefusals.{IsPastLast};

use super::replace::replace_all;
use super::users::Users;
use lalrpop_base::collections::Set;
use lalrpop_base::memory::OutOfMemory;
use lalrpop_base::repr::grammar::{ActionFnDefn, Grammar, NonterminalData};
use lalrpop_base::repr::norm_error::NormResult;
use lalrpop_base::repr::{NonterminalString, Production};
use std::alloc::Global;
use std::collections::BTreeMap;
use std::mem;

// A copy of some productions.
fn clone_productions(
    alloc: Global,
    productions: &[Production],
) -> Result<Vec<Production>, OutOfMemory>
    ensures { IfOk result (λ copy. copy.items ≡ productions.now) }
{
    let mut copy = Vec::new(alloc);
    for production in productions {
        copy.push(production.clone(alloc)?)?;
    }
    Ok(copy)
}

// Inlines a nonterminal into the productions of an entry.
fn replace_entry(
    alloc: Global,
    name: &NonterminalString,
    alternatives: &[Production],
    entry: &mut NonterminalData,
    defns: &mut Vec<ActionFnDefn>,
) -> NormResult<()>
    ensures ok { OnOk result (IsEntryReplaced name.now alternatives.now entry.old
        defns.old.items entry.new defns.new.items) }
    ensures err { IfErr result (λ e. IsPastLast (length (replaced_all
        name.now alternatives.now entry.old.productions.items defns.old.items).defns) e) }
{
    let productions = mem::replace(&mut entry.productions, Vec::new(alloc));
    entry.productions = replace_all(alloc, name, alternatives, productions, defns)?;
    Ok(())
}

// Inlines a nonterminal into the productions of the entry at a place, if there is one.
fn replace_at(
    alloc: Global,
    name: &NonterminalString,
    alternatives: &[Production],
    place: &NonterminalString,
    nonterminals: &mut BTreeMap<NonterminalString, NonterminalData>,
    defns: &mut Vec<ActionFnDefn>,
) -> NormResult<()>
    ensures ok { OnOk result (view_with nonterminals.new.entries defns.new.items ≡ replaced_at
        name.now alternatives.now place.now
        (map named_entry nonterminals.old.entries) defns.old.items) }
    ensures err { IfErr result (λ e. IsPastLast (length (replaced_at
        name.now alternatives.now place.now
        (map named_entry nonterminals.old.entries) defns.old.items).defns) e) }
{
    if let Some(entry) = nonterminals.get_mut(place) {
        replace_entry(alloc, name, alternatives, entry, defns)?;
    }
    Ok(())
}

// Inlines a nonterminal into the entries at some places, in the order of the places.
fn replace_places(
    alloc: Global,
    name: &NonterminalString,
    alternatives: &[Production],
    places: &Set<NonterminalString>,
    nonterminals: &mut BTreeMap<NonterminalString, NonterminalData>,
    defns: &mut Vec<ActionFnDefn>,
) -> NormResult<()>
    ensures ok { OnOk result (view_with nonterminals.new.entries defns.new.items ≡ replaced_places
        name.now alternatives.now places.now.keys
        (view_with nonterminals.old.entries defns.old.items)) }
    ensures err { IfErr result (λ e. IsPastLast (length (replaced_places
        name.now alternatives.now places.now.keys
        (view_with nonterminals.old.entries defns.old.items)).defns) e) }
    ensures rising { IsStrictlySortedBy name_cmp places.now.keys }
{
    for place in places.iter() {
        replace_at(alloc, name, alternatives, place, nonterminals, defns)?;
    }
    Ok(())
}

/// The grammar with a nonterminal inlined into the entries that `users` has for it. The error is
/// `TooManyActions` if an action would have a number above 4294967295, or `Memory` if an allocation
/// fails.
pub fn inline_nonterminal(
    alloc: Global,
    grammar: Grammar,
    name: &NonterminalString,
    users: &Users,
) -> NormResult<Grammar>
    requires ordered { IsOrdered name_cmp grammar.nonterminals }
    requires covered { (a : NonterminalString) →
        Mentions grammar a name.now →
        Contains (users_at users.now name.now) a }
    ensures view { IfOk result (λ h. view_of h ≡ inlined_of name.now (view_of grammar)) }
    ensures terminals { IfOk result (λ h. h.terminals ≡ grammar.terminals) }
    ensures algorithm { IfOk result (λ h. h.algorithm ≡ grammar.algorithm) }
    ensures err { IfErr result
        (λ e. IsPastLast (length (inlined_of name.now (view_of grammar)).defns) e) }
{
    let Some(places) = users.get(name) else {
        return Ok(grammar);
    };
    let alternatives = clone_productions(alloc, grammar.productions_for(name))?;
    let mut inlined = grammar;
    replace_places(
        alloc,
        name,
        &alternatives,
        places,
        &mut inlined.nonterminals,
        &mut inlined.action_fn_defns,
    )?;
    Ok(inlined)
}
