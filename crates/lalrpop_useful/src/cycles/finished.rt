//! An order of nonterminals in which few walks are needed. No clause says which order it is.
ghost use Rattle.lalrpop_grammar.specs.grammars.WellFormed.{rules_of};
ghost use Rattle.std.specs.Prelude.{◌≡◌};

use super::known::next_alone;
use crate::names::NameSet;
use lalrpop_base::first::FirstSets;
use lalrpop_base::memory::OutOfMemory;
use lalrpop_base::repr::NonterminalString;
use lalrpop_base::repr::grammar::Grammar;
use lalrpop_collections::collections::sets::add_key;
use std::alloc::Global;
use std::collections::BTreeSet;

// A nonterminal that is to be entered, or to be left.
#[derive(Drop)]
struct Visit {
    name: NonterminalString,
    is_left: bool,
}

// A depth-first search: the nonterminals that were entered, those that wait, and those that were
// left.
#[derive(Drop)]
struct Search {
    entered: NameSet,
    stack: Vec<Visit>,
    finished: Vec<NonterminalString>,
}

/// The nonterminals of a grammar in the order in which a depth-first search leaves them. It goes to
/// those to which each leads alone.
pub(crate) fn finished_names(
    alloc: Global,
    grammar: &Grammar,
    sets: &FirstSets<'_>,
) -> Result<Vec<NonterminalString>, OutOfMemory>
    requires { sets.now ≡ rules_of grammar.now }
{
    let mut search = Search {
        entered: BTreeSet::new(alloc),
        stack: Vec::new(alloc),
        finished: Vec::new(alloc),
    };
    for (name, _entry) in grammar.nonterminals.iter() {
        let name = name.clone(alloc)?;
        search.stack.push(Visit {
            name,
            is_left: false,
        })?;
        search_on(alloc, grammar, sets, &mut search)?;
    }
    let Search { finished, .. } = search;
    Ok(finished)
}

// Goes on until none waits.
fn search_on(
    alloc: Global,
    grammar: &Grammar,
    sets: &FirstSets<'_>,
    search: &mut Search,
) -> Result<(), OutOfMemory>
    requires { sets.now ≡ rules_of grammar.now }
{
    for _turn in 0..u64::MAX {
        let Some(visit) = search.stack.pop() else {
            return Ok(());
        };
        go_to(alloc, grammar, sets, visit, search)?;
    }
    Ok(())
}

// Leaves a nonterminal, or enters it unless it was entered before.
fn go_to(
    alloc: Global,
    grammar: &Grammar,
    sets: &FirstSets<'_>,
    visit: Visit,
    search: &mut Search,
) -> Result<(), OutOfMemory>
    requires { sets.now ≡ rules_of grammar.now }
{
    let Visit { name, is_left } = visit;
    if is_left {
        search.finished.push(name)?;
        return Ok(());
    }
    if !add_key(&mut search.entered, name.clone(alloc)?)? {
        return Ok(());
    }
    let next = next_alone(alloc, grammar, sets, &name)?;
    search.stack.push(Visit {
        name,
        is_left: true,
    })?;
    push_next(next, search)
}

// Lets nonterminals wait.
fn push_next(next: NameSet, search: &mut Search) -> Result<(), OutOfMemory> {
    for name in next {
        search.stack.push(Visit {
            name,
            is_left: false,
        })?;
    }
    Ok(())
}
