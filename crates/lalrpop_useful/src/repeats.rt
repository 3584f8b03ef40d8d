//! Productions of one nonterminal with the same right side.
ghost use Rattle.std.specs.Prelude.{◌≡◌, ◌↔◌, ◌<◌, ◌≤◌, length, slice_get, Some, IfOk, OnOk, IfSome, IfNone, Contains};
ghost use Rattle.lalrpop_grammar.specs.declared.repr.Production.{Production};
ghost use Rattle.lalrpop_useful.specs.useful.Repeats.{AddsRepeats, IsFirstWith, IsRepeat, NoneBelow, RepeatsAt, RepeatsBelow};

use lalrpop_base::exact::equal;
use lalrpop_base::memory::OutOfMemory;
use lalrpop_base::repr::grammar::Grammar;
use lalrpop_base::repr::{Production, Symbols};
use std::alloc::Global;
use std::marker::Model;

/// A production, and the first of its nonterminal with the same right side. Clauses see it as the
/// pair of both.
#[derive(Drop)]
pub struct Repeat<'grammar> {
    later: &'grammar Production,
    first: &'grammar Production,
}

impl<'grammar> Model for Repeat<'grammar> {
    ghost use Rattle.lalrpop_grammar.specs.declared.repr.Production.{Production};

    ghost Value = { Production × Production };

    ghost view = { λ r. (r.later.now, r.first.now) };
}

impl<'grammar> Repeat<'grammar> {
    /// The later production.
    pub fn later(&self) -> &'grammar Production
        ensures later { result.now ≡ self.now.0 }
    {
        self.later
    }

    /// The first production that has the right side of the later one.
    pub fn first(&self) -> &'grammar Production
        ensures first { result.now ≡ self.now.1 }
    {
        self.first
    }
}

/// The productions whose right side an earlier one of the same nonterminal has, each with the first
/// such, nonterminal by nonterminal. `OutOfMemory` if an allocation fails.
pub fn equal_right_sides<'grammar>(
    alloc: Global,
    grammar: &'grammar Grammar,
) -> Result<Vec<Repeat<'grammar>>, OutOfMemory>
    ensures repeats { IfOk result (λ repeats. (later first : Production) →
        Contains repeats.items (later, first) ↔ IsRepeat grammar.now later first) }
{
    let mut repeats = Vec::new(alloc);
    for (_name, entry) in grammar.nonterminals.iter() {
        add_repeats(&entry.productions, &mut repeats)?;
    }
    Ok(repeats)
}

// Adds the productions of a nonterminal that repeat a right side.
fn add_repeats<'grammar>(
    productions: &'grammar [Production],
    repeats: &mut Vec<Repeat<'grammar>>,
) -> Result<(), OutOfMemory>
    ensures { OnOk result (AddsRepeats (RepeatsBelow productions.now (length productions.now))
        repeats.old.items repeats.new.items) }
{
    for place in 0..productions.len() {
        add_repeat(productions, place, repeats)?;
    }
    Ok(())
}

// Adds the production at a place, if it repeats a right side.
fn add_repeat<'grammar>(
    productions: &'grammar [Production],
    place: usize,
    repeats: &mut Vec<Repeat<'grammar>>,
) -> Result<(), OutOfMemory>
    requires { place < length productions.now }
    ensures { OnOk result (AddsRepeats (RepeatsAt productions.now place) repeats.old.items
        repeats.new.items) }
{
    let later = &productions[place];
    let Some(earlier) = first_below(productions, &later.symbols, place) else {
        return Ok(());
    };
    let first = &productions[earlier];
    repeats.push(Repeat { later, first })?;
    Ok(())
}

// The first of so many places at which a production has these symbols on its right side.
fn first_below(productions: &[Production], symbols: &Symbols, places: usize) -> Option<usize>
    requires { places ≤ length productions.now }
    ensures found { IfSome result
        (λ place. (p : Production) × IsFirstWith productions.now symbols.now place p) }
    ensures below { IfSome result (λ place. place < places) }
    ensures none { IfNone result (NoneBelow productions.now symbols.now places) }
{
    for place in 0..places {
        if equal(&productions[place].symbols, symbols) {
            return Some(place);
        }
    }
    None
}
