//! The way from a cyclic nonterminal back to itself.
ghost use Rattle.std.specs.Prelude.{◌≡◌, ◌↔◌, ◌<◌, ◌+◌, ◌∷◌, [], Contains, IfOk, IfSome, IsTrue, OnOk, Some, drop, length, slice_get, take};
ghost use Rattle.lalrpop_grammar.specs.grammars.Grammar.{IsNullable};
ghost use Rattle.lalrpop_grammar.specs.grammars.WellFormed.{rules_of};
ghost use Rattle.lalrpop_useful.specs.useful.Cycles.{IsAlone, IsAloneAt};
ghost use Rattle.grammar_diagnostics.specs.CyclePaths.{AddsSuch, AreSteps, HasStepAt, IsUnitCycle, LeadsAlone, LeadsToEach, names_now};

use lalrpop_collections::exact::equal;
use lalrpop_collections::memory::OutOfMemory;
use lalrpop_grammar::first::FirstSets;
use lalrpop_grammar::repr::grammar::Grammar;
use lalrpop_grammar::repr::{NonterminalString, Symbol};
use std::alloc::Global;
use std::collections::VecDeque;

// A nonterminal that is found, the place of the step that leads to it, and the number of steps from
// the first one.
#[derive(Clone, Copy)]
pub(crate) struct Step<'grammar> {
    pub(crate) name: &'grammar NonterminalString,
    pub(crate) from: usize,
    pub(crate) depth: usize,
}

/// A list of nonterminals that begins and ends with one, and in which each has a production with
/// the next alone: all around it is nullable. `sets` are the FIRST sets of the grammar. No such list
/// is shorter. `None` if there is no such list of at most `most` steps. `OutOfMemory` if an
/// allocation fails.
pub fn unit_cycle<'grammar>(
    alloc: Global,
    grammar: &'grammar Grammar,
    sets: &FirstSets<'_>,
    name: &'grammar NonterminalString,
    most: usize,
) -> Result<Option<VecDeque<&'grammar NonterminalString>>, OutOfMemory>
    requires { sets.now ≡ rules_of grammar.now }
    ensures { IfOk result (λ found. IfSome found
        (λ path. IsUnitCycle grammar.now name.now (names_now path.items))) }
{
    let mut steps = Vec::new(alloc);
    steps.push(Step {
        name,
        from: 0,
        depth: 0,
    })?;
    for place in 0..grammar.nonterminals.len() {
        if place >= steps.len() {
            return Ok(None);
        }
        let step = step_at(steps.as_slice(), place);
        if step.depth >= most {
            return Ok(None);
        }
        let parent = step.name;
        let found = alone_after(alloc, grammar, sets, parent)?;
        let next = found.as_slice();
        if has_name(next, name) {
            let path = path_to(alloc, grammar, name, steps.as_slice(), parent, place)?;
            return Ok(Some(path));
        }
        let depth = step.depth + 1;
        add_steps(grammar, name, parent, place, depth, next, &mut steps)?;
    }
    Ok(None)
}

// The nonterminals to which one leads alone.
fn alone_after<'grammar>(
    alloc: Global,
    grammar: &'grammar Grammar,
    sets: &FirstSets<'_>,
    name: &NonterminalString,
) -> Result<Vec<&'grammar NonterminalString>, OutOfMemory>
    requires { sets.now ≡ rules_of grammar.now }
    ensures { IfOk result (λ names. LeadsToEach grammar.now name.now (names_now names.items)) }
{
    let mut names = Vec::new(alloc);
    let productions = grammar.productions_for(name);
    for production in productions {
        push_places(sets, production.symbols.as_slice(), &mut names)?;
    }
    Ok(names)
}

// Adds the nonterminals of some symbols around which all is nullable.
fn push_places<'grammar>(
    sets: &FirstSets<'_>,
    symbols: &'grammar [Symbol],
    names: &mut Vec<&'grammar NonterminalString>,
) -> Result<(), OutOfMemory>
    ensures { OnOk result (AddsSuch (IsAlone sets.now.productions symbols.now)
        (names_now names.old.items) (names_now names.new.items)) }
{
    for place in 0..symbols.len() {
        push_place(sets, symbols, place, names)?;
    }
    Ok(())
}

// Adds the symbol at a place, if it is a nonterminal and all around it is nullable.
fn push_place<'grammar>(
    sets: &FirstSets<'_>,
    symbols: &'grammar [Symbol],
    place: usize,
    names: &mut Vec<&'grammar NonterminalString>,
) -> Result<(), OutOfMemory>
    requires { place < length symbols.now }
    ensures { OnOk result (AddsSuch (IsAloneAt sets.now.productions symbols.now place)
        (names_now names.old.items) (names_now names.new.items)) }
{
    let Symbol::Nonterminal(name) = &symbols[place] else {
        return Ok(());
    };
    if !are_nullable(sets, symbols_before(symbols, place)) {
        return Ok(());
    }
    if !are_nullable(sets, symbols_after(symbols, place)) {
        return Ok(());
    }
    names.push(name)?;
    Ok(())
}

// The symbols before a place.
fn symbols_before(symbols: &[Symbol], place: usize) -> &[Symbol]
    requires { place < length symbols.now }
    ensures { result.now ≡ take place symbols.now }
{
    &symbols[..place]
}

// The symbols after a place.
fn symbols_after(symbols: &[Symbol], place: usize) -> &[Symbol]
    requires { place < length symbols.now }
    ensures { result.now ≡ drop (place + 1) symbols.now }
{
    &symbols[place + 1..]
}

// Whether all symbols of a list are nullable.
fn are_nullable(sets: &FirstSets<'_>, symbols: &[Symbol]) -> bool
    ensures { IsTrue result → IsNullable sets.now.productions symbols.now }
{
    for symbol in symbols {
        if !is_nullable(sets, symbol) {
            return false;
        }
    }
    true
}

// Whether a symbol is nullable.
fn is_nullable(sets: &FirstSets<'_>, symbol: &Symbol) -> bool
    ensures { IsTrue result → IsNullable sets.now.productions (symbol.now ∷ []) }
{
    match symbol {
        Symbol::Terminal(_) => false,
        Symbol::Nonterminal(name) => sets.is_nullable(name),
    }
}

// Whether a name is in a list.
fn has_name(names: &[&NonterminalString], name: &NonterminalString) -> bool
    ensures { IsTrue result → Contains (names_now names.now) name.now }
{
    for other in names {
        if equal(*other, name) {
            return true;
        }
    }
    false
}

// Adds a step to each name of a list that has a production and no step.
fn add_steps<'grammar>(
    grammar: &Grammar,
    first: &NonterminalString,
    parent: &NonterminalString,
    place: usize,
    depth: usize,
    names: &[&'grammar NonterminalString],
    steps: &mut Vec<Step<'grammar>>,
) -> Result<(), OutOfMemory>
    requires steps { AreSteps grammar.now first.now steps.old.items }
    requires parent { HasStepAt steps.old.items place parent.now }
    requires leads { LeadsToEach grammar.now parent.now (names_now names.now) }
    ensures { OnOk result (AreSteps grammar.now first.now steps.new.items) }
{
    for name in names {
        add_step(grammar, first, parent, place, depth, name, steps)?;
    }
    Ok(())
}

// Adds a step to a name, if it has a production and no step.
fn add_step<'grammar>(
    grammar: &Grammar,
    first: &NonterminalString,
    parent: &NonterminalString,
    place: usize,
    depth: usize,
    name: &'grammar NonterminalString,
    steps: &mut Vec<Step<'grammar>>,
) -> Result<(), OutOfMemory>
    requires steps { AreSteps grammar.now first.now steps.old.items }
    requires parent { HasStepAt steps.old.items place parent.now }
    requires leads { LeadsAlone grammar.now parent.now name.now }
    ensures steps { OnOk result (AreSteps grammar.now first.now steps.new.items) }
    ensures parent { OnOk result (HasStepAt steps.new.items place parent.now) }
{
    if grammar.productions_for(name).is_empty() || has_step(steps, name) {
        return Ok(());
    }
    steps.push(Step {
        name,
        from: place,
        depth,
    })?;
    Ok(())
}

// The step at a place.
fn step_at<'grammar>(steps: &[Step<'grammar>], place: usize) -> Step<'grammar>
    requires { place < length steps.now }
    ensures { slice_get steps.now place ≡ Some result }
{
    steps[place]
}

// Whether a name has a step.
fn has_step(steps: &[Step<'_>], name: &NonterminalString) -> bool {
    steps.iter().any(|step| equal(step.name, name))
}

// The names of the steps to that of a name at a place, and the first name after them.
fn path_to<'grammar>(
    alloc: Global,
    grammar: &Grammar,
    first: &'grammar NonterminalString,
    steps: &[Step<'grammar>],
    name: &'grammar NonterminalString,
    place: usize,
) -> Result<VecDeque<&'grammar NonterminalString>, OutOfMemory>
    requires steps { AreSteps grammar.now first.now steps.now }
    requires last { HasStepAt steps.now place name.now }
    requires leads { LeadsAlone grammar.now name.now first.now }
    ensures { IfOk result (λ path. IsUnitCycle grammar.now first.now (names_now path.items)) }
{
    let mut path = VecDeque::new(alloc);
    path.push_front(first)?;
    path.push_front(name)?;
    let mut at = place;
    while at > 0 {
        let step = step_at(steps, at);
        at = step.from;
        let before = step_at(steps, at);
        path.push_front(before.name)?;
    }
    Ok(path)
}
