//! What is doubtful with a grammar.
ghost use Rattle.std.specs.Prelude.{◌≡◌, ◌↔◌, ◌++◌, Contains, IfOk, OnOk, map};
ghost use Rattle.std.specs.List.{flat_map};
ghost use Rattle.lalrpop_grammar.specs.grammars.WellFormed.{IsWellFormed, productions, productions_of};
ghost use Rattle.grammar_text.specs.Lines.{is_empty};
ghost use Rattle.grammar_diagnostics.specs.Warnings.{Doubt, IsWarning, entry_warnings, repeat_warning, doubt_span, start_warnings, use_warning, warning_view, when};

use crate::tests::{first_use, is_defined, is_marked, set_has};
use lalrpop_collections::memory::OutOfMemory;
use lalrpop_grammar::repr::grammar::{Grammar, NonterminalData};
use lalrpop_grammar::repr::{NonterminalString, Production, Span};
use lalrpop_useful::cycles::cyclic_names;
use lalrpop_useful::names::NameSet;
use lalrpop_useful::productive::productive;
use lalrpop_useful::reachable::reachable;
use lalrpop_useful::repeats::{Repeat, equal_right_sides};
use lalrpop_useful::undefined::{Undefined, undefined_names};
use std::alloc::Global;

/// A doubt about a grammar. A span is that of the entry of the nonterminal.
#[derive(Clone, Copy)]
pub enum Warning<'grammar> {
    /// A nonterminal without a production, and the first production whose right side has it.
    Undefined(&'grammar NonterminalString, &'grammar Production),
    /// A nonterminal that is in no list that the start symbol derives, if that has a production.
    Unreachable(&'grammar NonterminalString, Span),
    /// A nonterminal that derives no list of terminals.
    Unproductive(&'grammar NonterminalString, Span),
    /// A nonterminal that derives itself.
    Cyclic(&'grammar NonterminalString, Span),
    /// A nonterminal that is to be inlined and has no production.
    NothingToInline(&'grammar NonterminalString, Span),
    /// A nonterminal that is to be inlined and is on no right side.
    NeverInlined(&'grammar NonterminalString, Span),
    /// A production, and the first of its nonterminal with the same right side.
    Repeated(&'grammar Production, &'grammar Production),
    /// The start symbol has no production.
    NoStart,
    /// The first production whose right side has the start symbol.
    StartUsed(&'grammar Production),
}

impl Warning<'_> {
    /// The span of the production or the entry that the warning is about. It is empty if there is
    /// none.
    pub fn span(&self) -> Span
        ensures { result ≡ doubt_span (warning_view self.now) }
    {
        match self {
            Warning::Undefined(_, production) => production.span,
            Warning::Unreachable(_, span) => *span,
            Warning::Unproductive(_, span) => *span,
            Warning::Cyclic(_, span) => *span,
            Warning::NothingToInline(_, span) => *span,
            Warning::NeverInlined(_, span) => *span,
            Warning::Repeated(later, _) => later.span,
            Warning::NoStart => Span(0, 0),
            Warning::StartUsed(production) => production.span,
        }
    }
}

// Whether the start symbol has a production, the nonterminals that it reaches, the productive ones,
// and the cyclic ones.
#[derive(Drop)]
pub(crate) struct Sets {
    pub(crate) has_start: bool,
    pub(crate) reachable: NameSet,
    pub(crate) productive: NameSet,
    pub(crate) cyclic: NameSet,
}

/// The doubts about a grammar with a start symbol, in the order of their spans. `OutOfMemory` if an
/// allocation fails.
pub fn warnings<'grammar>(
    alloc: Global,
    grammar: &'grammar Grammar,
    start: &NonterminalString,
) -> Result<Vec<Warning<'grammar>>, OutOfMemory>
    requires { IsWellFormed grammar.now }
    ensures { IfOk result (λ all. (w : Doubt) →
        Contains (map warning_view all.items) w ↔ IsWarning grammar.now start.now w) }
{
    let mut all = found(alloc, grammar, start)?;
    all.sort_by_key(|warning| warning.span())?;
    Ok(all)
}

// First uses, then repeated right sides, then what is doubtful with nonterminals in the order of
// their names, and with the start symbol.
fn found<'grammar>(
    alloc: Global,
    grammar: &'grammar Grammar,
    start: &NonterminalString,
) -> Result<Vec<Warning<'grammar>>, OutOfMemory>
    requires { IsWellFormed grammar.now }
    ensures { IfOk result (λ all. (w : Doubt) →
        Contains (map warning_view all.items) w ↔ IsWarning grammar.now start.now w) }
{
    let sets = Sets {
        has_start: !has_none(grammar, start),
        reachable: reachable(alloc, grammar, start)?,
        productive: productive(alloc, grammar)?,
        cyclic: cyclic_names(alloc, grammar)?,
    };
    let uses = undefined_names(alloc, grammar)?;
    let repeats = equal_right_sides(alloc, grammar)?;
    let _names = grammar.nonterminals.len();
    let mut all = Vec::new(alloc);
    push_uses(&uses, &mut all)?;
    push_repeats(&repeats, &mut all)?;
    push_entries(grammar, &sets, &mut all)?;
    push_start(grammar, start, &mut all)?;
    Ok(all)
}

// Adds the undefined nonterminals.
fn push_uses<'grammar>(
    uses: &[Undefined<'grammar>],
    all: &mut Vec<Warning<'grammar>>,
) -> Result<(), OutOfMemory>
    ensures { OnOk result (map warning_view all.new.items
        ≡ map warning_view all.old.items ++ map use_warning uses.now) }
{
    for found in uses {
        all.push(Warning::Undefined(found.name(), found.user()))?;
    }
    Ok(())
}

// Adds the productions that repeat a right side.
fn push_repeats<'grammar>(
    repeats: &[Repeat<'grammar>],
    all: &mut Vec<Warning<'grammar>>,
) -> Result<(), OutOfMemory>
    ensures { OnOk result (map warning_view all.new.items
        ≡ map warning_view all.old.items ++ map repeat_warning repeats.now) }
{
    for found in repeats {
        all.push(Warning::Repeated(found.later(), found.first()))?;
    }
    Ok(())
}

// Adds what is doubtful with the entries of nonterminals.
fn push_entries<'grammar>(
    grammar: &'grammar Grammar,
    sets: &Sets,
    all: &mut Vec<Warning<'grammar>>,
) -> Result<(), OutOfMemory>
    ensures { OnOk result (map warning_view all.new.items ≡ map warning_view all.old.items
        ++ flat_map (entry_warnings sets.now (productions grammar.now))
        grammar.now.nonterminals.entries) }
{
    for (name, entry) in grammar.nonterminals.iter() {
        push_entry(grammar, sets, name, entry, all)?;
    }
    Ok(())
}

// Adds what is doubtful with an entry.
fn push_entry<'grammar>(
    grammar: &'grammar Grammar,
    sets: &Sets,
    name: &'grammar NonterminalString,
    entry: &'grammar NonterminalData,
    all: &mut Vec<Warning<'grammar>>,
) -> Result<(), OutOfMemory>
    ensures { OnOk result (map warning_view all.new.items ≡ map warning_view all.old.items
        ++ entry_warnings sets.now (productions grammar.now) (name.now, entry.now)) }
{
    let span = entry.span;
    let defined = is_defined(entry);
    let marked = is_marked(entry);
    let unreached = defined && !set_has(&sets.reachable, name);
    let unreachable = sets.has_start && unreached;
    push_if(unreachable, Warning::Unreachable(name, span), all)?;
    let unproductive = defined && !set_has(&sets.productive, name);
    push_if(unproductive, Warning::Unproductive(name, span), all)?;
    push_if(
        set_has(&sets.cyclic, name),
        Warning::Cyclic(name, span),
        all,
    )?;
    push_if(
        marked && !defined,
        Warning::NothingToInline(name, span),
        all,
    )?;
    let unused = marked && first_use(grammar, name).is_none();
    push_if(unused, Warning::NeverInlined(name, span), all)?;
    Ok(())
}

// Adds what is doubtful with the start symbol.
fn push_start<'grammar>(
    grammar: &'grammar Grammar,
    start: &NonterminalString,
    all: &mut Vec<Warning<'grammar>>,
) -> Result<(), OutOfMemory>
    ensures { OnOk result (map warning_view all.new.items
        ≡ map warning_view all.old.items ++ start_warnings grammar.now start.now) }
{
    push_if(has_none(grammar, start), Warning::NoStart, all)?;
    if let Some(production) = first_use(grammar, start) {
        all.push(Warning::StartUsed(production))?;
    }
    Ok(())
}

// Whether a nonterminal has no production.
fn has_none(grammar: &Grammar, name: &NonterminalString) -> bool
    ensures { result ≡ is_empty (productions_of grammar.now name.now) }
{
    grammar.productions_for(name).is_empty()
}

// Adds a warning, if a test holds.
fn push_if<'grammar>(
    test: bool,
    warning: Warning<'grammar>,
    all: &mut Vec<Warning<'grammar>>,
) -> Result<(), OutOfMemory>
    ensures { OnOk result (map warning_view all.new.items
        ≡ map warning_view all.old.items ++ when test (warning_view warning.entry)) }
{
    if test {
        all.push(warning)?;
    }
    Ok(())
}
