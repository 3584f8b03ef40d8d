//! The symbols after the nonterminals after dots.
ghost use Rattle.std.specs.Prelude.{◌≡◌, Contains, IfOk};
ghost use Rattle.lalrpop_states.specs.Words.{Dotted};
ghost use Rattle.lalrpop_grammar.specs.Words.{HasKnownTerminals};
ghost use Rattle.lalrpop_states.specs.declared.lookahead.nil.Nil.{Nil};
ghost use Rattle.lalrpop_numbers.specs.numbers.Suffixes.{AreSuffixes, IsSuffixOf};

use lalrpop_collections::memory::OutOfMemory;
use lalrpop_grammar::first::FirstSets;
use lalrpop_grammar::lookahead::token_set::TokenSet;
use lalrpop_grammar::repr::Symbol;
use lalrpop_grammar::repr::terminals::TerminalSet;
use lalrpop_states::lr1_core::item::Lr0Item;
use std::alloc::Global;

/// FIRST of the symbols after the nonterminal after a dot, without `Eof`, and whether these symbols
/// are nullable.
#[derive(Drop)]
pub struct Suffix {
    pub first: TokenSet,
    pub nullable: bool,
}

// The suffix of a dotted production, if a nonterminal is after its dot.
fn suffix_of<'grammar>(
    alloc: Global,
    first_sets: &FirstSets<'grammar>,
    terminals: &TerminalSet,
    item: &Lr0Item<'grammar>,
) -> Result<Option<Suffix>, OutOfMemory>
    requires terminals { first_sets.now.terminals ≡ terminals.now }
    requires known { HasKnownTerminals terminals.now item.now.production.symbols }
    ensures { IfOk result (IsSuffixOf first_sets.now item.now) }
{
    let Some((symbol, after)) = item.shift_symbol() else {
        return Ok(None);
    };
    let Symbol::Nonterminal(_) = symbol else {
        return Ok(None);
    };
    let mut first = first_sets.first0(alloc, after)?;
    let nullable = first.take_eof(terminals);
    Ok(Some(Suffix { first, nullable }))
}

/// For each dotted production, its suffix, if a nonterminal is after its dot.
pub(super) fn suffixes_of<'grammar>(
    alloc: Global,
    first_sets: &FirstSets<'grammar>,
    terminals: &TerminalSet,
    items: &[Lr0Item<'grammar>],
) -> Result<Vec<Option<Suffix>>, OutOfMemory>
    requires terminals { first_sets.now.terminals ≡ terminals.now }
    requires known { (i : Dotted Nil) →
        Contains items.now i →
        HasKnownTerminals terminals.now i.production.symbols }
    ensures { IfOk result (λ suffixes. AreSuffixes first_sets.now items.now suffixes.items) }
{
    let mut suffixes = Vec::new(alloc);
    for item in items {
        suffixes.push(suffix_of(alloc, first_sets, terminals, item)?)?;
    }
    Ok(suffixes)
}
