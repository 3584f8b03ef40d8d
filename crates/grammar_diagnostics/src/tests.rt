//! Tests of the entries and uses of nonterminals.
ghost use Rattle.std.specs.Prelude.{◌≡◌, find, option_copied};
ghost use Rattle.lalrpop_grammar.specs.grammars.WellFormed.{productions};
ghost use Rattle.grammar_diagnostics.specs.Warnings.{set_has, has_use, is_defined, is_inline, is_marked, is_nonterminal};

use lalrpop_grammar::repr::grammar::{Attribute, Grammar, NonterminalData};
use lalrpop_grammar::repr::{NonterminalString, Production, Symbol};
use lalrpop_useful::names::NameSet;

// Whether a nonterminal is in a set.
pub(crate) fn set_has(set: &NameSet, name: &NonterminalString) -> bool
    ensures { result ≡ set_has set.now name.now }
{
    set.contains(name)
}

// Whether an entry has a production.
pub(crate) fn is_defined(entry: &NonterminalData) -> bool
    ensures { result ≡ is_defined entry.now }
{
    !entry.productions.is_empty()
}

// Whether an entry has the mark of those that are to be inlined.
pub(crate) fn is_marked(entry: &NonterminalData) -> bool
    ensures { result ≡ is_marked entry.now }
{
    entry.attributes.iter().any(|a| is_inline(a))
}

// Whether an attribute is that mark.
fn is_inline(attribute: &Attribute) -> bool
    ensures { result ≡ is_inline attribute.now }
{
    attribute.id.as_str() == "inline"
}

// The first production whose right side has a nonterminal, in the order of names.
pub(crate) fn first_use<'grammar>(
    grammar: &'grammar Grammar,
    name: &NonterminalString,
) -> Option<&'grammar Production>
    ensures { option_copied result ≡ find (has_use name.now) (productions grammar.now) }
{
    for (_name, entry) in grammar.nonterminals.iter() {
        match first_of(&entry.productions, name) {
            None => {}
            Some(production) => return Some(production),
        }
    }
    None
}

// The first of some productions whose right side has a nonterminal.
fn first_of<'grammar>(
    productions: &'grammar [Production],
    name: &NonterminalString,
) -> Option<&'grammar Production>
    ensures { option_copied result ≡ find (has_use name.now) productions.now }
{
    for production in productions {
        if has_use(production, name) {
            return Some(production);
        }
    }
    None
}

// Whether a nonterminal is on the right side of a production.
fn has_use(production: &Production, name: &NonterminalString) -> bool
    ensures { result ≡ has_use name.now production.now }
{
    let symbols = production.symbols.as_slice();
    symbols.iter().any(|symbol| is_nonterminal(symbol, name))
}

// Whether a symbol is a nonterminal.
fn is_nonterminal(symbol: &Symbol, name: &NonterminalString) -> bool
    ensures { result ≡ is_nonterminal name.now symbol.now }
{
    match symbol {
        Symbol::Nonterminal(other) => other.text.as_str() == name.text.as_str(),
        Symbol::Terminal(_) => false,
    }
}
