//! Whether symbols derive the empty list.
ghost use Rattle.std.specs.Prelude.{◌↔◌, ◌∷◌, [], IsTrue};
ghost use Rattle.lalrpop_base.specs.Words.{IsNullable};

use lalrpop_base::first::FirstSets;
use lalrpop_base::repr::Symbol;

/// Whether the symbols derive the empty list. Their terminals need not be those of the grammar.
pub(crate) fn is_nullable<'grammar>(first_sets: &FirstSets<'grammar>, symbols: &[Symbol]) -> bool
    ensures { IsTrue result ↔ IsNullable first_sets.now.productions symbols.now }
{
    for symbol in symbols {
        if !is_nullable_symbol(first_sets, symbol) {
            return false;
        }
    }
    true
}

// Whether a symbol derives the empty list.
fn is_nullable_symbol<'grammar>(first_sets: &FirstSets<'grammar>, symbol: &Symbol) -> bool
    ensures { IsTrue result ↔ IsNullable first_sets.now.productions (symbol.now ∷ []) }
{
    match symbol {
        Symbol::Terminal(_) => false,
        Symbol::Nonterminal(name) => first_sets.is_nullable(name),
    }
}
