//! The production of the new start symbol.
ghost use Rattle.std.specs.Prelude.{◌<◌, ◌≤◌, ◌^◌, ℕ, IfSome, IsNone, length};
ghost use Rattle.any_start_parser.specs.Augmented.{IsOf, IsOnlyOf};

use lalrpop_base::exact::equal;
use lalrpop_base::repr::{NonterminalString, Production};
use parse_tables::table::ParseTable;

/// The number of the production of a nonterminal that has exactly one. A new start symbol has one.
/// `None` means that the nonterminal has none or several, or that the number has more than 32 bits.
pub fn only_production(table: &ParseTable, name: &NonterminalString) -> Option<u32>
    ensures found { IfSome result (IsOnlyOf table.now.productions name.now) }
    ensures absent { IsNone result → (number : ℕ) → number < 2 ^ 32 →
        IsOnlyOf table.now.productions name.now number → ⊥ }
{
    let productions = table.productions();
    let Some(first) = production_from(productions, name, 0) else {
        return None;
    };
    if production_from(productions, name, first + 1).is_some() {
        return None;
    }
    match u32::try_from(first) {
        Ok(number) => Some(number),
        Err(_) => None,
    }
}

// The number of the first production of a nonterminal, from a number on.
fn production_from(
    productions: &[Production],
    name: &NonterminalString,
    from: usize,
) -> Option<usize>
    ensures found { IfSome result (IsOf productions.now name.now) }
    ensures within { IfSome result
        (λ number. (from ≤ number) × (number < length productions.now)) }
    ensures first { IfSome result (λ number. (k : ℕ) → from ≤ k → k < number →
        IsOf productions.now name.now k → ⊥) }
    ensures absent { IsNone result → (k : ℕ) → from ≤ k → IsOf productions.now name.now k → ⊥ }
{
    for number in from..productions.len() {
        let production = &productions[number];
        if equal(&production.nonterminal, name) {
            return Some(number);
        }
    }
    None
}
