//! The numbers of productions and nonterminals of tables in the lists of a file.
ghost use Rattle.std.specs.Prelude.{◌≡◌, IfOk, IfSome, IsTrue, Some, option_map, slice_get};
ghost use Rattle.lalrpop_base.specs.Words.{ReduceBy};
ghost use Rattle.lalrpop_grammar.specs.declared.repr.NonterminalString.{NonterminalString};
ghost use Rattle.parse_tables.specs.Actions.{entry_by};
ghost use Rattle.parse_tables.specs.Codes.{entry_of};
ghost use Rattle.parse_tables.specs.declared.table.TableAction.TheVariants.{Reduce};
ghost use Rattle.parser_text.specs.Hidden.{hidden_now, is_hidden, shown_entry};

use crate::error::ParserTextError;
use lalrpop_base::exact::equal;
use lalrpop_base::repr::{NonterminalString, Production};

/// The number in a file of a reduction by the production of a state that has a number. The error is
/// `Unlisted` if the production is neither listed nor hidden.
pub(crate) fn reduction_code(
    listed: &[Production],
    productions: &[Production],
    hidden: Option<&NonterminalString>,
    state: u32,
    number: u32,
) -> Result<u32, ParserTextError>
    ensures { IfOk result (λ code. entry_of listed.now code ≡
        shown_entry (hidden_now hidden.entry) (entry_by productions.now (Reduce number))) }
{
    let Some(production) = productions.get(number as usize) else {
        return Err(ParserTextError::Unlisted(state));
    };
    if is_hidden(hidden, production) {
        return small(listed.len() + 1);
    }
    listed_code(listed, production, state, number)
}

// Whether a production is one of the hidden nonterminal.
fn is_hidden(hidden: Option<&NonterminalString>, production: &Production) -> bool
    ensures { result ≡ is_hidden (hidden_now hidden.entry) production.now }
{
    match hidden {
        None => false,
        Some(name) => equal(name, &production.nonterminal),
    }
}

// The number of a reduction by a production that has a number in tables. In the list it has that
// number, or the one before it.
fn listed_code(
    listed: &[Production],
    production: &Production,
    state: u32,
    number: u32,
) -> Result<u32, ParserTextError>
    ensures { IfOk result (λ code. entry_of listed.now code ≡ Some (ReduceBy production.now)) }
{
    let number = number as usize;
    if has_production(listed, number, production) {
        return small(number + 1);
    }
    if number > 0 && has_production(listed, number - 1, production) {
        return small(number);
    }
    Err(ParserTextError::Unlisted(state))
}

// Whether the production with a number is another one.
fn has_production(listed: &[Production], number: usize, production: &Production) -> bool
    ensures { IsTrue result → slice_get listed.now number ≡ Some production.now }
{
    match listed.get(number) {
        None => false,
        Some(own) => equal(own, production),
    }
}

/// The number in tables of the nonterminal that has a number in the list: that number, or the next
/// one. The error is `Unknown` if it is neither.
pub(crate) fn column_of(
    listed: &[NonterminalString],
    nonterminals: &[NonterminalString],
    number: u32,
) -> Result<u32, ParserTextError>
    ensures { IfOk result (λ column. (name : NonterminalString) →
        slice_get listed.now number ≡ Some name → slice_get nonterminals.now column ≡ Some name) }
{
    if has_column(listed, nonterminals, number, number) {
        return Ok(number);
    }
    let next = small(number as usize + 1)?;
    if has_column(listed, nonterminals, number, next) {
        return Ok(next);
    }
    Err(ParserTextError::Unknown(number))
}

// Whether a number in the list and one in tables are those of the same nonterminal.
fn has_column(
    listed: &[NonterminalString],
    nonterminals: &[NonterminalString],
    number: u32,
    column: u32,
) -> bool
    ensures { IsTrue result → (name : NonterminalString) →
        slice_get listed.now number ≡ Some name → slice_get nonterminals.now column ≡ Some name }
{
    let Some(name) = listed.get(number as usize) else {
        return false;
    };
    let Some(other) = nonterminals.get(column as usize) else {
        return false;
    };
    equal(name, other)
}

/// A number of 32 bits. The error is `TooLarge`.
pub(crate) fn small(number: usize) -> Result<u32, ParserTextError>
    ensures { IfOk result (λ n. n ≡ number) }
{
    match u32::try_from(number) {
        Ok(number) => Ok(number),
        Err(_) => Err(ParserTextError::TooLarge),
    }
}
