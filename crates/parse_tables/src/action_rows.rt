//! The rows of actions and gotos of one state.
ghost use Rattle.std.specs.Prelude.{◌≡◌, ◌≢◌, ◌+◌, ◌<◌, ◌≤◌, ◌==◌, ◌&&◌, ℕ, [], OnOk, cond, length, slice_get, slice_index, Some};
ghost use Rattle.lalrpop_base.specs.Words.{contents_of, has, holds_token};
ghost use Rattle.parse_tables.specs.Codes.{IsActionRow, IsGotoRow};

use crate::cells::number_of;
use crate::error::ParseTableError;
use crate::numbering::Numbering;
use crate::targets::put_targets;
use lalrpop_base::lookahead::token_set::TokenSet;
use lalrpop_base::lr1_core::state::Lr1State;
use lalrpop_base::repr::terminals::TerminalSet;
use lalrpop_base::repr::{NonterminalString, Production};

/// Replaces a row by the actions of a state on the terminals and on the end of the input. The errors
/// are `UnknownProduction`, `TooLarge` and `Memory`.
pub(crate) fn list_actions(
    terminals: &TerminalSet,
    productions: &Numbering<Production>,
    state: &Lr1State<'_>,
    row: &mut Vec<u32>,
) -> Result<(), ParseTableError>
    ensures { OnOk result (IsActionRow terminals.now productions.now
        (contents_of (holds_token terminals.now) state.now) row.new.items) }
{
    let base = productions.all().len() + 1;
    let all = terminals.all();
    make_zeros(row, all.len() + 1)?;
    put_targets(all, &state.shifts, base, row)?;
    for (tokens, production) in state.reductions.iter() {
        let Some(number) = productions.number(production) else {
            return Err(ParseTableError::UnknownProduction);
        };
        put_reduction(row, tokens, number_of(number + 1)?);
    }
    Ok(())
}

/// Replaces a row by the gotos of a state. The errors are `TooLarge` and `Memory`.
pub(crate) fn list_gotos(
    nonterminals: &[NonterminalString],
    state: &Lr1State<'_>,
    row: &mut Vec<u32>,
) -> Result<(), ParseTableError>
    ensures { OnOk result (IsGotoRow nonterminals.now (contents_of (holds_token []) state.now).goto
        row.new.items) }
{
    make_zeros(row, nonterminals.len())?;
    put_targets(nonterminals, &state.gotos, 1, row)?;
    Ok(())
}

// Replaces a row by so many zeros. The error is `Memory`.
fn make_zeros(row: &mut Vec<u32>, len: usize) -> Result<(), ParseTableError>
    ensures len { OnOk result (length row.new.items ≡ len) }
    ensures zeros { OnOk result ((n : ℕ) → slice_index row.new.items n ≡ 0) }
{
    row.clear();
    row.resize(len, 0)?;
    Ok(())
}

// Puts the number of a reduction at the bits of its tokens at which a row has no number.
fn put_reduction(row: &mut Vec<u32>, tokens: &TokenSet, number: u32)
    ensures put { (bit : ℕ) → bit < length row.old.items → slice_index row.new.items bit ≡ cond
        (slice_index row.old.items bit == 0 && has tokens.now bit) number
        (slice_index row.old.items bit) }
    ensures len { length row.new.items ≡ length row.old.items }
{
    for bit in 0..row.len() {
        if row[bit] == 0 && tokens.contains_bit(bit) {
            row[bit] = number;
        }
    }
}
