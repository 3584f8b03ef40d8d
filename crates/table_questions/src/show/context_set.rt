//! Context sets: the tokens of each column. An insertion of a token into a copy shows whether a
//! column has the token.
ghost use Rattle.std.specs.Prelude.{◌≡◌, ◌<◌, length};

use case_files::show::words::push_tokens;
use lalrpop_base::lookahead::token::Token;
use lalrpop_base::lookahead::token_set::TokenSet;
use lalrpop_base::memory::OutOfMemory;
use lalrpop_base::repr::terminals::TerminalSet;
use lalrpop_tables::lane_table::context_set::{ConflictIndex, ContextSet, OverlappingLookahead};
use std::alloc::Global;

/// Appends the tokens of each of `count` columns, with a bar between two columns.
pub fn push_columns(
    alloc: Global,
    text: &mut String,
    set: &ContextSet,
    count: usize,
    terminals: &TerminalSet,
) -> Result<(), OutOfMemory>
    requires { count ≡ length set.now }
{
    for column in 0..count {
        if column > 0 {
            text.push_str(" |")?;
        }
        push_tokens(text, &column_of(alloc, set, column, terminals)?, terminals)?;
    }
    Ok(())
}

/// The tokens of a column.
pub fn column_of(
    alloc: Global,
    set: &ContextSet,
    column: usize,
    terminals: &TerminalSet,
) -> Result<TokenSet, OutOfMemory>
    requires { column < length set.now }
{
    let mut tokens = TokenSet::new(alloc, terminals);
    let count = terminals.all().len();
    for place in 0..count + 2 {
        let one = one_token(alloc, place, terminals)?;
        if has_tokens(alloc, set, column, &one)? {
            tokens.union_with(&one)?;
        }
    }
    Ok(tokens)
}

// The set of the token with a number: a terminal by its place, then `Eof`, then `Error`.
fn one_token(
    alloc: Global,
    place: usize,
    terminals: &TerminalSet,
) -> Result<TokenSet, OutOfMemory> {
    let all = terminals.all();
    if place > all.len() {
        return TokenSet::of(alloc, Token::Error, terminals);
    }
    if place == all.len() {
        return TokenSet::eof(alloc, terminals);
    }
    let terminal = all[place].clone(alloc)?;
    if terminals.bit(&terminal).is_none() {
        return Ok(TokenSet::new(alloc, terminals));
    }
    TokenSet::of(alloc, Token::Terminal(terminal), terminals)
}

// Whether a column has the tokens: if they are inserted into a copy, the copy does not grow and
// does not refuse them.
fn has_tokens(
    alloc: Global,
    set: &ContextSet,
    column: usize,
    tokens: &TokenSet,
) -> Result<bool, OutOfMemory>
    requires { column < length set.now }
{
    let mut copy = set.clone(alloc)?;
    match copy.insert(ConflictIndex::new(column), tokens) {
        Ok(grew) => Ok(!grew),
        Err(OverlappingLookahead::Overlapping) => Ok(false),
        Err(OverlappingLookahead::Memory) => Err(OutOfMemory),
    }
}
