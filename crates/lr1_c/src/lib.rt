//! What the programs `lrtab` and `lrshow` print of a grammar, its tables as numbers, a check of
//! tables, and parses by numbers, for callers in C.
#![tactic(auto)]

ghost use Rattle.std.specs.Prelude.{◌≡◌};
ghost use Rattle.lr1_calls.specs.Calls.{IsAnswered, method_for};
ghost use Rattle.lr1_calls.specs.Checked.{IsChecked};
ghost use Rattle.lr1_calls.specs.Tables.{AreGiven};
ghost use Rattle.parse_calls.specs.Answers.{IsGiven, IsParsed, action_answer, goto_answer};
ghost use Rattle.parse_calls.specs.Expected.{IsExpected};

use lr1_calls::ask::ask;
use lr1_calls::check::check;
use lr1_calls::tables::tables;
use parse_calls::action::action;
use parse_calls::expected::expected;
use parse_calls::goto::goto;
use parse_calls::parse::parse;
use std::alloc::Global;

/// The version of the interface. It grows if the meaning of a call changes.
#[unsafe(no_mangle)]
pub extern "C" fn lr1_version() -> u32
    ensures { result ≡ 1 }
{
    1
}

/// What `lrtab` or `lrshow` prints of the grammar text `text`. `words` is what is after the name of
/// the file on the command line, with a byte 0 between two words. As much of the text as fits goes
/// to `out`, and the length of the whole text to `length`. The result is the status.
#[unsafe(no_mangle)]
pub extern "C" fn lr1_ask(
    alloc: Global,
    text: &[u8],
    words: &[u8],
    canonical: bool,
    out: &mut [u8],
    length: &mut usize,
) -> u8
    ensures { IsAnswered canonical words.now text.now result out.old out.new length.new }
{
    ask(alloc, text, words, canonical, out, length)
}

/// The LR(1) tables of the grammar text `text` for the start symbol `start`, as numbers, with the
/// items of each state if `items` is `true`. As many of the numbers as fit go to `out`, and how
/// many there are to `length`. The result is the status: 0 for tables, 1 for conflicts, 2 for a
/// fault, and 3 if an allocation fails. Only tables have numbers.
#[unsafe(no_mangle)]
pub extern "C" fn lr1_tables(
    alloc: Global,
    text: &[u8],
    start: &[u8],
    canonical: bool,
    items: bool,
    out: &mut [u32],
    length: &mut usize,
) -> u8
    ensures { AreGiven (method_for canonical) items text.now start.now result out.old out.new
        length.new }
{
    tables(alloc, text, start, canonical, items, out, length)
}

/// Whether tables are faithful to the grammar text `text` and the start symbol `start`. The tables
/// are numbers with items, which any program may have made. As much of a message as fits goes to
/// `out`, and the length of the whole message to `length`. The result is the status: 0 for faithful
/// tables, for which there is no message, 1 for other tables, 2 for a fault, and 3 if an allocation
/// fails.
#[unsafe(no_mangle)]
pub extern "C" fn lr1_check(
    alloc: Global,
    text: &[u8],
    start: &[u8],
    numbers: &[u32],
    out: &mut [u8],
    length: &mut usize,
) -> u8
    ensures { IsChecked text.now start.now numbers.now result out.old out.new length.new }
{
    check(alloc, text, start, numbers, out, length)
}

/// The action of a state on a token, by tables as numbers. As many of its numbers as fit go to
/// `out`, and how many there are to `length`. A shift has the number 0 and its state. A reduction has
/// 1, its production, the nonterminal of that, and the length of its right side. The result is the
/// status: 0 for an action, 1 if there is none, and 2 for a fault. Only an action has numbers.
#[unsafe(no_mangle)]
pub extern "C" fn lr1_action(
    tables: &[u32],
    state: u32,
    token: u32,
    out: &mut [u32],
    length: &mut usize,
) -> u8
    ensures { IsGiven (action_answer tables.now state token) result out.old out.new length.new }
{
    action(tables, state, token, out, length)
}

/// The goto of a state on a nonterminal, by tables as numbers. The number of the state goes to
/// `out`, if there is room, and `length` becomes 1. The result is the status: 0 for a goto, 1 if
/// there is none, and 2 for a fault. Only a goto has a number.
#[unsafe(no_mangle)]
pub extern "C" fn lr1_goto(
    tables: &[u32],
    state: u32,
    nonterminal: u32,
    out: &mut [u32],
    length: &mut usize,
) -> u8
    ensures { IsGiven (goto_answer tables.now state nonterminal) result out.old out.new length.new }
{
    goto(tables, state, nonterminal, out, length)
}

/// Parses tokens by tables as numbers, in at most `limit` steps. As many of the numbers of the
/// answer as fit go to `out`, and how many there are to `length`. They are pairs: 0 and the token of
/// a shift, 1 and the production of a reduction, and at last 2 or 3 and the state on top, if the
/// next token was refused or the limit ended the run. `read` becomes how many tokens were shifted.
/// The result is the status: 0 for a parse, 1 for a refusal or the limit, 2 for a fault, and 3 if an
/// allocation fails.
#[unsafe(no_mangle)]
pub extern "C" fn lr1_parse(
    alloc: Global,
    tables: &[u32],
    tokens: &[u32],
    limit: usize,
    out: &mut [u32],
    length: &mut usize,
    read: &mut usize,
) -> u8
    ensures { IsParsed tables.now tokens.now limit result out.old out.new length.new read.new }
{
    parse(alloc, tables, tokens, limit, out, length, read)
}

/// The tokens that may come after tokens, by tables as numbers. As many of them as fit go to `out`,
/// ascending, and how many there are to `length`. The end of the input is the number of terminals.
/// The result is the status: 0 for the tokens, 1 if the given tokens are refused or a step would
/// pass the limit, 2 for a fault, and 3 if an allocation fails.
#[unsafe(no_mangle)]
pub extern "C" fn lr1_expected(
    alloc: Global,
    tables: &[u32],
    tokens: &[u32],
    limit: usize,
    out: &mut [u32],
    length: &mut usize,
) -> u8
    ensures { IsExpected tables.now tokens.now limit result out.old out.new length.new }
{
    expected(alloc, tables, tokens, limit, out, length)
}
