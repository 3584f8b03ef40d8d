//! The lines of an explanation.
ghost use Rattle.std.specs.Prelude.{◌≡◌, ◌++◌, OnOk, string_bytes};
ghost use Rattle.lalrpop_lr1.specs.Words.{production_line, tokens_in, tokens_text};
ghost use Rattle.lrtab_run.specs.Explained.{head_line};
ghost use Rattle.lrtab_run.specs.Explaining.{example_line};

use lalrpop_base::lookahead::token_set::TokenSet;
use lalrpop_base::lr1_core::state::Lr1Conflict;
use lalrpop_base::memory::OutOfMemory;
use lalrpop_base::repr::Production;
use lalrpop_base::repr::terminals::TerminalSet;
use lalrpop_lr1::report::LookaheadPrinter;
use lalrpop_lr1::trace::Example;

/// Appends the head of a conflict: its number, its state and its tokens.
pub(crate) fn push_head(
    text: &mut String,
    number: usize,
    conflict: &Lr1Conflict<'_>,
    terminals: &TerminalSet,
) -> Result<(), OutOfMemory>
    ensures { OnOk result (string_bytes text.new ≡ string_bytes text.old ++ head_line number
        conflict.now.state (tokens_in terminals.now conflict.now.lookahead)) }
{
    let state = conflict.state;
    write!(text, "conflict {number} in state {state} on")?;
    push_tokens(text, &conflict.lookahead, terminals)?;
    text.push_str("\n")?;
    Ok(())
}

// Appends the tokens of a set by ascending bit, each after a space.
fn push_tokens(
    text: &mut String,
    set: &TokenSet,
    terminals: &TerminalSet,
) -> Result<(), OutOfMemory>
    ensures { OnOk result (string_bytes text.new ≡ string_bytes text.old ++ tokens_text
        (tokens_in terminals.now set.now)) }
{
    if set.print(terminals, text).is_err() {
        return Err(OutOfMemory);
    }
    Ok(())
}

/// Appends the line of a production.
pub(crate) fn push_production(text: &mut String, production: &Production) -> Result<(), OutOfMemory>
    ensures { OnOk result
        (string_bytes text.new ≡ string_bytes text.old ++ production_line production.now) }
{
    write!(text, "{production}\n")?;
    Ok(())
}

/// Appends the line of an example.
pub(crate) fn push_example(text: &mut String, example: &Example) -> Result<(), OutOfMemory>
    ensures { OnOk result
        (string_bytes text.new ≡ string_bytes text.old ++ example_line example.now) }
{
    write!(text, "    {example}\n")?;
    Ok(())
}
