//! The printing of tokens in a report, and the lengths of names there.
ghost use Rattle.std.specs.Prelude.{◌≡◌, ◌≢◌, ◌++◌, ◌↔◌, [], ℕ, List, length, true, IsTrue, OnOk, codes};
ghost use Rattle.std.specs.Fmt.{WritesInCalls};
ghost use Rattle.lalrpop_base.specs.Words.{rising, nonterminal_text, terminal_text, token_text, seen};
ghost use Rattle.lalrpop_report.specs.reports.ReportLines.{tokens_in, tokens_text};

use lalrpop_base::exact::equal;
use lalrpop_base::lookahead::Lookahead;
use lalrpop_base::lookahead::nil::Nil;
use lalrpop_base::lookahead::token::TokenRef;
use lalrpop_base::lookahead::token_set::TokenSet;
use lalrpop_base::repr::terminals::TerminalSet;
use lalrpop_base::repr::{NonterminalString, TerminalString};
use std::fmt;

/// A lookahead whose tokens can be printed to a writer.
pub trait LookaheadPrinter<W: fmt::Write>: Lookahead {
    /// Prints the tokens by rising bit, each after a space.
    fn print(&self, terminals: &TerminalSet, out: &mut W) -> fmt::Result
        ensures { OnOk result (WritesInCalls W.write_str_gives out.old
            (tokens_text (tokens_in terminals.now (Self.meaning self.now))) out.new) };

    /// Whether the lookahead has a token.
    fn has_anything_to_print(&self) -> bool
        ensures { IsTrue result ↔ (rising (Self.meaning self.now) ≢ []) };

    /// Whether the tokens of another lookahead are the same, so that both have one text. The default
    /// body says no, which is always right: then each text is made anew.
    fn is_printed_as(&self, _other: &Self) -> bool
        ensures { result ≡ true → Self.meaning self.now ≡ Self.meaning _other.now }
    {
        false
    }
}

impl<W: fmt::Write> LookaheadPrinter<W> for Nil {
    fn print(&self, _terminals: &TerminalSet, _out: &mut W) -> fmt::Result {
        Ok(())
    }

    fn has_anything_to_print(&self) -> bool {
        false
    }

    fn is_printed_as(&self, _other: &Self) -> bool {
        true
    }
}

impl<W: fmt::Write> LookaheadPrinter<W> for TokenSet {
    fn print(&self, terminals: &TerminalSet, out: &mut W) -> fmt::Result {
        for token in self.iter(terminals) {
            print_token(token, out)?;
        }
        Ok(())
    }

    fn has_anything_to_print(&self) -> bool {
        self.len() > 0
    }

    fn is_printed_as(&self, other: &Self) -> bool {
        equal(self, other)
    }
}

// Prints a token after a space.
fn print_token<W: fmt::Write>(token: TokenRef<'_>, out: &mut W) -> fmt::Result
    ensures { OnOk result (WritesInCalls W.write_str_gives out.old
        (codes " " ++ token_text (seen token.entry)) out.new) }
{
    write!(out, " {token}")
}

/// A name with the length of its printed text.
pub trait HasDisplayLen {
    // The bytes that are printed.
    ghost shown: { Self → List ℕ };

    /// The number of bytes that are printed.
    fn display_len(&self) -> usize
        ensures { result ≡ length (shown self.now) };
}

impl HasDisplayLen for TerminalString {
    ghost shown = { terminal_text };

    fn display_len(&self) -> usize {
        TerminalString::display_len(self)
    }
}

impl HasDisplayLen for NonterminalString {
    ghost shown = { nonterminal_text };

    fn display_len(&self) -> usize {
        NonterminalString::display_len(self)
    }
}
