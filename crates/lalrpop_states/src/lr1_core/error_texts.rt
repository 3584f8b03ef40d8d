//! The texts of the errors of a construction.
ghost use Rattle.std.specs.Prelude.{Some, length};
ghost use Rattle.lalrpop_states.specs.conflicts.ErrorTexts.{build_error_text, conflicts_text};

use super::state::{BuildError, TableConstructionError, write_decimal};
use std::error::Error;
use std::fmt;

impl<'grammar, L> fmt::Display for TableConstructionError<'grammar, L> {
    ghost output = { λ e. Some (conflicts_text (length e.conflicts.items)) };

    ghost styled_output = { λ e _. Some (conflicts_text (length e.conflicts.items)) };

    fn fmt<W: fmt::Write>(&self, f: &mut fmt::Formatter<W>) -> fmt::Result {
        let count = self.conflicts.len();
        if count == 1 {
            return f.write_str("1 conflict");
        }
        write_decimal(f, count)?;
        f.write_str(" conflicts")
    }
}

impl<'grammar, L> fmt::Display for BuildError<'grammar, L> {
    ghost output = { λ e. Some (build_error_text e) };

    ghost styled_output = { λ e _. Some (build_error_text e) };

    fn fmt<W: fmt::Write>(&self, f: &mut fmt::Formatter<W>) -> fmt::Result {
        match self {
            BuildError::Conflicts(error) => fmt::Display::fmt(error, f),
            BuildError::Memory => f.write_str("out of memory"),
        }
    }
}

impl<'grammar, L: fmt::Debug + Drop> Error for TableConstructionError<'grammar, L> {}

impl<'grammar, L: fmt::Debug + Drop> Error for BuildError<'grammar, L> {}
