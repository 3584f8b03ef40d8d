//! The error of a report that was not written whole.
ghost use Rattle.std.specs.Prelude.{◌≡◌};
ghost use Rattle.lalrpop_report.specs.declared.report.error.ReportError.TheVariants.{Memory};

use lalrpop_base::memory::OutOfMemory;
use std::io;
use thiserror::Error;

/// Why a report was not written whole. `Write` has the error of the sink. `WriteZero` means that
/// the sink took no byte, and `Memory` that an allocation failed. `NoTables` means that an
/// allocation failed in the construction, so there are neither tables nor conflicts to report.
#[derive(Debug, Drop, Error)]
pub enum ReportError {
    #[error("cannot write: {0}")]
    Write(io::Error),
    #[error("the writer takes no more")]
    WriteZero,
    #[error("out of memory")]
    Memory,
    #[error("there are no tables")]
    NoTables,
}

impl From<OutOfMemory> for ReportError {
    ghost from_gives = { λ _ e. e ≡ Memory };

    fn from(_error: OutOfMemory) -> ReportError {
        ReportError::Memory
    }
}
