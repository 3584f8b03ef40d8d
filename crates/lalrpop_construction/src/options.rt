//! The options of a construction of tables.
ghost use Rattle.std.specs.Prelude.{◌≡◌};

/// The method by which LR(1) tables are made. The lane method falls back on the canonical
/// construction if it finds no tables that pass the check.
#[derive(Clone, Copy, Debug, PartialEq, Eq)]
pub enum Method {
    Lane,
    Canonical,
}

/// The method by which LR(1) states are made, and its limits.
#[derive(Clone, Copy, Debug, PartialEq, Eq)]
pub struct Options {
    pub method: Method,
    /// After how many conflicts to stop; 0 for no early stop.
    pub stop_after: usize,
    /// How many states may be copied.
    pub max_copies: usize,
}

impl Default for Options {
    fn default() -> Options
        ensures { result ≡ record { method = Method.Lane; stop_after = 0; max_copies = 10000 } }
    {
        Options {
            method: Method::Lane,
            stop_after: 0,
            max_copies: 10000,
        }
    }
}
