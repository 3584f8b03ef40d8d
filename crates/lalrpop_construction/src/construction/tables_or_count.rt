//! Tables, or the number of conflicts.
use lalrpop_base::lr1_core::state::Lr1State;

/// The result of a construction of LR(1) tables that counts conflicts and does not list them.
#[derive(Debug, Drop)]
pub enum TablesOrCount<'grammar> {
    /// The states of the tables.
    Tables(Vec<Lr1State<'grammar>>),
    /// The number of conflicts of the canonical states, if there are no tables: at least 1, and
    /// at most the greatest `usize`.
    Conflicts(usize),
}
