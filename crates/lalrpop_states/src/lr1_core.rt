//! Items, states, transitions, conflicts and errors.
pub mod actions;
pub mod all_conflicts;
mod clones;
pub mod coherent;
pub mod collapsible;
pub mod compared;
pub mod conflict;
pub mod conflict_counts;
pub mod edges;
mod error_texts;
pub mod item;
pub mod kernel_items;
pub mod kernels;
pub mod lr0;
pub mod place;
pub mod state;
pub mod symbol_sets;
pub mod transitions;
mod views;

pub use self::actions::ActionEntry;
pub use self::coherent::{SymbolRef, are_coherent};
pub use self::collapsible::are_collapsible;
pub use self::conflict::conflicts;
pub use self::conflict_counts::conflict_count;
pub use self::edges::Edges;
pub use self::item::{Item, Lr0Item, Lr1Item};
pub use self::lr0::{Lr0Conflict, Lr0Items, Lr0State, Lr0TableConstructionError};
pub use self::state::{
    Action, BuildError, Conflict, Items, Lr1Conflict, Lr1Items, Lr1Result, Lr1State,
    Lr1TableConstructionError, LrResult, State, StateIndex, TableConstructionError,
};
pub use self::symbol_sets::SymbolSets;
