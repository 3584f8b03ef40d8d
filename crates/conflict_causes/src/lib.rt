//! Conflicts grouped by their causes. The canonical construction copies states, so that one cause
//! shows as many conflicts.
//!
//! - `causes`: the causes of conflicts.
//! - `text`: the causes as a text, each with a witness of ambiguity where one is found, and the
//!   causes in one line each (`one_line`).
#![tactic(auto)]

pub mod causes;
pub mod text;
