//! The report of a construction: its states, or its conflicts.
//!
//! - `report`: the text of the report, and the calls that write it.
#![tactic(auto)]

pub mod report;
