//! Tables and conflicts as JSON, for other tools.
#![tactic(auto)]

pub mod causes;
mod conflicts;
mod examples;
mod lists;
mod names;
mod naming;
mod rules;
mod sets;
mod states;
pub mod to_json;
mod walks;
pub mod whole;
