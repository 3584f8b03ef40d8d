//! Tests of `lrtab` that no stored case can express: a reader and writers that fail.
#![tactic(auto)]

#[cfg(test)]
mod program;
