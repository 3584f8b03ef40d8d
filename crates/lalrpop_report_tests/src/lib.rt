//! Tests of reports that no case file can express: writers that stop.
#![tactic(auto)]

#[cfg(test)]
mod writers;
