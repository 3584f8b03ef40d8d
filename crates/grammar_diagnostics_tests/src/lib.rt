//! Tests of `grammar_diagnostics`: errors and warnings, each with its hint in one text.
#![tactic(auto)]

#[cfg(test)]
mod messages;
