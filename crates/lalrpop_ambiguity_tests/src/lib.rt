//! Tests of `lalrpop_ambiguity`: searches of small grammars, worked out by hand, and deep
//! derivations.
#![tactic(auto)]

#[cfg(test)]
mod derivations;
#[cfg(test)]
mod searches;
