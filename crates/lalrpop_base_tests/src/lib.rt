//! Tests of grammars, sets, states and values that no case file can express: calls that no library
//! makes, states by hand, printed values, copies that share memory, and the fixtures that refuse
//! allocations.
#![tactic(auto)]

#[cfg(test)]
mod by_hand;
#[cfg(test)]
mod calls;
#[cfg(test)]
mod fixtures;
#[cfg(test)]
mod values;
