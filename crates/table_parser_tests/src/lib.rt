//! Tests of parse tables, and of runs by them, that no case file can express: tables as numbers,
//! nodes with their labels and children, a start symbol on right sides, refusals with the expected
//! tokens, and allocation failure.
#![tactic(auto)]

#[cfg(test)]
mod any_start;
#[cfg(test)]
mod asked;
#[cfg(test)]
mod growths;
#[cfg(test)]
mod nodes;
#[cfg(test)]
mod numbers;
#[cfg(test)]
mod reports;
#[cfg(test)]
mod tables;
