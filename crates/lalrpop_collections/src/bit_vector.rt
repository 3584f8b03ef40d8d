//! Bit vectors over slices of 64-bit words. A bit vector has number n if bit n % 64 of its word
//! n / 64 is 1.
pub mod bit_iter;
pub mod word_changes;
pub mod words;
