//! Functions that make and change bit vectors.
ghost use Rattle.std.specs.Prelude.{◌≡◌, ◌≢◌, ◌+◌, ◌-◌, ◌/◌, ◌%◌, ◌^◌, ◌<◌, ◌≤◌, ◌==◌, ◌||◌, ◌&&◌, ℕ, List, length, slice_index, nat_lt, not, max, bit_and, bit_or, MatchBool, replicate, IfOk, OnOk, OnErr};
ghost use Rattle.lalrpop_collections.specs.lists.BitVectors.{has_bit, IsTrimmed, IsBitVector};

use crate::memory::OutOfMemory;
use std::alloc::Global;

/// Appends zero words until there are `count` words. More words than `count` stay as they are.
pub fn pad(words: &mut Vec<u64>, count: usize) -> Result<(), OutOfMemory>
    ensures padded { OnOk result (length words.new.items ≡ max (length words.old.items) count) }
    ensures same { (k : ℕ) → slice_index words.new.items k ≡ slice_index words.old.items k }
    ensures err { OnErr result (words.new.items ≡ words.old.items) }
{
    if words.len() < count {
        words.resize(count, 0)?;
    }
    Ok(())
}

/// Adds a number to a bit vector, which must have a word for the number.
pub fn put(words: &mut [u64], number: usize)
    requires { number / 64 < length words.old }
    ensures put { (q : ℕ) → has_bit words.new q ≡ ((q == number) || has_bit words.old q) }
    ensures len { length words.new ≡ length words.old }
    ensures there { slice_index words.new (number / 64) ≢ 0 }
    ensures word { slice_index words.new (number / 64) ≡ bit_or
        (slice_index words.old (number / 64)) (2 ^ (number % 64)) }
    ensures others { (k : ℕ) → k ≢ number / 64 → slice_index words.new k ≡ slice_index words.old k }
{
    words[number / 64] |= 1 << (number % 64);
}

/// Removes a number from a bit vector, which must have a word for the number. The bit vector is not
/// trimmed.
pub fn take(words: &mut [u64], number: usize)
    requires { number / 64 < length words.old }
    ensures taken { (q : ℕ) → has_bit words.new q ≡ (has_bit words.old q && not (q == number)) }
    ensures len { length words.new ≡ length words.old }
    ensures less { (k : ℕ) → slice_index words.new k ≤ slice_index words.old k }
{
    words[number / 64] &= !(1 << (number % 64));
}

// The number of words without the zero words at the end.
fn trimmed_len(words: &[u64]) -> usize
    ensures within { result ≤ length words.now }
    ensures rest { (k : ℕ) → result ≤ k → slice_index words.now k ≡ 0 }
    ensures last { (k : ℕ) → k + 1 ≡ result → slice_index words.now k ≢ 0 }
{
    for place in (0..words.len()).rev() {
        if words[place] != 0 {
            return place + 1;
        }
    }
    0
}

/// Removes the zero words at the end.
pub fn trim(words: &mut Vec<u64>)
    ensures trimmed { IsTrimmed words.new.items }
    ensures len { length words.new.items ≤ length words.old.items }
    ensures same { (k : ℕ) → slice_index words.new.items k ≡ slice_index words.old.items k }
{
    let len = trimmed_len(words);
    words.truncate(len);
}

// Joins a word into the word at a place by bitwise or, and returns whether the latter changed.
fn join_word(words: &mut [u64], place: usize, word: u64) -> bool
    requires { place < length words.old }
    ensures joined { slice_index words.new place ≡ bit_or (slice_index words.old place) word }
    ensures others { (k : ℕ) → k ≢ place → slice_index words.new k ≡ slice_index words.old k }
    ensures len { length words.new ≡ length words.old }
    ensures told { result ≡ not (slice_index words.new place == slice_index words.old place) }
{
    let old = words[place];
    let new = old | word;
    words[place] = new;
    new != old
}

/// Adds the numbers of `other` to `words`, which must have at least as many words. Returns whether
/// `words` changed.
pub fn join_words(words: &mut [u64], other: &[u64]) -> bool
    requires { length other.now ≤ length words.old }
    ensures joined { (k : ℕ) →
        slice_index words.new k ≡ bit_or (slice_index words.old k) (slice_index other.now k) }
    ensures len { length words.new ≡ length words.old }
    ensures told { MatchBool result
        ((k : ℕ) × (slice_index words.new k ≢ slice_index words.old k))
        ((k : ℕ) → slice_index words.new k ≡ slice_index words.old k) }
{
    let mut changed = false;
    for place in 0..other.len() {
        changed |= join_word(words, place, other[place]);
    }
    changed
}

/// The words of the numbers that are in both bit vectors. They are not trimmed: the last words may
/// be 0.
pub fn meet_words(alloc: Global, left: &[u64], right: &[u64]) -> Result<Vec<u64>, OutOfMemory>
    ensures met { IfOk result (λ both. (k : ℕ) → slice_index both.items k ≡ bit_and
        (slice_index left.now k) (slice_index right.now k)) }
    ensures len { IfOk result (λ both. length both.items ≤ length left.now) }
{
    let mut both = Vec::new(alloc);
    for place in 0..left.len().min(right.len()) {
        both.push(left[place] & right[place])?;
    }
    Ok(both)
}

// A list of `count` words, in each of which all 64 bits are 1.
fn full_words(alloc: Global, count: usize) -> Result<Vec<u64>, OutOfMemory>
    ensures { IfOk result (λ words. words.items ≡ replicate count (2 ^ 64 - 1)) }
{
    let mut words = Vec::new(alloc);
    words.resize(count, u64::MAX)?;
    Ok(words)
}

/// The bit vector of the numbers below a count.
pub fn words_below(alloc: Global, count: usize) -> Result<Vec<u64>, OutOfMemory>
    requires { count ≤ 2 ^ 63 }
    ensures each { IfOk result (λ words. (q : ℕ) → has_bit words.items q ≡ nat_lt q count) }
    ensures is { IfOk result (λ words. IsBitVector words.items) }
{
    let mut words = full_words(alloc, count / 64)?;
    if count % 64 == 0 {
        return Ok(words);
    }
    words.push((1 << (count % 64)) - 1)?;
    Ok(words)
}
