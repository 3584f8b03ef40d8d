//! Functions that read bit vectors. Number n is bit n % 64 of word n / 64. All bits after the last
//! word are 0.
ghost use Rattle.std.specs.Prelude.{◌≡◌, ◌+◌, ◌*◌, ◌/◌, ◌^◌, ◌<◌, ◌≤◌, ℕ, List, length, slice_index, true, false, IsTrue, IsFalse, IfSome, IsNone};
ghost use Rattle.lalrpop_collections.specs.lists.BitVectors.{has_bit, members_from, folded, IsBitVector, IsLeastFrom, IsLeastApart};
ghost use Rattle.std.specs.Hash.FoldHasher.{folded_multiply};
ghost use Rattle.std.specs.Ordering.{nat_cmp};
ghost use Rattle.std.specs.Cmp.Lexicographic.{slice_cmp};

use std::cmp::Ordering;

const MULTIPLIER: u64 = 0x9e37_79b9_7f4a_7c15;

// The word at a place, or 0 if there is none.
fn word_at(words: &[u64], place: usize) -> u64
    ensures word { result ≡ slice_index words.now place }
    ensures low { result < 2 ^ 64 }
{
    if place < words.len() {
        return words[place];
    }
    0
}

/// Whether a number is in a bit vector.
pub fn has_number(words: &[u64], number: usize) -> bool
    ensures { result ≡ has_bit words.now number }
{
    (word_at(words, number / 64) >> (number % 64)) & 1 == 1
}

// Whether the word of `number` has a greater number.
fn has_greater_beside(words: &[u64], number: usize) -> bool
    ensures yes { IsTrue result → (n : ℕ) × (number < n) × IsTrue (has_bit words.now n) }
    ensures no { IsFalse result → (n : ℕ) →
        number < n → n < 64 * (number / 64) + 64 → has_bit words.now n ≡ false }
{
    (word_at(words, number / 64) >> (number % 64)) >> 1 != 0
}

/// Whether a bit vector has a number greater than `number`.
pub fn has_greater(words: &[u64], number: usize) -> bool
    requires { IsBitVector words.now }
    ensures yes { IsTrue result → (n : ℕ) × (number < n) × IsTrue (has_bit words.now n) }
    ensures no { IsFalse result → (n : ℕ) → number < n → has_bit words.now n ≡ false }
{
    number / 64 + 1 < words.len() || has_greater_beside(words, number)
}

// The least number that is not below `first`, among the 64 numbers of the word of `first`.
fn least_beside(words: &[u64], first: usize) -> Option<usize>
    requires { first ≤ 2 ^ 63 }
    ensures some { IfSome result (IsLeastFrom words.now first) }
    ensures none { IsNone result → (n : ℕ) →
        first ≤ n → n < 64 * (first / 64) + 64 → has_bit words.now n ≡ false }
{
    let rest = word_at(words, first / 64) >> (first % 64);
    if rest == 0 {
        return None;
    }
    Some(first + rest.trailing_zeros() as usize)
}

/// The least number of a bit vector that is not below `first`.
pub fn least_from(words: &[u64], first: usize) -> Option<usize>
    requires few { length words.now ≤ 2 ^ 57 }
    requires first { first ≤ 64 * length words.now }
    ensures some { IfSome result (IsLeastFrom words.now first) }
    ensures within { IfSome result (λ n. n < 64 * length words.now) }
    ensures none { IsNone result → (n : ℕ) → first ≤ n → has_bit words.now n ≡ false }
{
    let beside = least_beside(words, first);
    if beside.is_some() {
        return beside;
    }
    for place in first / 64 + 1..words.len() {
        if words[place] != 0 {
            return Some(64 * place + words[place].trailing_zeros() as usize);
        }
    }
    None
}

// The least number that exactly one of two bit vectors has.
fn least_difference(left: &[u64], right: &[u64]) -> Option<usize>
    requires left { IsBitVector left.now }
    requires right { IsBitVector right.now }
    ensures some { IfSome result (IsLeastApart (has_bit left.now) (has_bit right.now)) }
    ensures none { IsNone result → left.now ≡ right.now }
{
    for place in 0..left.len().max(right.len()) {
        let apart = word_at(left, place) ^ word_at(right, place);
        if apart != 0 {
            return Some(64 * place + apart.trailing_zeros() as usize);
        }
    }
    None
}

// The order of two bit vectors whose least difference is `number`. The bit vector without `number`
// is the lesser one if it has no greater number. Otherwise it is the greater one.
fn compare_from(left: &[u64], right: &[u64], number: usize) -> Ordering
    requires left { IsBitVector left.now }
    requires right { IsBitVector right.now }
    requires least { IsLeastApart (has_bit left.now) (has_bit right.now) number }
    ensures { result ≡ slice_cmp nat_cmp (members_from left.now 0) (members_from right.now 0) }
{
    if has_number(left, number) {
        if has_greater(right, number) {
            return Ordering::Less;
        }
        return Ordering::Greater;
    }
    if has_greater(left, number) {
        return Ordering::Greater;
    }
    Ordering::Less
}

/// The order of two bit vectors. It is the lexicographic order of their ascending lists of numbers.
pub fn compare(left: &[u64], right: &[u64]) -> Ordering
    requires left { IsBitVector left.now }
    requires right { IsBitVector right.now }
    ensures { result ≡ slice_cmp nat_cmp (members_from left.now 0) (members_from right.now 0) }
{
    match least_difference(left, right) {
        None => Ordering::Equal,
        Some(number) => compare_from(left, right, number),
    }
}

/// Whether two bit vectors have a number in common.
pub fn share_number(left: &[u64], right: &[u64]) -> bool
    ensures yes { IsTrue result →
        (n : ℕ) × IsTrue (has_bit left.now n) × IsTrue (has_bit right.now n) }
    ensures no { IsFalse result →
        (n : ℕ) → IsTrue (has_bit left.now n) → IsTrue (has_bit right.now n) → ⊥ }
{
    for place in 0..left.len() {
        if left[place] & word_at(right, place) != 0 {
            return true;
        }
    }
    false
}

/// Whether each number of `left` is in `right`.
pub fn are_within(left: &[u64], right: &[u64]) -> bool
    ensures yes { IsTrue result →
        (n : ℕ) → IsTrue (has_bit left.now n) → IsTrue (has_bit right.now n) }
    ensures no { IsFalse result →
        (n : ℕ) × IsTrue (has_bit left.now n) × (has_bit right.now n ≡ false) }
{
    for place in 0..left.len() {
        if left[place] & !word_at(right, place) != 0 {
            return false;
        }
    }
    true
}

// The exclusive or of the two 64-bit halves of a product of 128 bits.
fn folded_multiply(a: u64, b: u64) -> u64
    ensures { result ≡ folded_multiply a b }
{
    let product = a as u128 * b as u128;
    (product & 0xFFFF_FFFF_FFFF_FFFF) as u64 ^ (product >> 64) as u64
}

/// Folds the words into one word, in their order, for use in a hash.
pub fn fold_words(words: &[u64]) -> u64
    ensures { result ≡ folded words.now }
{
    let mut state = 0x243f_6a88_85a3_08d3;
    for &word in words {
        state = folded_multiply(state ^ word, MULTIPLIER);
    }
    state
}
