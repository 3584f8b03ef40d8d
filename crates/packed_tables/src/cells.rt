//! Small steps that the packing of actions and of gotos shares.
ghost use Rattle.std.specs.Prelude.{◌<◌, OnOk, length};

use crate::error::PackError;

/// A number of 32 bits. The error is `TooLarge`.
pub(crate) fn small(number: usize) -> Result<u32, PackError> {
    match u32::try_from(number) {
        Ok(number) => Ok(number),
        Err(_) => Err(PackError::TooLarge),
    }
}

/// The length of the first row, or 0 if there is none.
pub(crate) fn width_of(rows: &[Vec<u32>]) -> usize {
    match rows.first() {
        Some(row) => row.len(),
        None => 0,
    }
}

/// Sets a bit of words, and adds words that are 0 up to that of the bit.
pub(crate) fn put_bit(words: &mut Vec<u64>, place: usize) -> Result<(), PackError> {
    let word = place / 64;
    grow(words, word)?;
    words[word] |= 1 << (place % 64);
    Ok(())
}

// Adds words that are 0 up to the one with a number.
fn grow(words: &mut Vec<u64>, number: usize) -> Result<(), PackError>
    ensures { OnOk result (number < length words.new.items) }
{
    let Some(len) = number.checked_add(1) else {
        return Err(PackError::TooLarge);
    };
    if words.len() < len {
        words.resize(len, 0)?;
    }
    Ok(())
}

/// The word with a number, or 0 after the last one.
pub(crate) fn word_at(words: &[u64], number: usize) -> u64 {
    if number < words.len() {
        words[number]
    } else {
        0
    }
}

/// The 64 bits from a place on.
pub(crate) fn bits_from(words: &[u64], place: usize) -> u64 {
    let low = word_at(words, place / 64) >> (place % 64);
    if place % 64 == 0 {
        return low;
    }
    low | word_at(words, place / 64 + 1) << (64 - place % 64)
}
