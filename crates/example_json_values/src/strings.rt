//! The characters of strings, and their escapes.
use crate::fault::FaultKind;

/// What was read of a string last.
#[derive(Clone, Copy)]
pub enum StringPart {
    /// The first quotation mark, a character, or a whole escape.
    Whole,
    /// The reverse solidus of an escape.
    Escape,
    /// Some of the four digits of an escape: how many, and their value.
    Digits {
        count: u32,
        value: u32,
        high: Option<u32>,
    },
    /// The escape of a high surrogate, after which that of a low one must come.
    High(u32),
    /// The reverse solidus after such an escape.
    HighEscape(u32),
    /// The last quotation mark.
    End,
}

/// The part after one more character, and the character of the string that is then whole.
pub type Step = Result<(StringPart, Option<char>), FaultKind>;

/// Reads one more character.
pub fn next_part(part: StringPart, character: char) -> Step {
    match (part, character) {
        (StringPart::Whole, '"') => Ok((StringPart::End, None)),
        (StringPart::Whole, '\\') => Ok((StringPart::Escape, None)),
        (StringPart::Whole, '\0'..='\x1F') => Err(FaultKind::ControlCharacter),
        (StringPart::Whole, _) => Ok((StringPart::Whole, Some(character))),
        (StringPart::Escape, 'u') => Ok((no_digits(None), None)),
        (StringPart::Escape, _) => Ok((StringPart::Whole, Some(escaped(character)?))),
        (StringPart::Digits { count, value, high }, _) => with_digit(count, value, high, character),
        (StringPart::High(high), '\\') => Ok((StringPart::HighEscape(high), None)),
        (StringPart::HighEscape(high), 'u') => Ok((no_digits(Some(high)), None)),
        _ => Err(FaultKind::LoneSurrogate),
    }
}

// An escape by digits whose first digit comes next.
fn no_digits(high: Option<u32>) -> StringPart {
    StringPart::Digits {
        count: 0,
        value: 0,
        high,
    }
}

// The character that an escape of one character means.
fn escaped(character: char) -> Result<char, FaultKind> {
    match character {
        '"' | '\\' | '/' => Ok(character),
        'b' => Ok('\x08'),
        'f' => Ok('\x0C'),
        'n' => Ok('\n'),
        'r' => Ok('\r'),
        't' => Ok('\t'),
        _ => Err(FaultKind::UnknownEscape(character)),
    }
}

// Reads one of four digits.
fn with_digit(count: u32, value: u32, high: Option<u32>, character: char) -> Step {
    let Some(digit) = character.to_digit(16) else {
        return Err(FaultKind::NoHexadecimal);
    };
    let value = value.wrapping_mul(16).wrapping_add(digit);
    if count < 3 {
        let count = count + 1;
        return Ok((StringPart::Digits { count, value, high }, None));
    }
    with_unit(high, value)
}

// What the UTF-16 code unit of four digits means, after a high surrogate or without one.
fn with_unit(high: Option<u32>, unit: u32) -> Step {
    let code = match (high, unit) {
        (None, 0xD800..=0xDBFF) => return Ok((StringPart::High(unit), None)),
        (None, _) => unit,
        (Some(high), 0xDC00..=0xDFFF) => joined(high, unit),
        (Some(_), _) => return Err(FaultKind::LoneSurrogate),
    };
    match char::from_u32(code) {
        Some(character) => Ok((StringPart::Whole, Some(character))),
        None => Err(FaultKind::LoneSurrogate),
    }
}

// The code point of a surrogate pair: each half has ten of its bits.
fn joined(high: u32, low: u32) -> u32 {
    let bits = high.wrapping_sub(0xD800).wrapping_mul(0x400);
    0x10000_u32
        .wrapping_add(bits)
        .wrapping_add(low.wrapping_sub(0xDC00))
}
