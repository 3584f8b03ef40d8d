//! The syntax of numbers, and their values.
use crate::fault::FaultKind;
use serde_json::Number;

/// What was read of a number last.
#[derive(Clone, Copy)]
pub enum NumberPart {
    Minus,
    /// A zero at the beginning.
    Zero,
    /// A digit after that zero, which the syntax does not allow.
    AfterZero,
    Integer,
    Point,
    Fraction,
    /// The letter of an exponent.
    Letter,
    /// The sign of an exponent.
    Sign,
    Exponent,
}

/// The part with which a number begins, if the character begins one.
pub fn first_part(character: char) -> Option<NumberPart> {
    match character {
        '-' => Some(NumberPart::Minus),
        '0' => Some(NumberPart::Zero),
        '1'..='9' => Some(NumberPart::Integer),
        _ => None,
    }
}

/// The part after one more character, if the number goes on by it.
pub fn next_part(part: NumberPart, character: char) -> Option<NumberPart> {
    match (part, character) {
        (NumberPart::Minus, '0') => Some(NumberPart::Zero),
        (NumberPart::Minus, '1'..='9') => Some(NumberPart::Integer),
        (NumberPart::Zero | NumberPart::AfterZero, '0'..='9') => Some(NumberPart::AfterZero),
        (NumberPart::Integer, '0'..='9') => Some(NumberPart::Integer),
        (NumberPart::Zero | NumberPart::Integer, '.') => Some(NumberPart::Point),
        (NumberPart::Point | NumberPart::Fraction, '0'..='9') => Some(NumberPart::Fraction),
        (NumberPart::Zero | NumberPart::Integer | NumberPart::Fraction, 'e' | 'E') => {
            Some(NumberPart::Letter)
        }
        (NumberPart::Letter, '+' | '-') => Some(NumberPart::Sign),
        (NumberPart::Letter | NumberPart::Sign | NumberPart::Exponent, '0'..='9') => {
            Some(NumberPart::Exponent)
        }
        _ => None,
    }
}

/// The number that a text with this last part means.
pub fn number_of(part: NumberPart, text: &str) -> Result<Number, FaultKind> {
    match part {
        NumberPart::Minus | NumberPart::Point | NumberPart::Letter | NumberPart::Sign => {
            Err(FaultKind::NoDigit)
        }
        NumberPart::AfterZero => Err(FaultKind::LeadingZero),
        _ => nearest(text).ok_or(FaultKind::TooLarge),
    }
}

// An integer of 64 bits, or else the nearest float of 64 bits.
fn nearest(text: &str) -> Option<Number> {
    if let Ok(number) = text.parse::<u64>() {
        return Some(Number::from(number));
    }
    if let Ok(number) = text.parse::<i64>() {
        return Some(Number::from(number));
    }
    match text.parse::<f64>() {
        Ok(number) => Number::from_f64(number),
        Err(_) => None,
    }
}
