//! What a generated file has of symbols, productions and arrays.

/// A constant: its name, and the text of its comment.
#[derive(Debug, Drop)]
pub struct Constant {
    pub name: String,
    pub comment: String,
}

/// An array of numbers, with the text of its comment.
#[derive(Debug, Drop)]
pub struct Array {
    pub name: String,
    pub comment: String,
    pub numbers: Vec<u32>,
}
