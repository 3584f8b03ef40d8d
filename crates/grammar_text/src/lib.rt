//! The grammar text: a reader that is proved, and a builder of grammars by calls. What most callers
//! need can be named without its module, as in `use grammar_text::{GrammarBuilder, read};`.
//!
//! - `builder`, `builder_error`: the builder, and its errors.
//! - `grammar`, `read_error`: the reader of a text, and its errors.
//! - `lines`: the lines of a text, and what each line says.
//! - `symbols`: names, literals and symbols of words.
#![tactic(auto)]

pub mod builder;
pub mod builder_error;
mod collected;
pub mod grammar;
pub mod lines;
pub mod read_error;
pub mod symbols;

pub use builder::{GrammarBuilder, SymbolText};
pub use builder_error::BuilderError;
pub use grammar::read;
pub use read_error::ReadError;
pub use symbols::{literals, name_of};
