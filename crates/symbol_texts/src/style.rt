//! The styles of names.
ghost use Rattle.std.specs.Prelude.{◌≡◌, ◌++◌, IfOk, OnOk, string_bytes};
ghost use Rattle.symbol_texts.specs.Style.{mark_of, reserved_in, words_in};
ghost use Rattle.symbol_texts.specs.Texts.{texts_of};

use constant_names::camel::push_camel;
use constant_names::upper::push_upper;
use std::alloc::{AllocError, Global};

/// How a name is made of words: in capitals with underscores between them, as in C and Python, or
/// each with a capital at its beginning, as in Rust.
#[derive(Clone, Copy)]
pub enum Style {
    Capitals,
    Camel,
}

/// Appends the words of a text. They come after other words of the name if `more`. An error is an
/// allocation failure.
pub fn push_words(
    text: &mut String,
    style: Style,
    words: &str,
    more: bool,
) -> Result<(), AllocError>
    ensures { OnOk result (string_bytes text.new ≡
        string_bytes text.old ++ words_in style more words.now) }
{
    match style {
        Style::Capitals => push_upper(text, words, more),
        Style::Camel => push_camel(text, words),
    }
}

/// What is between a base and its number in a name. No base has it.
pub fn mark_of(style: Style) -> &'static str
    ensures { result.now ≡ mark_of style }
{
    match style {
        Style::Capitals => "__",
        Style::Camel => "_",
    }
}

/// The names that no constant may have, since they mean something else in the language. An error is
/// an allocation failure.
pub fn reserved_in(alloc: Global, style: Style) -> Result<Vec<String>, AllocError>
    ensures { IfOk result (λ names. texts_of names.items ≡ reserved_in style) }
{
    let mut names = Vec::new(alloc);
    match style {
        Style::Capitals => {}
        Style::Camel => names.push(String::from_str(alloc, "Self")?)?,
    }
    Ok(names)
}
