//! Kinds of characters.
ghost use Rattle.std.specs.Prelude.{◌≡◌};
ghost use Rattle.constant_names.specs.Words.{begins, has_word, is_capital, is_letter, is_small};

/// Whether a character is a capital letter of ASCII.
pub(crate) fn is_capital(c: char) -> bool
    ensures { result ≡ is_capital c }
{
    'A' <= c && c <= 'Z'
}

/// Whether a character is a small letter or a digit of ASCII.
pub(crate) fn is_small(c: char) -> bool
    ensures { result ≡ is_small c }
{
    ('a' <= c && c <= 'z') || ('0' <= c && c <= '9')
}

/// Whether a character is a letter or a digit of ASCII.
pub(crate) fn is_letter(c: char) -> bool
    ensures { result ≡ is_letter c }
{
    is_capital(c) || is_small(c)
}

/// Whether a character begins a word after another character.
pub(crate) fn begins(before: char, c: char) -> bool
    ensures { result ≡ begins before c }
{
    if is_capital(c) {
        return !is_capital(before);
    }
    if is_small(c) {
        return !is_letter(before);
    }
    true
}

/// Whether a text has a character other than an underscore.
pub(crate) fn has_word(name: &str) -> bool
    ensures { result ≡ has_word name.now }
{
    name.chars().any(|c| c != '_')
}
