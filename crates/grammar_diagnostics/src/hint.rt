//! A way out of a fault of a line.
ghost use Rattle.std.specs.Prelude.{◌≡◌};
ghost use Rattle.grammar_diagnostics.specs.Hints.{begins_comment, begins_curly, by_first_byte, by_inner_byte, by_last_byte, by_later_byte, by_quote, by_sign, equals_hint, first_byte, hint_of, is_arrow, is_lone_sign, is_sign, last_byte, symbol_hint, third_byte, word_hint};
ghost use Rattle.grammar_diagnostics.specs.Texts.{hint_text};

use crate::reason::Reason;

/// A way out of a fault of a line.
#[derive(Clone, Copy, Debug, PartialEq, Eq)]
pub enum Hint {
    /// A right side without symbols needs no sign.
    EmptyRight,
    /// Each alternative is a production of its own.
    Alternative,
    /// The sign of a production is `=`.
    Equals,
    /// `=` is a word of its own.
    Blanks,
    /// A production ends with its line.
    End,
    /// Blanks alone separate symbols.
    Comma,
    /// There are no comments.
    Comment,
    /// A literal has double quotes.
    DoubleQuotes,
    /// Typographic quotes are not quotes.
    CurlyQuotes,
    /// A literal has no blank and no quote in it.
    Literal,
    /// There are no directives.
    Directive,
    /// A byte order mark is a character like any other.
    ByteOrderMark,
    /// There are no signs of repetition.
    Repetition,
    /// There are no groups.
    Group,
    /// A name has no hyphen.
    Hyphen,
    /// What a name has.
    Name,
    /// What a symbol is.
    Symbol,
    /// What a production is.
    Production,
    /// What a mark is.
    Mark,
}

impl Hint {
    /// The hint in words.
    pub fn text(&self) -> &'static str
        ensures { result.now ≡ hint_text self.now }
    {
        match self {
            Hint::EmptyRight => "an empty right side is a line that ends with \"=\"",
            Hint::Alternative => "write the alternative as a production on a line of its own",
            Hint::Equals => "write \"=\" between the left side and the right side",
            Hint::Blanks => "write blanks around \"=\"",
            Hint::End => "leave the end sign out, a production ends with its line",
            Hint::Comma => "separate symbols by blanks alone",
            Hint::Comment => "leave the comment out, there are no comments",
            Hint::DoubleQuotes => "write a literal between double quotes",
            Hint::CurlyQuotes => "write straight double quotes",
            Hint::Literal => "a literal ends with a quote, and has no blank and no quote in it",
            Hint::Directive => "leave it out, there are no directives",
            Hint::ByteOrderMark => "save the file without a byte order mark",
            Hint::Repetition => "write the repetition as productions of a nonterminal",
            Hint::Group => "write the group as a nonterminal of its own",
            Hint::Hyphen => "write \"_\" and not \"-\" in a name",
            Hint::Name => "a name has ASCII letters, digits and \"_\", and begins with no digit",
            Hint::Symbol => "a symbol is a name, or a literal between double quotes",
            Hint::Production => "a production is a name, \"=\" and symbols",
            Hint::Mark => "a mark is \"inline\" and one name",
        }
    }
}

/// The hint for a faulty word.
pub fn hint_of(reason: Reason, word: &str) -> Hint
    ensures { result ≡ hint_of reason word.now }
{
    match reason {
        Reason::NoLeftSide => Hint::Production,
        Reason::AfterMark => Hint::Mark,
        Reason::EmptyLiteral => Hint::EmptyRight,
        Reason::NoEquals => Hint::Production,
        Reason::LeftSide | Reason::Mark => word_hint(word, Hint::Name),
        Reason::NotEquals => equals_hint(word),
        Reason::Symbol => symbol_hint(word),
    }
}

// The hint for a word in the place of `=`.
fn equals_hint(word: &str) -> Hint
    ensures { result ≡ equals_hint word.now }
{
    if is_arrow(word) || last_byte(word.as_bytes()) == b':' {
        return Hint::Equals;
    }
    Hint::Production
}

// The hint for a word in the place of a symbol.
fn symbol_hint(word: &str) -> Hint
    ensures { result ≡ symbol_hint word.now }
{
    if word == "=" {
        return Hint::Production;
    }
    if is_lone_sign(word.as_bytes()) {
        return Hint::DoubleQuotes;
    }
    word_hint(word, Hint::Symbol)
}

// The hint for a word, and `usual` if nothing about the word is known.
fn word_hint(word: &str, usual: Hint) -> Hint
    ensures { result ≡ word_hint word.now usual }
{
    if is_arrow(word) {
        return Hint::Equals;
    }
    match by_sign(word.as_bytes()) {
        None => usual,
        Some(hint) => hint,
    }
}

// Whether a word is the sign of productions in another notation.
fn is_arrow(word: &str) -> bool
    ensures { result ≡ is_arrow word.now }
{
    word == "->" || word == "::=" || word == ":=" || word == "=>" || word == "<-" || word == "=="
}

// Whether a word is one sign that is often a terminal.
fn is_lone_sign(word: &[u8]) -> bool
    ensures { result ≡ is_lone_sign word.now }
{
    word.len() == 1 && is_sign(first_byte(word))
}

// Whether a byte is a sign that is often a terminal.
fn is_sign(byte: u8) -> bool
    ensures { result ≡ is_sign byte }
{
    byte == b'+' || byte == b'-' || byte == b'/' || byte == b'<' || byte == b'>'
}

// The hint for a word by the signs in it.
fn by_sign(word: &[u8]) -> Option<Hint>
    ensures { result ≡ by_sign word.now }
{
    if word.starts_with(&[239, 187, 191]) {
        return Some(Hint::ByteOrderMark);
    }
    if begins_curly(word) {
        return Some(Hint::CurlyQuotes);
    }
    if begins_comment(word) {
        return Some(Hint::Comment);
    }
    if first_byte(word) == b'"' {
        return by_quote(word);
    }
    match by_first_byte(first_byte(word)) {
        None => by_later_byte(word),
        Some(hint) => Some(hint),
    }
}

// Whether a word begins with a typographic quote.
fn begins_curly(word: &[u8]) -> bool
    ensures { result ≡ begins_curly word.now }
{
    let third = third_byte(word);
    word.starts_with(&[226, 128]) && third >= 152 && third <= 159
}

// The third byte of a word. It is 0 if there is none.
fn third_byte(word: &[u8]) -> u8
    ensures { result ≡ third_byte word.now }
{
    match word.get(2) {
        None => 0,
        Some(byte) => *byte,
    }
}

// Whether a word begins a comment of another notation.
fn begins_comment(word: &[u8]) -> bool
    ensures { result ≡ begins_comment word.now }
{
    word.starts_with(b"//") || word.starts_with(b"/*") || word.starts_with(b"--")
}

// The hint for a word that begins with a double quote. A literal has none.
fn by_quote(word: &[u8]) -> Option<Hint>
    ensures { result ≡ by_quote word.now }
{
    if word.len() < 2 {
        return Some(Hint::Literal);
    }
    let inner = &word[1..word.len() - 1];
    if inner.contains(&b'"') {
        return by_later_byte(word);
    }
    if last_byte(word) == b'"' {
        return None;
    }
    Some(Hint::Literal)
}

// The hint for a word by its last byte, and else by the others.
fn by_later_byte(word: &[u8]) -> Option<Hint>
    ensures { result ≡ by_later_byte word.now }
{
    match by_last_byte(last_byte(word)) {
        None => by_inner_byte(word),
        Some(hint) => Some(hint),
    }
}

// The first byte of a word. It is 0 if there is none.
fn first_byte(word: &[u8]) -> u8
    ensures { result ≡ first_byte word.now }
{
    match word.first() {
        None => 0,
        Some(byte) => *byte,
    }
}

// The last byte of a word. It is 0 if there is none.
fn last_byte(word: &[u8]) -> u8
    ensures { result ≡ last_byte word.now }
{
    match word.last() {
        None => 0,
        Some(byte) => *byte,
    }
}

// The hint for a word that begins with a byte.
fn by_first_byte(byte: u8) -> Option<Hint>
    ensures { result ≡ by_first_byte byte }
{
    if byte == b'#' {
        return Some(Hint::Comment);
    }
    if byte == b'\'' {
        return Some(Hint::DoubleQuotes);
    }
    if byte == b'%' {
        return Some(Hint::Directive);
    }
    if byte == b'(' || byte == b'[' || byte == b'{' {
        return Some(Hint::Group);
    }
    None
}

// The hint for a word that ends with a byte.
fn by_last_byte(byte: u8) -> Option<Hint>
    ensures { result ≡ by_last_byte byte }
{
    if byte == b'*' || byte == b'+' || byte == b'?' {
        return Some(Hint::Repetition);
    }
    if byte == b';' {
        return Some(Hint::End);
    }
    if byte == b',' {
        return Some(Hint::Comma);
    }
    if byte == b':' {
        return Some(Hint::Equals);
    }
    if byte == b')' || byte == b']' || byte == b'}' {
        return Some(Hint::Group);
    }
    None
}

// The hint for a word in which a byte is.
fn by_inner_byte(word: &[u8]) -> Option<Hint>
    ensures { result ≡ by_inner_byte word.now }
{
    if word.contains(&b'|') {
        return Some(Hint::Alternative);
    }
    if first_byte(word) == b'"' {
        return Some(Hint::Literal);
    }
    if word.contains(&b'>') && first_byte(word) != b'<' {
        return Some(Hint::Equals);
    }
    if word.contains(&b'=') {
        return Some(Hint::Blanks);
    }
    if word.contains(&b'-') {
        return Some(Hint::Hyphen);
    }
    None
}
