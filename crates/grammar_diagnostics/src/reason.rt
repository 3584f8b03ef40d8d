//! What is wrong with a line of a grammar text.
ghost use Rattle.std.specs.Prelude.{◌≡◌};
ghost use Rattle.grammar_diagnostics.specs.Texts.{reason_text};

/// What is wrong with a line, by its faulty word.
#[derive(Clone, Copy, Debug, PartialEq, Eq)]
pub enum Reason {
    /// The line begins with `=`.
    NoLeftSide,
    /// The first word is not a name.
    LeftSide,
    /// The only word of the line is a name.
    NoEquals,
    /// The word after a name is not `=`.
    NotEquals,
    /// The word after `inline` is not a name.
    Mark,
    /// A word after a name that is marked.
    AfterMark,
    /// A literal without characters.
    EmptyLiteral,
    /// A word of a right side that is neither a name nor a literal.
    Symbol,
}

impl Reason {
    /// The reason in words, which say something of the faulty word.
    pub fn text(&self) -> &'static str
        ensures { result.now ≡ reason_text self.now }
    {
        match self {
            Reason::NoLeftSide => "has no name before it",
            Reason::LeftSide => "is not a name",
            Reason::NoEquals => "has no \"=\" after it",
            Reason::NotEquals => "is in the place of \"=\"",
            Reason::Mark => "is not a name",
            Reason::AfterMark => "is one word too many",
            Reason::EmptyLiteral => "is an empty literal",
            Reason::Symbol => "is neither a name nor a literal",
        }
    }
}
