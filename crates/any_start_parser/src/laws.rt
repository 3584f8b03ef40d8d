//! Theorems on the expected tokens. The contract of each function states them, and the function
//! does nothing.
ghost use Rattle.any_start_parser.specs.Laws.{AugmentedRightNext, ExpectedFromAny, TokensFromAny};

/// A set that `expected_after` or `Machine::expected` of `table_parser` returns by a table of an
/// augmented grammar has exactly the tokens that may come next for the old start symbol.
pub fn expected_tokens()
    ensures right_next { AugmentedRightNext }
    ensures tokens { TokensFromAny }
    ensures after { ExpectedFromAny }
{}
