//! The symbols around the dot of an item.
ghost use Rattle.std.specs.Prelude.{◌≡◌, [], None};

use lalrpop_grammar::repr::Symbol;

/// The symbols before the dot, the symbol after the dot, and the symbols after that one.
#[derive(Clone, Copy, Debug, PartialEq, Eq)]
pub struct SymbolSets<'grammar> {
    pub prefix: &'grammar [Symbol],
    pub cursor: Option<&'grammar Symbol>,
    pub suffix: &'grammar [Symbol],
}

impl<'grammar> SymbolSets<'grammar> {
    /// A value without symbols.
    pub fn new() -> Self
        ensures prefix { result.prefix.now ≡ [] }
        ensures cursor { result.cursor ≡ None }
        ensures suffix { result.suffix.now ≡ [] }
    {
        SymbolSets {
            prefix: &[],
            cursor: None,
            suffix: &[],
        }
    }
}
