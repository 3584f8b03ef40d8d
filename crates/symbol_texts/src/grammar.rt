//! The symbols and the productions of a grammar, as texts.

/// A symbol of a right side. The text of a terminal has no quotes.
#[derive(Drop)]
pub struct SymbolText {
    pub is_terminal: bool,
    pub text: String,
}

/// A production: its nonterminal, and the symbols of its right side.
#[derive(Drop)]
pub struct ProductionText {
    pub left: String,
    pub right: Vec<SymbolText>,
}

/// The texts of the terminals, the names of the nonterminals, and the productions. Each has the
/// number of its place. The end of the input is none of the terminals.
#[derive(Drop)]
pub struct GrammarTexts {
    pub terminals: Vec<String>,
    pub nonterminals: Vec<String>,
    pub productions: Vec<ProductionText>,
}
