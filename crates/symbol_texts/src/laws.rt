//! Theorems on names. The contract of the function states them, and the function does nothing.
ghost use Rattle.symbol_texts.specs.Laws.{NonterminalsDiffer, ProductionsDiffer, TerminalsDiffer};

/// The names of the terminals of a grammar differ, with that of the end of the input. So do the
/// names of its nonterminals, and those of its productions.
pub fn names_differ()
    ensures terminals { TerminalsDiffer }
    ensures nonterminals { NonterminalsDiffer }
    ensures productions { ProductionsDiffer }
{}
