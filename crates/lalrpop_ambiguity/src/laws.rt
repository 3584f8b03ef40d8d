//! What a witness of ambiguity says. The contract of each function states theorems, and the function
//! does nothing.
ghost use Rattle.lalrpop_ambiguity.specs.witnesses.Witnesses.{DerivationsHaveTrees, WitnessesHaveSentences};

/// A witness gives two derivations of a sentence, if its root is useful and each symbol at its leaves
/// derives a list of terminals that is not empty. These derivations have different parse trees, if no
/// two productions of a nonterminal have the same right side.
pub fn ambiguity()
    ensures sentences { WitnessesHaveSentences }
    ensures trees { DerivationsHaveTrees }
{}
