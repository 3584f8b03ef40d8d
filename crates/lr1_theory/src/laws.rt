//! Theorems on the definitions. The contract of each function states theorems, and the function
//! does nothing. Theorems on the types of grammars are in `lalrpop_grammar`.
ghost use Rattle.lalrpop_grammar.specs.parsing.Laws.{FirstByCases, SentencesHaveTrees, FirstSetsAreFirst, FirstSetsAreNullable};
ghost use Rattle.lalrpop_grammar.specs.parsing.Laws.{RunsHaveOutcomes, OutcomesAreUnique, OneParseTree, AnswersAreTrees, StepsAreNodes, RefusalsAreRight, ShiftsBegin, BeginningsAreShifted, FaithfulAreLr1};
ghost use Rattle.lalrpop_grammar.specs.parsing.Laws.{ReachedAreLive, ClosedHaveRightItems, ClosedAreLr0, CopiesAreClosed, LaneTokensAreLalr, LanesAreFaithful, LanesAreChecked, LalrAreFaithful, LalrStatesHaveNoConflict, CollapsedHoldLalrTokens, CheckedAreFaithful};
ghost use Rattle.lalrpop_grammar.specs.parsing.Laws.{CanonicalTokensAreValid, CanonicalAreFaithful, CanonicalStatesHaveNoConflict, CanonicalStatesAreOne, CanonicalRunsEnd, CanonicalStepsAreRight, CanonicalRefusalsArePrompt};
ghost use Rattle.lalrpop_grammar.specs.parsing.Laws.{NoConflictIsLr1, NoConflictIsEmptyList, ConflictsAreListed, OneListOfConflicts, StateConflictsAreCanonical, RenumberedAreFaithful};
ghost use Rattle.lalrpop_grammar.specs.parsing.Laws.{AugmentedStandsAlone, AugmentedTrees, AugmentedSentences, AugmentedBeginnings, AugmentedAnswers, AugmentedRefusals};
ghost use Rattle.lalrpop_grammar.specs.parsing.Laws.{DefinitionsAreMet, SeveralListsParse, SpoiltAreRefused};

pub use lalrpop_grammar::laws::{deprecated_end, orders};

/// Theorems on derivations: on FIRST of a list of symbols, and on the parse trees of sentences.
pub fn derivations()
    ensures first { FirstByCases }
    ensures trees { SentencesHaveTrees }
{}

/// Theorems on FIRST sets.
pub fn first_sets()
    ensures first { FirstSetsAreFirst }
    ensures nullable { FirstSetsAreNullable }
{}

/// Each run of the parser has exactly one outcome.
pub fn outcomes()
    ensures some { RunsHaveOutcomes }
    ensures unique { OutcomesAreUnique }
{}

/// Theorems on runs of the parser over faithful states.
pub fn faithful_states()
    ensures one_tree { OneParseTree }
    ensures answers { AnswersAreTrees }
    ensures steps { StepsAreNodes }
    ensures refusals { RefusalsAreRight }
    ensures shifts { ShiftsBegin }
    ensures beginnings { BeginningsAreShifted }
    ensures lr1 { FaithfulAreLr1 }
{}

/// Theorems on closed states: state 0 is the closure of the start, and each target is the closure
/// of the moved items.
pub fn closed_states()
    ensures reached { ReachedAreLive }
    ensures right { ClosedHaveRightItems }
    ensures lr0 { ClosedAreLr0 }
    ensures copies { CopiesAreClosed }
{}

/// Theorems on lanes: they find the LALR(1) lookaheads.
pub fn lanes()
    ensures tokens { LaneTokensAreLalr }
    ensures faithful { LanesAreFaithful }
    ensures checked { LanesAreChecked }
{}

/// Theorems on states that hold their LALR(1) lookaheads.
pub fn lalr_states()
    ensures faithful { LalrAreFaithful }
    ensures conflicts { LalrStatesHaveNoConflict }
    ensures collapsed { CollapsedHoldLalrTokens }
{}

/// Tables that pass the check are faithful.
pub fn checked_tables()
    ensures { CheckedAreFaithful }
{}

/// Theorems on canonical states.
pub fn canonical_states()
    ensures tokens { CanonicalTokensAreValid }
    ensures faithful { CanonicalAreFaithful }
    ensures conflicts { CanonicalStatesHaveNoConflict }
    ensures one { CanonicalStatesAreOne }
{}

/// Theorems on runs of the parser over canonical states.
pub fn canonical_runs()
    ensures ends { CanonicalRunsEnd }
    ensures right { CanonicalStepsAreRight }
    ensures prompt { CanonicalRefusalsArePrompt }
{}

/// Theorems on canonical conflicts: whether the grammar is LR(1), and which lists have them.
pub fn conflicts()
    ensures none { NoConflictIsLr1 }
    ensures empty { NoConflictIsEmptyList }
    ensures listed { ConflictsAreListed }
    ensures one_list { OneListOfConflicts }
    ensures of_states { StateConflictsAreCanonical }
{}

/// Faithful states stay faithful under other numbers.
pub fn renumbered_states()
    ensures { RenumberedAreFaithful }
{}

/// Theorems on grammars that are augmented with a new start symbol.
pub fn augmented()
    ensures alone { AugmentedStandsAlone }
    ensures trees { AugmentedTrees }
    ensures sentences { AugmentedSentences }
    ensures beginnings { AugmentedBeginnings }
    ensures answers { AugmentedAnswers }
    ensures refusals { AugmentedRefusals }
{}

/// Examples: some grammars and states meet the definitions, and states that were made wrong do not.
pub fn instances()
    ensures met { DefinitionsAreMet }
    ensures parsed { SeveralListsParse }
    ensures refused { SpoiltAreRefused }
{}
