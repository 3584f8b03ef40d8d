//! Parses by the states of a table.
pub mod error;
pub mod lookahead;
mod machine;
pub mod tree;

ghost use Rattle.std.specs.Prelude.{◌≡◌, ◌<◌, ◌≤◌, length, IfOk, IfErr};
ghost use Rattle.lalrpop_base.specs.Words.{AreCoherent, contents_in, reduced_productions, IsBeginning, begin, HasOutcome, IsFirstWrong, IsPromptRefusal};
ghost use Rattle.lalrpop_base.specs.Words.{beside, no_trees, leaves, nodes, AreOfGrammar};
ghost use Rattle.lalrpop_parser.specs.runs.Answers.{ReportsOutcome, IsPartialAnswer};
ghost use Rattle.lalrpop_parser.specs.runs.FaithfulAnswers.{ForEachGrammar, ForEachCanonical, HasEnough, HasOneTree, StepsAreRight, IsTreeWithin, IsCutOff, AnswersTrees, IfRefused, IfLimit, IsLimit, TakesBeginning};
ghost use Rattle.lalrpop_parser.specs.trees.ParseTrees.{tree_of};
ghost use Rattle.lalrpop_parser.specs.runs.Reading.{HasPartialOutcome};
ghost use Rattle.lalrpop_parser.specs.runs.Steps.{IsParsedIn};

pub use error::InterpretError;
use lalrpop_base::lr1_core::state::{State, StateIndex};
use lalrpop_base::repr::TerminalString;
use lalrpop_base::repr::terminals::TerminalSet;
pub use lookahead::LookaheadInterpret;
use machine::Machine;
use std::alloc::Global;
pub use tree::ParseTree;

/// The parse tree of a list of terminals, in at most `limit` steps. Each shift and each reduction
/// is one step.
pub fn interpret<'a, 'grammar, L: LookaheadInterpret>(
    alloc: Global,
    states: &'a [State<'grammar, L>],
    terminals: &TerminalSet,
    tokens: Vec<TerminalString>,
    limit: usize,
) -> Result<ParseTree, InterpretError<'a, 'grammar, L>>
    requires coherent { AreCoherent states.now }
    requires some { 0 < length states.now }
    ensures outcome { ReportsOutcome
        (HasOutcome (contents_in (L.holds terminals.now) states.now) tokens.items limit) states.now
        result }
    ensures of_productions { IfOk result
        (λ tree. AreOfGrammar (reduced_productions states.now) (beside (tree_of tree) no_trees)) }
    ensures of_list { IfOk result (λ tree. leaves (beside (tree_of tree) no_trees) ≡ tokens.items) }
    ensures steps { IfOk result (λ tree. IsParsedIn (contents_in (L.holds terminals.now) states.now)
        tokens.items (nodes (beside (tree_of tree) no_trees)) (tree_of tree)) }
    ensures within { IfOk result (λ tree. nodes (beside (tree_of tree) no_trees) ≤ limit) }

    // The error is `Limit` exactly if `limit` steps were made and there is another, unless an
    // allocation fails.
    ensures limit { IfErr result
        (IfLimit (IsCutOff (contents_in (L.holds terminals.now) states.now) tokens.items limit)) }
    ensures cut_off { IsCutOff (contents_in (L.holds terminals.now) states.now) tokens.items limit →
        IsLimit result }

    // Let the states be faithful to a grammar whose start symbol is on no right side. Then the list
    // has at most one parse tree. A tree in the result is that one, and within the limit. If the
    // list has one, the result is that tree, the limit or an allocation failure.
    ensures one_tree { ForEachGrammar (contents_in (L.holds terminals.now) states.now)
        (HasOneTree tokens.items) }
    ensures parsed { IfOk result (λ tree. ForEachGrammar
        (contents_in (L.holds terminals.now) states.now)
        (IsTreeWithin limit tokens.items (tree_of tree))) }
    ensures parses { ForEachGrammar (contents_in (L.holds terminals.now) states.now)
        (AnswersTrees limit tokens.items states.now result) }

    // For such a grammar a refusal names the first wrong token. Over canonical states it comes
    // right after the last right one.
    ensures refused { IfErr result (IfRefused (λ _ token. ForEachGrammar
        (contents_in (L.holds terminals.now) states.now)
        (λ g start. IsFirstWrong g start tokens.items token)) states.now) }
    ensures prompt { IfErr result (IfRefused (λ state token. ForEachCanonical
        (contents_in (L.holds terminals.now) states.now) (λ g start. IsPromptRefusal g start
        (contents_in (L.holds terminals.now) states.now) tokens.items state token)) states.now) }

    // Over canonical states no step is made on a wrong token. From some limit on, the limit is
    // never the result.
    ensures right { ForEachCanonical (contents_in (L.holds terminals.now) states.now)
        (StepsAreRight (contents_in (L.holds terminals.now) states.now) tokens.items) }
    ensures ends { ForEachCanonical (contents_in (L.holds terminals.now) states.now)
        (HasEnough (contents_in (L.holds terminals.now) states.now) tokens.items) }
{
    Machine::new(alloc, limit).run(alloc, states, terminals, tokens)
}

/// The stack of states after all terminals are shifted, the newest last. No reduction is made on
/// `Eof`. The errors are those of `interpret`.
pub fn interpret_partial<'a, 'grammar, L: LookaheadInterpret>(
    alloc: Global,
    states: &'a [State<'grammar, L>],
    terminals: &TerminalSet,
    tokens: Vec<TerminalString>,
    limit: usize,
) -> Result<Vec<StateIndex>, InterpretError<'a, 'grammar, L>>
    requires coherent { AreCoherent states.now }
    requires some { 0 < length states.now }
    ensures outcome { IsPartialAnswer (HasPartialOutcome
        (contents_in (L.holds terminals.now) states.now) (begin tokens.items) limit) states.now
        result }

    // The limit and refusals are as those of `interpret`. For a grammar as there, a list with a
    // stack is one of its beginnings, and no beginning is refused.
    ensures limit { IfErr result
        (IfLimit (IsCutOff (contents_in (L.holds terminals.now) states.now) tokens.items limit)) }
    ensures refused { IfErr result (IfRefused (λ _ token. ForEachGrammar
        (contents_in (L.holds terminals.now) states.now)
        (λ g start. IsFirstWrong g start tokens.items token)) states.now) }
    ensures begun { IfOk result (λ _. ForEachGrammar
        (contents_in (L.holds terminals.now) states.now)
        (λ g start. IsBeginning g start tokens.items)) }
    ensures begins { ForEachGrammar (contents_in (L.holds terminals.now) states.now)
        (TakesBeginning tokens.items result) }
{
    let mut machine = Machine::new(alloc, limit);
    machine.shift_all(alloc, states, terminals, tokens)?;
    let stack = machine.into_stack()?;
    Ok(stack)
}
