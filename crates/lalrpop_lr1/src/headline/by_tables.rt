//! The main contract for given tables: by states that are faithful to a grammar, exactly its parse
//! trees.
ghost use Rattle.std.specs.Prelude.{◌≡◌, ◌<◌, ◌≤◌, length, IfOk, IfErr};
ghost use Rattle.lalrpop_base.specs.Words.{AreCoherent, AreFaithful, contents, IsOnNoRightSide, HasOutcome, IsFirstWrong, productions, beside, no_trees, leaves, nodes};
ghost use Rattle.lalrpop_parser.specs.runs.Answers.{ReportsOutcome};
ghost use Rattle.lalrpop_parser.specs.runs.FaithfulAnswers.{AnswersTrees, IfLimit, IfRefused, IsCutOff, IsLimit, IsTreeWithin};
ghost use Rattle.lalrpop_parser.specs.trees.ParseTrees.{tree_of};

use lalrpop_base::lookahead::token_set::TokenSet;
use lalrpop_base::lr1_core::state::Lr1State;
use lalrpop_base::repr::grammar::Grammar;
use lalrpop_base::repr::{NonterminalString, TerminalString};
use lalrpop_parser::interpret::{InterpretError, ParseTree, interpret};
use std::alloc::Global;

/// Parses a list of terminals by tables of a grammar, in at most `limit` steps. The tables may come
/// from anywhere. They are faithful if `check_tables` returns `true`. The error says why there is
/// no tree.
pub fn parse_by_tables<'a, 'grammar>(
    alloc: Global,
    grammar: &Grammar,
    start: &NonterminalString,
    states: &'a [Lr1State<'grammar>],
    tokens: Vec<TerminalString>,
    limit: usize,
) -> Result<ParseTree, InterpretError<'a, 'grammar, TokenSet>>
    requires coherent { AreCoherent states.now }
    requires some { 0 < length states.now }
    requires faithful { AreFaithful (productions grammar.now) start.now
        (contents grammar.now.terminals states.now) }

    // If the start symbol is on no right side, a tree is a parse tree within the limit.
    ensures parses { IfOk result (λ tree. IsOnNoRightSide (productions grammar.now) start.now →
        IsTreeWithin limit tokens.items (tree_of tree) (productions grammar.now) start.now) }
    // Under the same condition a refusal names the first wrong token.
    ensures refuses { IfErr result (IfRefused (λ _ token.
        IsOnNoRightSide (productions grammar.now) start.now →
        IsFirstWrong (productions grammar.now) start.now tokens.items token) states.now) }
    // The error is `Limit` exactly if `limit` steps were made and there is another, unless an
    // allocation fails.
    ensures limit { IfErr result
        (IfLimit (IsCutOff (contents grammar.now.terminals states.now) tokens.items limit)) }
    ensures cut_off { IsCutOff (contents grammar.now.terminals states.now) tokens.items limit →
        IsLimit result }
    // If the start symbol is on no right side, a list with a parse tree gives this tree, the limit
    // or an allocation failure. So it has no other one.
    ensures one_tree { IsOnNoRightSide (productions grammar.now) start.now →
        AnswersTrees limit tokens.items states.now result (productions grammar.now) start.now }

    // Whatever the start symbol, the result is the outcome of the run by the states.
    ensures run { ReportsOutcome
        (HasOutcome (contents grammar.now.terminals states.now) tokens.items limit) states.now
        result }
    ensures of_list { IfOk result (λ tree. leaves (beside (tree_of tree) no_trees) ≡ tokens.items) }
    ensures within { IfOk result (λ tree. nodes (beside (tree_of tree) no_trees) ≤ limit) }
{
    interpret(alloc, states, &grammar.terminals, tokens, limit)
}
