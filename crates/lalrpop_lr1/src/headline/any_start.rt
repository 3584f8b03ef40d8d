//! The main contract for any start symbol: by a grammar with a new start symbol above the old one,
//! exactly the parse trees of the old one.
ghost use Rattle.std.specs.Prelude.{◌≡◌, IfOk, IfErr};
ghost use Rattle.lalrpop_base.specs.Words.{HasNewStart, IsRefusedStart, IsFirstWrong, Tree, Node, beside, no_trees, IsWellFormed, productions};
ghost use Rattle.lalrpop_grammar.specs.declared.repr.NonterminalString.{NonterminalString};
ghost use Rattle.lalrpop_tables.specs.Words.{Collapses, HasConflictsOf};
ghost use Rattle.lalrpop_lr1.specs.runs.AnyStart.{IsTreeBelow, TellsTreesBelow, IsOutcomeByTablesAbove};
ghost use Rattle.lalrpop_parser.specs.runs.FaithfulAnswers.{IsCutOffByTables};
ghost use Rattle.lalrpop_lr1.specs.runs.Headline.{IsAccepted};
ghost use Rattle.lalrpop_lr1.specs.runs.ParseAnswers.{HadTables, HadTablesWhere, IfParseConflicts, IfRefusedAt, IfParseLimit};
ghost use Rattle.lalrpop_parser.specs.trees.ParseTrees.{tree_of};

use super::{ParseError, parse};
use lalrpop_base::repr::grammar::Grammar;
use lalrpop_base::repr::norm_error::NormResult;
use lalrpop_base::repr::{NonterminalString, TerminalString, augment};
use lalrpop_parser::interpret::ParseTree;
use lalrpop_tables::build::options::Options;
use std::alloc::Global;
use std::marker::Model;

/// A grammar with a new start symbol above an old one. Clauses see it together with its old
/// productions.
#[derive(Debug, Drop)]
pub struct AugmentedGrammar {
    old_start: NonterminalString,
    grammar: Grammar,
    start: NonterminalString,
}

impl Model for AugmentedGrammar {
    ghost use Rattle.lalrpop_lr1.specs.runs.AnyStart.{Augmented, augmented_code, seen_over, IsAboveOld};

    ghost Value = { Augmented };

    ghost coded = { augmented_code };

    ghost view = { λ a. seen_over a.old_start a.grammar a.start };

    ghost invariant = { λ a. IsAboveOld (seen_over a.old_start a.grammar a.start) };
}

impl AugmentedGrammar {
    /// The grammar with a new start symbol above one of its nonterminals. The error is
    /// `TooManyActions` if the new production's action would have a number above 4294967295, or
    /// `Memory` if an allocation fails.
    pub fn new(alloc: Global, grammar: Grammar, start: NonterminalString) -> NormResult<Self>
        requires { IsWellFormed grammar }
        ensures old_productions { IfOk result (λ made. made.old_productions ≡ productions grammar) }
        ensures old_start { IfOk result (λ made. made.old_start ≡ start) }
        ensures added { IfOk result (λ made. HasNewStart grammar start made.grammar made.start) }
        ensures refused { IfErr result (IsRefusedStart grammar) }
    {
        let old_start = start.clone(alloc)?;
        let (grammar, start) = augment(alloc, grammar, start)?;
        Ok(AugmentedGrammar {
            old_start,
            grammar,
            start,
        })
    }

    /// The grammar with the new start symbol. The conflicts of an error borrow from it.
    pub fn grammar(&self) -> &Grammar
        ensures same { result.now ≡ self.now.grammar }
        ensures well_formed { IsWellFormed result.now }
    {
        &self.grammar
    }

    /// The new start symbol.
    pub fn start(&self) -> &NonterminalString
        ensures { result.now ≡ self.now.start }
    {
        &self.start
    }

    /// The old start symbol, which is the root of the parse trees.
    pub fn old_start(&self) -> &NonterminalString
        ensures { result.now ≡ self.now.old_start }
    {
        &self.old_start
    }
}

/// Builds the tables of an augmented grammar, and parses a list of terminals for the old start
/// symbol by them, in at most `limit` steps. The node of the new start symbol takes one step, and
/// is no part of the tree. The error says why there is no tree.
pub fn parse_from_any<'grammar>(
    alloc: Global,
    augmented: &'grammar AugmentedGrammar,
    options: &Options,
    tokens: Vec<TerminalString>,
    limit: usize,
) -> Result<ParseTree, ParseError<'grammar>>
    // There are tables exactly if the augmented grammar is accepted.
    ensures decides { HadTablesWhere
        (IsAccepted (Collapses augmented.now.grammar options.now)
        augmented.now.grammar augmented.now.start) result }

    // The old start symbol may be on a right side. A tree is its parse tree with fewer nodes than
    // the limit.
    ensures parses { IfOk result (λ tree. IsTreeBelow limit tokens.items (tree_of tree)
        augmented.now.old_productions augmented.now.old_start) }
    // A refusal names the first wrong token for the old start symbol.
    ensures refuses { IfErr result (IfRefusedAt (λ token.
        IsFirstWrong augmented.now.old_productions augmented.now.old_start tokens.items token)) }
    // If the limit is the result, `limit` steps were made and there is another.
    ensures limit { IfErr result (IfParseLimit (IsCutOffByTables
        (productions augmented.now.grammar) augmented.now.start tokens.items limit)) }
    // By tables, a list with a parse tree gives this tree, the limit or an allocation failure. So
    // it has no other one.
    ensures one_tree { TellsTreesBelow limit tokens.items result
        augmented.now.old_productions augmented.now.old_start }

    // A tree, a refusal or the limit comes from a run by tables, whose start symbol is on no right
    // side. If there are no tables, the error has the conflicts.
    ensures run { HadTables result → IsOutcomeByTablesAbove
        augmented.now.grammar options.now augmented.now.start tokens.items limit result }
    ensures conflicts { IfErr result (IfParseConflicts (HasConflictsOf
        (Collapses augmented.now.grammar options.now) options.now.stop_after
        augmented.now.grammar augmented.now.start)) }
{
    let Ok(start) = augmented.start.clone(alloc) else {
        return Err(ParseError::Memory);
    };
    match parse(alloc, &augmented.grammar, start, options, tokens, limit) {
        Ok(tree) => Ok(only_child(tree)),
        Err(error) => Err(error),
    }
}

// The child of a node that has exactly one.
fn only_child(tree: ParseTree) -> ParseTree
    requires { (a : NonterminalString) × (t : Tree) × (tree_of tree ≡ Node a (beside t no_trees)) }
    ensures { (a : NonterminalString) (t : Tree) →
        tree_of tree ≡ Node a (beside t no_trees) →
        tree_of result ≡ t }
{
    let Some(mut children) = tree.into_children() else {
        unreachable!();
    };
    match children.pop() {
        Some(child) => child,
        None => unreachable!(),
    }
}
