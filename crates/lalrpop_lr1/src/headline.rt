//! The main contract: tables for LR(1) grammars alone, and by these tables exactly their parse
//! trees.
pub mod any_start;
pub mod by_tables;
mod parse_error;

ghost use Rattle.std.specs.Prelude.{IfOk, IfErr};
ghost use Rattle.lalrpop_base.specs.Words.{IsOnNoRightSide, IsFirstWrong, IsWellFormed, productions};
ghost use Rattle.lalrpop_tables.specs.Words.{Collapses, HasConflictsOf};
ghost use Rattle.lalrpop_parser.specs.runs.FaithfulAnswers.{IsTreeWithin, IsCutOffByTables};
ghost use Rattle.lalrpop_lr1.specs.runs.Headline.{IsAccepted, IsOutcomeByTables};
ghost use Rattle.lalrpop_lr1.specs.runs.ParseAnswers.{HadTables, HadTablesWhere, IfParseConflicts, IfRefusedAt, IfParseLimit, TellsTrees};
ghost use Rattle.lalrpop_parser.specs.trees.ParseTrees.{tree_of};

use by_tables::parse_by_tables;
use lalrpop_base::lr1_core::state::BuildError;
use lalrpop_base::repr::{Grammar, NonterminalString, TerminalString};
use lalrpop_parser::interpret::ParseTree;
use lalrpop_tables::build::options::Options;
use lalrpop_tables::lr1::build_states;
pub use parse_error::ParseError;
use parse_error::parse_result;
use std::alloc::Global;

/// Builds the tables of a grammar, and parses a list of terminals by them, in at most `limit`
/// steps. Each shift and each reduction is one step. The error says why there is no tree.
pub fn parse<'grammar>(
    alloc: Global,
    grammar: &'grammar Grammar,
    start: NonterminalString,
    options: &Options,
    tokens: Vec<TerminalString>,
    limit: usize,
) -> Result<ParseTree, ParseError<'grammar>>
    requires { IsWellFormed grammar.now }

    // There are tables exactly if the grammar is accepted.
    ensures decides { HadTablesWhere
        (IsAccepted (Collapses grammar.now options.now) grammar.now start) result }

    // If the start symbol is on no right side, a tree is a parse tree within the limit.
    ensures parses { IfOk result (λ tree. IsOnNoRightSide (productions grammar.now) start →
        IsTreeWithin limit tokens.items (tree_of tree) (productions grammar.now) start) }
    // Under the same condition a refusal names the first wrong token.
    ensures refuses { IfErr result (IfRefusedAt (λ token.
        IsOnNoRightSide (productions grammar.now) start →
        IsFirstWrong (productions grammar.now) start tokens.items token)) }
    // If the limit is the result, `limit` steps were made and there is another.
    ensures limit { IfErr result (IfParseLimit
        (IsCutOffByTables (productions grammar.now) start tokens.items limit)) }
    // By tables, if the start symbol is on no right side, a list with a parse tree gives this tree,
    // the limit or an allocation failure. So it has no other one.
    ensures one_tree { IsOnNoRightSide (productions grammar.now) start →
        TellsTrees limit tokens.items result (productions grammar.now) start }

    // A tree, a refusal or the limit comes from a run by tables, whatever the start symbol. If
    // there are no tables, the error has the conflicts.
    ensures run { HadTables result →
        IsOutcomeByTables grammar.now options.now start tokens.items limit result }
    ensures conflicts { IfErr result (IfParseConflicts (HasConflictsOf
        (Collapses grammar.now options.now) options.now.stop_after grammar.now start)) }
{
    let Ok(name) = start.clone(alloc) else {
        return Err(ParseError::Memory);
    };
    match build_states(alloc, grammar, start, options) {
        Ok(states) => parse_result(parse_by_tables(alloc, grammar, &name, &states, tokens, limit)),
        Err(BuildError::Conflicts(error)) => Err(ParseError::Conflicts(error)),
        Err(BuildError::Memory) => Err(ParseError::Memory),
    }
}
