//! The canonical construction of LR(1) states.
ghost use Rattle.std.specs.Prelude.{◌≡◌, IfErr, IfOk, IfSome, IsNone};
ghost use Rattle.lalrpop_base.specs.Words.{IsLR1, IsWellFormed, productions};
ghost use Rattle.lalrpop_construction.specs.construction.Results.{canonical_of, lr0_of};
ghost use Rattle.lalrpop_construction.specs.canonical.CanonicalAnswers.{AreCanonicalTables, FailsByConflicts};

use super::conflict_free::conflict_free_states;
use super::lr::Lr;
use lalrpop_base::lookahead::nil::Nil;
use lalrpop_base::lookahead::token_set::TokenSet;
use lalrpop_base::lr1_core::state::{Lr1Result, Lr1State};
use lalrpop_base::memory::OutOfMemory;
use lalrpop_base::repr::grammar::Grammar;
use std::alloc::Global;

// The canonical construction of a grammar: Eof follows the start symbol.
fn canonical_construction<'grammar>(
    alloc: Global,
    grammar: &'grammar Grammar,
    lr: Lr<'grammar, Nil>,
) -> Result<Lr<'grammar, TokenSet>, OutOfMemory>
    requires { lr.construction ≡ lr0_of grammar.now lr.construction.start }
    ensures { IfOk result (λ canonical. canonical.construction ≡ canonical_of grammar.now
        lr.entry.construction.start) }
{
    let eof = TokenSet::eof(alloc, &grammar.terminals)?;
    Ok(lr.with_lookahead(eof))
}

/// The canonical states of a grammar, or an error with their conflicts.
///
/// The states are numbered in the order in which the construction finds them. `lr` is the LR(0)
/// construction of the grammar: its FIRST sets and numbers are reused. The construction stops after
/// `stop_after` conflicts, and 0 means that it does not stop early. An allocation failure is
/// `Memory`.
pub fn build_canonical_states<'grammar>(
    alloc: Global,
    grammar: &'grammar Grammar,
    lr: Lr<'grammar, Nil>,
    stop_after: usize,
) -> Lr1Result<'grammar>
    requires { lr.construction ≡ lr0_of grammar.now lr.construction.start }
    ensures tables { IfOk result (λ tables. AreCanonicalTables grammar.now
        lr.entry.construction.start tables.items) }
    ensures no_tables { IfErr result
        (FailsByConflicts stop_after grammar.now lr.entry.construction.start) }
{
    let mut canonical = canonical_construction(alloc, grammar, lr)?;
    canonical.set_stop_after(stop_after);
    canonical.build_lr1_states(alloc)
}

/// The canonical states of a grammar, or `None` if it is not LR(1).
///
/// The states are numbered in the order in which the construction finds them. It ends at the first
/// state with a conflict, and lists no conflict. `OutOfMemory` if an allocation fails.
pub fn canonical_states_or_none<'grammar>(
    alloc: Global,
    grammar: &'grammar Grammar,
    lr: Lr<'grammar, Nil>,
) -> Result<Option<Vec<Lr1State<'grammar>>>, OutOfMemory>
    requires well_formed { IsWellFormed grammar.now }
    requires over { lr.construction ≡ lr0_of grammar.now lr.construction.start }
    ensures tables { IfOk result (λ answer. IfSome answer (λ states. AreCanonicalTables grammar.now
        lr.entry.construction.start states.items)) }
    ensures none { IfOk result (λ answer. IsNone answer →
        ¬ IsLR1 (productions grammar.now) lr.entry.construction.start) }
{
    let _names = grammar.nonterminals.len();
    let _terminals = grammar.terminals.all();
    let canonical = canonical_construction(alloc, grammar, lr)?;
    let answer = conflict_free_states(alloc, &canonical)?;
    Ok(answer)
}
