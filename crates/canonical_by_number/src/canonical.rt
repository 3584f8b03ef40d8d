//! The canonical states of a grammar, or the number of their conflicts.
ghost use Rattle.std.specs.Prelude.{◌≡◌, IfOk};
ghost use Rattle.lalrpop_base.specs.Words.{IsWellFormed};
ghost use Rattle.lalrpop_construction.specs.Words.{AreCanonicalTablesOrCount, canonical_of, lr0_of};
ghost use Rattle.canonical_by_number.specs.Conflicts.{IsConflictTotal};

use crate::counting::count_conflicts;
use lalrpop_base::lookahead::nil::Nil;
use lalrpop_base::lookahead::token_set::TokenSet;
use lalrpop_base::memory::OutOfMemory;
use lalrpop_base::repr::NonterminalString;
use lalrpop_base::repr::grammar::Grammar;
use lalrpop_construction::construction::canonical::canonical_states_or_none;
use lalrpop_construction::construction::lr::Lr;
use lalrpop_construction::construction::tables_or_count::TablesOrCount;
use std::alloc::Global;

// The number of the conflicts of the canonical states.
fn count_canonical_conflicts(
    alloc: Global,
    grammar: &Grammar,
    start: NonterminalString,
) -> Result<usize, OutOfMemory>
    requires { IsWellFormed grammar.now }
    ensures { IfOk result (IsConflictTotal (canonical_of grammar.now start)) }
{
    let eof = TokenSet::eof(alloc, &grammar.terminals)?;
    let lr = Lr::new(alloc, grammar, start, eof)?;
    let count = count_conflicts(alloc, &lr)?;
    Ok(count)
}

/// The canonical states of a grammar, or the number of their conflicts.
///
/// The states are numbered in the order in which the construction finds them. They are dropped at
/// the first conflict, and all conflicts are counted without states. A number above the greatest
/// `usize` is returned as that `usize`. `OutOfMemory` is that of `count_conflicts`, or an allocation
/// failure.
pub fn canonical_states_or_count<'grammar>(
    alloc: Global,
    grammar: &'grammar Grammar,
    lr: Lr<'grammar, Nil>,
    start: NonterminalString,
) -> Result<TablesOrCount<'grammar>, OutOfMemory>
    requires well_formed { IsWellFormed grammar.now }
    requires over { lr.construction ≡ lr0_of grammar.now start }
    ensures { IfOk result (AreCanonicalTablesOrCount grammar.now start) }
{
    let _names = grammar.nonterminals.len();
    let _terminals = grammar.terminals.all();
    if let Some(states) = canonical_states_or_none(alloc, grammar, lr)? {
        return Ok(TablesOrCount::Tables(states));
    }
    let count = count_canonical_conflicts(alloc, grammar, start)?;
    Ok(TablesOrCount::Conflicts(count))
}
