//! LR(1) states by the method of the options. The module passes on the construction of states, too.
mod by_lanes;

ghost use Rattle.std.specs.Prelude.{◌≡◌, true, is_some, IfOk, IfErr, IfSome};
ghost use Rattle.lalrpop_base.specs.Words.{IsLALR1, IsOnNoRightSide, IsWellFormed, productions};
ghost use Rattle.lalrpop_construction.specs.Words.{lr0_of};
ghost use Rattle.lalrpop_tables.specs.answers.Lr1Answers.{AreBuiltTablesOf, FailsOn};
ghost use Rattle.lalrpop_tables.specs.answers.TablesOrCount.{AreBuiltTablesOrCount};

use by_lanes::tables_by_lanes;
use canonical_by_number::canonical::canonical_states_or_count;
use lalrpop_base::lookahead::nil::Nil;
use lalrpop_base::lr1_core::state::{Lr1Result, Lr1State};
use lalrpop_base::memory::OutOfMemory;
pub use lalrpop_base::numbers::suffixes::Suffix;
use lalrpop_base::repr::NonterminalString;
use lalrpop_base::repr::grammar::Grammar;
use lalrpop_construction::construction::canonical::build_canonical_states;
pub use lalrpop_construction::construction::kernel::Kernel;
pub use lalrpop_construction::construction::lookahead_build::LookaheadBuild;
pub use lalrpop_construction::construction::lr::Lr;
pub use lalrpop_construction::construction::lr0::build_lr0_states;
pub use lalrpop_construction::construction::tables_or_count::TablesOrCount;
pub use lalrpop_construction::options;
pub use lalrpop_construction::options::{Method, Options};
use std::alloc::Global;

/// The LR(1) states of a grammar by their construction numbers, or its canonical conflicts. Under
/// `Method::Lane` they are lane tables, if there are such and they pass the check. Else, and under
/// `Method::Canonical`, the canonical construction decides. The error is `Memory` if an allocation
/// fails.
pub fn build_lr1_states<'grammar>(
    alloc: Global,
    grammar: &'grammar Grammar,
    start: NonterminalString,
    options: &Options,
) -> Lr1Result<'grammar>
    requires { IsWellFormed grammar.now }
    ensures tables { IfOk result
        (λ tables. AreBuiltTablesOf ⊥ options.now.method options.now.max_copies grammar.now start
        tables.items) }
    ensures no_tables { IfErr result (FailsOn ⊥ options.now.stop_after grammar.now start) }
{
    let (by_lanes, lr) = tables_by(alloc, grammar, start, options)?;
    if let Some(tables) = by_lanes {
        return Ok(tables);
    }
    build_canonical_states(alloc, grammar, lr, options.stop_after)
}

/// The LR(1) states of a grammar by their construction numbers, or how many canonical conflicts it
/// has. The states are those of `build_lr1_states`. No conflict is listed. All conflicts are
/// counted, since `stop_after` is not read. If they are more than the greatest `usize`, that number
/// is returned. The error is `OutOfMemory` if an allocation fails.
pub fn lr1_states_or_count<'grammar>(
    alloc: Global,
    grammar: &'grammar Grammar,
    start: NonterminalString,
    options: &Options,
) -> Result<TablesOrCount<'grammar>, OutOfMemory>
    requires { IsWellFormed grammar.now }
    ensures answer { IfOk result (AreBuiltTablesOrCount options.now.method options.now.max_copies
        grammar.now start) }
{
    let counted = start.clone(alloc)?;
    let (by_lanes, lr) = tables_by(alloc, grammar, start, options)?;
    if let Some(tables) = by_lanes {
        return Ok(TablesOrCount::Tables(tables));
    }
    canonical_states_or_count(alloc, grammar, lr, counted)
}

// By the lane method the lane tables that pass the check, if there are such, and by the canonical
// method none; and the construction without lookahead, for what is made in their place.
#[tactic(auto, using(lalrpop_construction::proofs::theory::construction::Lookaheads::nothing_fits))]
fn tables_by<'grammar>(
    alloc: Global,
    grammar: &'grammar Grammar,
    start: NonterminalString,
    options: &Options,
) -> Result<(Option<Vec<Lr1State<'grammar>>>, Lr<'grammar, Nil>), OutOfMemory>
    requires { IsWellFormed grammar.now }
    ensures tables { IfOk result (λ answer. IfSome answer.0 (λ tables. AreBuiltTablesOf ⊥
        options.now.method options.now.max_copies grammar.now start tables.items)) }
    ensures lalr { options.now.method ≡ Method.Lane →
        IsOnNoRightSide (productions grammar.now) start →
        IsLALR1 (productions grammar.now) start →
        IfOk result (λ answer. is_some answer.0 ≡ true) }
    ensures over { IfOk result (λ answer. answer.1.construction ≡ lr0_of grammar.now start) }
{
    match options.method {
        Method::Lane => tables_by_lanes(alloc, grammar, start, options.max_copies),
        Method::Canonical => Ok((None, Lr::new(alloc, grammar, start, Nil)?)),
    }
}
