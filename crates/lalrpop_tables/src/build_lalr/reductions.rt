//! The reductions of merged states, one for each production.
ghost use Rattle.std.specs.Prelude.{IfOk};
ghost use Rattle.std.specs.List.{AllZip};
ghost use Rattle.lalrpop_base.specs.Words.{AreJoinedReductions, HasTokensOf, IsReduced};
ghost use Rattle.lalrpop_states.specs.collapse.Merging.{AreReductionsOfMap};

use lalrpop_base::collections::multimap::Multimap;
use lalrpop_base::lookahead::token_set::TokenSet;
use lalrpop_base::lr1_core::state::{Lr1State, State};
use lalrpop_base::memory::OutOfMemory;
use lalrpop_base::repr::Production;
use std::alloc::Global;

type Reductions<'grammar> = Vec<(TokenSet, &'grammar Production)>;

type TokensOf<'grammar> = Multimap<&'grammar Production, TokenSet>;

// The tokens of each production: the union over its reductions.
fn tokens_of_productions<'grammar>(
    alloc: Global,
    reductions: Reductions<'grammar>,
) -> Result<TokensOf<'grammar>, OutOfMemory>
    ensures { IfOk result (HasTokensOf reductions.entry.items) }
{
    let mut tokens_of = Multimap::new(alloc);
    for (tokens, production) in reductions {
        tokens_of.push(production, tokens)?;
    }
    Ok(tokens_of)
}

// A reduction for each production, by ascending productions.
fn list_reductions<'grammar>(
    alloc: Global,
    tokens_of: TokensOf<'grammar>,
) -> Result<Reductions<'grammar>, OutOfMemory>
    ensures { IfOk result (λ list. AreReductionsOfMap tokens_of.entry list.items) }
{
    let mut list = Vec::new(alloc);
    for (production, tokens) in tokens_of {
        list.push((tokens, production))?;
    }
    Ok(list)
}

// One reduction for each production, by ascending productions, with the union of its tokens.
fn join_reductions<'grammar>(
    alloc: Global,
    reductions: Reductions<'grammar>,
) -> Result<Reductions<'grammar>, OutOfMemory>
    ensures { IfOk result (λ joined. AreJoinedReductions reductions.entry.items joined.items) }
{
    let tokens_of = tokens_of_productions(alloc, reductions)?;
    list_reductions(alloc, tokens_of)
}

// A state with one reduction for each production.
fn reduce_state<'grammar>(
    alloc: Global,
    state: Lr1State<'grammar>,
) -> Result<Lr1State<'grammar>, OutOfMemory>
    ensures { IfOk result (IsReduced state.entry) }
{
    let State {
        index,
        items,
        shifts,
        reductions,
        gotos,
    } = state;
    Ok(State {
        index,
        items,
        shifts,
        reductions: join_reductions(alloc, reductions)?,
        gotos,
    })
}

/// The states, each with one reduction for each production.
pub(super) fn reduce_states<'grammar>(
    alloc: Global,
    states: Vec<Lr1State<'grammar>>,
) -> Result<Vec<Lr1State<'grammar>>, OutOfMemory>
    ensures { IfOk result (λ reduced. AllZip IsReduced states.entry.items reduced.items) }
{
    let mut reduced = Vec::new(alloc);
    for state in states {
        reduced.push(reduce_state(alloc, state)?)?;
    }
    Ok(reduced)
}
