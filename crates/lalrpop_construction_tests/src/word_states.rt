// States with words as lookaheads, made by the construction that is generic in the lookahead.
ghost use Rattle.lalrpop_base.specs.Words.{IsWellFormed};

use crate::word_lookahead::Word;
use grammar_text::symbols::name_of;
use lalrpop_base::lr1_core::coherent::are_coherent;
use lalrpop_base::lr1_core::state::BuildError;
use lalrpop_base::repr::grammar::Grammar;
use lalrpop_construction::construction::lr::Lr;
use std::alloc::Global;
use std::test::Fail;

/// The numbers of states and of conflicts. States that are not coherent are an error.
pub(crate) fn counts(alloc: Global, grammar: &Grammar, start: &str) -> Result<(usize, usize), Fail>
    requires { IsWellFormed grammar.now }
{
    let Some(end) = Word::eof(&grammar.terminals) else {
        return Err(Fail::from("too many terminals"));
    };
    let lr = Lr::new(alloc, grammar, name_of(alloc, start)?, end)?;
    match lr.build_states(alloc) {
        Ok(states) if are_coherent(&states) => Ok((states.len(), 0)),
        Err(BuildError::Conflicts(error)) if are_coherent(&error.states) => {
            Ok((error.states.len(), error.conflicts.len()))
        }
        _ => Err(Fail::from("no coherent states")),
    }
}
