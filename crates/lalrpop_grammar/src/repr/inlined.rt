//! The actions of productions into which alternatives of other nonterminals were inlined.
ghost use Rattle.std.specs.Prelude.{◌≡◌, IfOk};

use super::{ActionFn, Symbol, Symbols, clone_symbols};
use lalrpop_collections::memory::OutOfMemory;
use lalrpop_collections::sequence::Sequence;
use std::alloc::Global;

/// A part of a right side into which alternatives were inlined.
#[derive(Debug, Drop)]
pub enum InlinedSymbol {
    /// A symbol that was there before the inlining.
    Original(Symbol),
    /// The action and the right side of the alternative that replaces a nonterminal.
    Inlined(ActionFn, Symbols),
}

/// An action that is applied to the parts of a right side. The value of an inlined part is the
/// result of its own action.
#[derive(Debug, Drop)]
pub struct InlineActionFnDefn {
    pub action: ActionFn,
    pub symbols: Sequence<InlinedSymbol>,
}

impl InlinedSymbol {
    /// A copy of the part.
    pub fn clone(&self, alloc: Global) -> Result<Self, OutOfMemory>
        ensures copy { IfOk result (λ copy. copy ≡ self.now) }
    {
        match self {
            InlinedSymbol::Original(symbol) => Ok(InlinedSymbol::Original(symbol.clone(alloc)?)),
            InlinedSymbol::Inlined(action, symbols) => Ok(InlinedSymbol::Inlined(
                *action,
                clone_symbols(alloc, symbols.as_slice())?,
            )),
        }
    }
}

/// A copy of the parts.
pub fn clone_inlined_symbols(
    alloc: Global,
    symbols: &[InlinedSymbol],
) -> Result<Sequence<InlinedSymbol>, OutOfMemory>
    ensures { IfOk result (λ copy. copy ≡ symbols.now) }
{
    let mut copy = Sequence::new(alloc);
    for symbol in symbols {
        copy.push(symbol.clone(alloc)?)?;
    }
    Ok(copy)
}

impl InlineActionFnDefn {
    /// A copy of the action.
    pub fn clone(&self, alloc: Global) -> Result<Self, OutOfMemory>
        ensures copy { IfOk result (λ copy. copy ≡ self.now) }
    {
        Ok(InlineActionFnDefn {
            action: self.action,
            symbols: clone_inlined_symbols(alloc, self.symbols.as_slice())?,
        })
    }
}
