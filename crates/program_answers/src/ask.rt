//! What a program can be asked of a grammar.
ghost use Rattle.std.specs.Prelude.{◌≡◌, IfOk, false};
ghost use Rattle.lalrpop_base.specs.Words.{IsWellFormed};
ghost use Rattle.lalrpop_grammar.specs.declared.repr.grammar.Grammar.{Grammar};
ghost use Rattle.lalrpop_construction.specs.declared.options.Method.{Method};
ghost use Rattle.program_answers.specs.declared.answer.Shown.{Shown};

use crate::answer::Shown;
use lalrpop_base::memory::OutOfMemory;
use lalrpop_base::repr::grammar::Grammar;
use lalrpop_construction::options::Method;
use std::alloc::Global;

/// A request of a program, for a grammar whose marked nonterminals are inlined.
pub trait Ask {
    // Whether a value is what is shown of a grammar, by the method.
    ghost IsShown: { Self → Method → Grammar → Shown → Type 0 };

    /// What is shown of the grammar, by the method. `OutOfMemory` if an allocation fails.
    fn shown(&self, alloc: Global, method: Method, grammar: &Grammar) -> Result<Shown, OutOfMemory>
        requires well_formed { IsWellFormed grammar.now }
        requires canonical { grammar.now.algorithm.lalr ≡ false }
        ensures { IfOk result (IsShown self.now method grammar.now) };
}
