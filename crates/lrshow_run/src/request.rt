//! A request of `lrshow` that needs the tables of a grammar, or its conflicts.
ghost use Rattle.grammar_text.specs.Symbols.{name_of};
ghost use Rattle.lrshow_arguments.specs.Words.{form_view};
ghost use Rattle.lrshow_run.specs.Shown.{IsAskedShown};

use crate::shown::{is_missing, made_shown, no_start};
use grammar_text::symbols::name_of;
use lalrpop_base::memory::OutOfMemory;
use lalrpop_base::repr::grammar::Grammar;
use lalrpop_tables::build::Method;
use lrshow_arguments::words::Request;
use program_answers::answer::Shown;
use program_answers::ask::Ask;
use std::alloc::Global;

/// A request of `lrshow` for what is shown of a grammar.
#[derive(Clone, Copy)]
pub(crate) struct ShowRequest<'a> {
    pub(crate) request: Request<'a>,
}

impl Ask for ShowRequest<'_> {
    ghost IsShown = { λ asked method g s.
        IsAskedShown method g (name_of asked.request.start.now) (form_view asked.request.form) s };

    fn shown(
        &self,
        alloc: Global,
        method: Method,
        grammar: &Grammar,
    ) -> Result<Shown, OutOfMemory> {
        let Request { start, form } = self.request;
        let start = name_of(alloc, start)?;
        if is_missing(grammar, &start, form) {
            return no_start(alloc, grammar, &start);
        }
        made_shown(alloc, grammar, start, method, form)
    }
}
