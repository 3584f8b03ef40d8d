//! Examples of input as JSON, and the items to which they lead.
ghost use Rattle.table_data.specs.Examples.{example_json, reduced_json, shown_json, word_json};

use super::lists::push_array;
use super::naming::Naming;
use super::to_json::{ToJson, push_number};
use lalrpop_base::memory::OutOfMemory;
use lalrpop_traces::trace::{Example, ExampleSymbol, Reduction};
use std::alloc::Global;

impl ToJson for ExampleSymbol {
    ghost json = { λ _ word. word_json word };

    fn push_json(
        &self,
        alloc: Global,
        text: &mut String,
        naming: &Naming<'_>,
    ) -> Result<(), OutOfMemory> {
        match self {
            ExampleSymbol::Symbol(symbol) => symbol.push_json(alloc, text, naming),
            ExampleSymbol::Epsilon => {
                text.push_str("null")?;
                Ok(())
            }
        }
    }
}

impl ToJson for Reduction {
    ghost json = { λ _ reduction. reduced_json reduction };

    fn push_json(
        &self,
        alloc: Global,
        text: &mut String,
        naming: &Naming<'_>,
    ) -> Result<(), OutOfMemory> {
        push_number(text, "{\"start\":", self.start)?;
        push_number(text, ",\"end\":", self.end)?;
        text.push_str(",\"nonterminal\":")?;
        self.nonterminal.push_json(alloc, text, naming)?;
        text.push_str("}")?;
        Ok(())
    }
}

impl ToJson for Example {
    ghost json = { λ _ example. example_json example };

    fn push_json(
        &self,
        alloc: Global,
        text: &mut String,
        naming: &Naming<'_>,
    ) -> Result<(), OutOfMemory> {
        text.push_str("{\"symbols\":")?;
        push_array(alloc, text, ",", &self.symbols, naming)?;
        push_number(text, ",\"place\":", self.cursor)?;
        text.push_str(",\"reductions\":")?;
        push_array(alloc, text, ",", &self.reductions, naming)?;
        text.push_str("}")?;
        Ok(())
    }
}

/// An item of an action: the number of its production, the place of its dot, and examples of how it
/// comes about.
#[derive(Drop)]
pub(crate) struct ShownItem {
    pub(crate) production: usize,
    pub(crate) dot: usize,
    pub(crate) examples: Vec<Example>,
}

impl ToJson for ShownItem {
    ghost json = { λ _ item. shown_json item };

    fn push_json(
        &self,
        alloc: Global,
        text: &mut String,
        naming: &Naming<'_>,
    ) -> Result<(), OutOfMemory> {
        push_number(text, "{\"production\":", self.production)?;
        push_number(text, ",\"dot\":", self.dot)?;
        text.push_str(",\"examples\":")?;
        push_array(alloc, text, ",", &self.examples, naming)?;
        text.push_str("}")?;
        Ok(())
    }
}
