//! Productions as JSON.
ghost use Rattle.std.specs.Prelude.{◌≡◌, ◌++◌, IfOk, OnOk, map, string_bytes, codes};
ghost use Rattle.lalrpop_base.specs.Words.{productions};
ghost use Rattle.table_data.specs.Json.{array};
ghost use Rattle.table_data.specs.Rules.{production_json};

use super::lists::push_array;
use super::naming::Naming;
use super::to_json::ToJson;
use lalrpop_base::memory::OutOfMemory;
use lalrpop_base::repr::Production;
use lalrpop_base::repr::grammar::Grammar;
use std::alloc::Global;

impl<'grammar> ToJson for &'grammar Production {
    ghost json = { λ _ production. production_json production.now };

    fn push_json(
        &self,
        alloc: Global,
        text: &mut String,
        naming: &Naming<'_>,
    ) -> Result<(), OutOfMemory> {
        push_production(alloc, text, self, naming)
    }
}

// Appends a production.
fn push_production(
    alloc: Global,
    text: &mut String,
    production: &Production,
    naming: &Naming<'_>,
) -> Result<(), OutOfMemory>
    ensures { OnOk result
        (string_bytes text.new ≡ string_bytes text.old ++ production_json production.now) }
{
    let number = production.action.index();
    write!(text, "{{\"number\":{number},\"nonterminal\":")?;
    production.nonterminal.push_json(alloc, text, naming)?;
    text.push_str(",\"symbols\":")?;
    push_array(alloc, text, ",", production.symbols.as_slice(), naming)?;
    text.push_str("}")?;
    Ok(())
}

/// Appends an array of all productions of a grammar, nonterminal by nonterminal, each on a line of
/// its own.
pub(crate) fn push_productions(
    alloc: Global,
    text: &mut String,
    grammar: &Grammar,
    naming: &Naming<'_>,
) -> Result<(), OutOfMemory>
    ensures { OnOk result (string_bytes text.new ≡ string_bytes text.old ++ array (codes ",\n")
        production_json (productions grammar.now)) }
{
    let all = productions_in(alloc, grammar)?;
    push_array(alloc, text, ",\n", &all, naming)?;
    Ok(())
}

// All productions of a grammar, nonterminal by nonterminal.
fn productions_in<'grammar>(
    alloc: Global,
    grammar: &'grammar Grammar,
) -> Result<Vec<&'grammar Production>, OutOfMemory>
    ensures { IfOk result (λ all. map (λ p. p.now) all.items ≡ productions grammar.now) }
{
    let mut all = Vec::new(alloc);
    for (_name, entry) in grammar.nonterminals.iter() {
        add_each(&mut all, &entry.productions)?;
    }
    Ok(all)
}

// Adds productions to a list.
fn add_each<'grammar>(
    all: &mut Vec<&'grammar Production>,
    productions: &'grammar [Production],
) -> Result<(), OutOfMemory>
    ensures { OnOk result (map (λ p. p.now) all.new.items
        ≡ map (λ p. p.now) all.old.items ++ productions.now) }
{
    for production in productions {
        all.push(production)?;
    }
    Ok(())
}
