//! What the lines of a grammar text give, collected line by line.
ghost use Rattle.std.specs.Prelude.{◌≡◌, ◌≤◌, ◌<◌, ◌^◌, ◌∷◌, [], ◌++◌, ◌||◌, List, IfOk, OnOk, IfErr, Some, vec_len, option_map, if◌then◌else◌};
ghost use Rattle.std.specs.List.{list_any};
ghost use Rattle.std.specs.Str.{bytes_eq};
ghost use Rattle.std.specs.BTreeMap.{get, IsOrdered};
ghost use Rattle.std.specs.BTreeSet.{contains};
ghost use Rattle.lalrpop_base.specs.Words.{name_cmp};
ghost use Rattle.grammar_text.specs.declared.lines.PlacedLine.{PlacedLine};
ghost use Rattle.lalrpop_grammar.specs.declared.repr.TerminalString.{TerminalString};
ghost use Rattle.lalrpop_grammar.specs.declared.repr.NonterminalString.{NonterminalString};
ghost use Rattle.grammar_text.specs.Grammar.{with_production, with_mark, user_action, terminal_cmp, terminals_of};
ghost use Rattle.lalrpop_grammar.specs.grammars.Entries.{entry_view};
ghost use Rattle.grammar_text.specs.Collected.{IsCollected, IsSoFar, IsAddError, is_same, production_at, inline_at};
ghost use Rattle.grammar_text.specs.declared.read_error.ReadError.TheVariants.{TooManyActions};

use crate::lines::{Line, PlacedLine};
use crate::read_error::ReadError;
use lalrpop_base::memory::OutOfMemory;
use lalrpop_base::repr::grammar::{ActionFnDefn, ActionFnDefnKind, Attribute, NonterminalData};
use lalrpop_base::repr::{
    ActionFn, NonterminalString, Production, Span, Symbol, Symbols, TerminalString,
};
use lalrpop_base::text::Text;
use std::alloc::Global;
use std::collections::{BTreeMap, BTreeSet};

/// The entries, terminals and actions of the lines so far.
#[derive(Drop)]
pub struct Collected {
    pub nonterminals: BTreeMap<NonterminalString, NonterminalData>,
    pub terminals: BTreeSet<TerminalString>,
    pub action_fn_defns: Vec<ActionFnDefn>,
}

impl Collected {
    /// What an empty list of lines gives.
    pub fn new(alloc: Global) -> Collected
        ensures { IsCollected [] result }
    {
        Collected {
            nonterminals: BTreeMap::new(alloc),
            terminals: BTreeSet::new(alloc),
            action_fn_defns: Vec::new(alloc),
        }
    }

    /// What lines give, or why it could not be collected.
    pub fn of_lines(alloc: Global, lines: Vec<PlacedLine>) -> Result<Collected, ReadError>
        ensures { IsSoFar lines.items result }
    {
        let mut so_far = Ok(Collected::new(alloc));
        for line in lines {
            so_far = with_line(alloc, so_far, line);
        }
        so_far
    }

    // Adds what a line gives. A blank line and a fault give nothing.
    fn add(&mut self, alloc: Global, line: PlacedLine) -> Result<(), ReadError>
        ensures ok { OnOk result ((lines : List PlacedLine) →
            IsCollected lines self.old →
            IsCollected (lines ++ line ∷ []) self.new) }
        ensures few { OnOk result (vec_len self.old.action_fn_defns ≤ 2 ^ 32 →
            vec_len self.new.action_fn_defns ≤ 2 ^ 32) }
        ensures err { IfErr result (IsAddError self.old line) }
    {
        let PlacedLine { line, span } = line;
        match line {
            Line::Blank | Line::Fault => Ok(()),
            Line::Production(nonterminal, symbols) => {
                self.add_production(alloc, nonterminal, symbols, span)
            }
            Line::Inline(nonterminal) => Ok(self.add_mark(alloc, nonterminal, span)?),
        }
    }

    // Adds a production. It has the next action.
    fn add_production(
        &mut self,
        alloc: Global,
        nonterminal: NonterminalString,
        symbols: Symbols,
        span: Span,
    ) -> Result<(), ReadError>
        ensures ok { OnOk result ((lines : List PlacedLine) → IsCollected lines self.old →
            IsCollected (lines ++ production_at nonterminal symbols span ∷ []) self.new) }
        ensures few { OnOk result (vec_len self.new.action_fn_defns ≤ 2 ^ 32) }
        ensures err { IfErr result (IsAddError self.old (production_at nonterminal symbols span)) }
    {
        let action = action_after(self.action_fn_defns.len())?;
        self.action_fn_defns.push(user_defn(alloc)?)?;
        add_terminals(alloc, &mut self.terminals, symbols.as_slice())?;
        let name = nonterminal.clone(alloc)?;
        let production = Production {
            nonterminal,
            symbols,
            action,
            span,
        };
        add_to_entry(alloc, &mut self.nonterminals, name, production)?;
        Ok(())
    }
}

impl Collected {
    // Adds the mark of a nonterminal that is to be inlined.
    fn add_mark(
        &mut self,
        alloc: Global,
        nonterminal: NonterminalString,
        span: Span,
    ) -> Result<(), OutOfMemory>
        ensures ok { OnOk result ((lines : List PlacedLine) → IsCollected lines self.old →
            IsCollected (lines ++ inline_at nonterminal span ∷ []) self.new) }
        ensures same { self.new.action_fn_defns ≡ self.old.action_fn_defns }
    {
        let entry = self.nonterminals.remove(&nonterminal);
        let marked = marked_entry(alloc, entry, span)?;
        self.nonterminals.insert(nonterminal, marked)?;
        Ok(())
    }
}

/// What the lines so far and one more line give. An error of the lines so far stays.
pub fn with_line(
    alloc: Global,
    so_far: Result<Collected, ReadError>,
    line: PlacedLine,
) -> Result<Collected, ReadError>
    ensures { (lines : List PlacedLine) → IsSoFar lines so_far →
        IsSoFar (lines ++ line ∷ []) result }
{
    let mut collected = so_far?;
    collected.add(alloc, line)?;
    Ok(collected)
}

// The action with the number `count`, if `count` fits into 32 bits.
fn action_after(count: usize) -> Result<ActionFn, ReadError>
    ensures ok { IfOk result (λ action. action.0 ≡ count) }
    ensures few { OnOk result (count < 2 ^ 32) }
    ensures err { IfErr result (λ e. (e ≡ TooManyActions) × (2 ^ 32 ≤ count)) }
{
    match u32::try_from(count) {
        Ok(number) => Ok(ActionFn::new(number)),
        Err(_) => Err(ReadError::TooManyActions),
    }
}

// The definition of an action: it is the user's, returns `()`, and is not fallible.
fn user_defn(alloc: Global) -> Result<ActionFnDefn, OutOfMemory>
    ensures { IfOk result (λ defn. defn ≡ user_action) }
{
    Ok(ActionFnDefn {
        fallible: false,
        ret_type: Text::new(alloc, "()")?,
        kind: ActionFnDefnKind::User,
    })
}

// Adds the terminals among the symbols.
fn add_terminals(
    alloc: Global,
    terminals: &mut BTreeSet<TerminalString>,
    symbols: &[Symbol],
) -> Result<(), OutOfMemory>
    ensures { OnOk result ((t : TerminalString) → contains terminal_cmp terminals.new t
        ≡ (contains terminal_cmp terminals.old t
        || list_any (λ x. is_same x t) (terminals_of symbols.now))) }
{
    for symbol in symbols {
        add_terminal(alloc, terminals, symbol)?;
    }
    Ok(())
}

// Adds the symbol if it is a terminal.
fn add_terminal(
    alloc: Global,
    terminals: &mut BTreeSet<TerminalString>,
    symbol: &Symbol,
) -> Result<(), OutOfMemory>
    ensures { OnOk result ((t : TerminalString) → contains terminal_cmp terminals.new t
        ≡ (contains terminal_cmp terminals.old t
        || list_any (λ x. is_same x t) (terminals_of (symbol.now ∷ [])))) }
{
    if let Symbol::Terminal(terminal) = symbol {
        terminals.insert(terminal.clone(alloc)?)?;
    }
    Ok(())
}

// Adds a production to the entry of its nonterminal.
fn add_to_entry(
    alloc: Global,
    nonterminals: &mut BTreeMap<NonterminalString, NonterminalData>,
    name: NonterminalString,
    production: Production,
) -> Result<(), OutOfMemory>
    ensures entries { OnOk result ((a : NonterminalString) →
        option_map entry_view (get name_cmp nonterminals.new a)
        ≡ (if bytes_eq name.text a.text
        then with_production
        (option_map entry_view (get name_cmp nonterminals.old name)) production
        else option_map entry_view (get name_cmp nonterminals.old a))) }
    ensures ordered { OnOk result (IsOrdered name_cmp nonterminals.new) }
{
    let entry = nonterminals.remove(&name);
    let grown = grown_entry(alloc, entry, production)?;
    nonterminals.insert(name, grown)?;
    Ok(())
}

// The entry with the production added, or a new entry with the production alone.
fn grown_entry(
    alloc: Global,
    entry: Option<NonterminalData>,
    production: Production,
) -> Result<NonterminalData, OutOfMemory>
    ensures { IfOk result (λ grown. Some (entry_view grown) ≡ with_production
        (option_map entry_view entry) production) }
{
    let mut grown = match entry {
        Some(entry) => entry,
        None => NonterminalData {
            productions: Vec::new(alloc),
            attributes: Vec::new(alloc),
            span: production.span,
        },
    };
    grown.productions.push(production)?;
    Ok(grown)
}

// The entry with the mark `inline` added, or a new entry with the mark alone.
fn marked_entry(
    alloc: Global,
    entry: Option<NonterminalData>,
    span: Span,
) -> Result<NonterminalData, OutOfMemory>
    ensures { IfOk result
        (λ marked. Some (entry_view marked) ≡ with_mark (option_map entry_view entry) span) }
{
    let mut marked = match entry {
        Some(entry) => entry,
        None => NonterminalData {
            productions: Vec::new(alloc),
            attributes: Vec::new(alloc),
            span,
        },
    };
    marked.attributes.push(Attribute {
        id: Text::new(alloc, "inline")?,
    })?;
    Ok(marked)
}
