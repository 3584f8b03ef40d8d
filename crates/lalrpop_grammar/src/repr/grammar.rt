//! Grammars, and the test whether a grammar is well-formed.
ghost use Rattle.std.specs.Prelude.{◌≡◌, ◌<◌, ◌↔◌, List, length, IsTrue, IfOk, Contains, vec_len};
ghost use Rattle.std.specs.BTreeMap.{get};
ghost use Rattle.lalrpop_grammar.specs.grammars.WellFormed.{IsWellFormed, IsWellFormedEntry, IsWellFormedProduction, productions_of, HasKnownTerminals};
ghost use Rattle.lalrpop_grammar.specs.grammars.SameGrammars.{IsSameEntry, IsSameGrammar};

use super::inlined::InlineActionFnDefn;
use super::terminals::TerminalSet;
use super::{NonterminalString, Production, Span, Symbol};
use lalrpop_collections::exact::{equal, place_of};
use lalrpop_collections::memory::OutOfMemory;
use lalrpop_collections::text::Text;
use std::alloc::{AllocError, Global};
use std::collections::BTreeMap;

/// An attribute of a nonterminal, for example `inline`.
#[derive(Debug, Drop)]
pub struct Attribute {
    pub id: Text,
}

/// The entry of a nonterminal: its productions, its attributes and its span.
#[derive(Debug, Drop)]
pub struct NonterminalData {
    pub productions: Vec<Production>,
    pub attributes: Vec<Attribute>,
    pub span: Span,
}

/// Whether an action is the user's, or was made from other actions by inlining.
#[derive(Debug, Drop)]
pub enum ActionFnDefnKind {
    User,
    Inline(InlineActionFnDefn),
}

/// An action: whether it can fail, the type that it returns, and its kind.
#[derive(Debug, Drop)]
pub struct ActionFnDefn {
    pub fallible: bool,
    pub ret_type: Text,
    pub kind: ActionFnDefnKind,
}

/// Which tables the user asks for: LALR(1) tables if `lalr` is `true`, and LR(1) tables otherwise.
#[derive(Clone, Copy, Debug, PartialEq, Eq)]
pub struct Algorithm {
    pub lalr: bool,
}

/// A normalised grammar.
#[derive(Debug, Drop)]
pub struct Grammar {
    pub nonterminals: BTreeMap<NonterminalString, NonterminalData>,
    pub terminals: TerminalSet,
    pub action_fn_defns: Vec<ActionFnDefn>,
    pub algorithm: Algorithm,
}

impl Attribute {
    /// A copy of the attribute.
    pub fn clone(&self, alloc: Global) -> Result<Self, OutOfMemory>
        ensures copy { IfOk result (λ copy. copy ≡ self.now) }
    {
        Ok(Attribute {
            id: self.id.clone(alloc)?,
        })
    }
}

impl NonterminalData {
    /// A copy of the entry.
    pub fn clone(&self, alloc: Global) -> Result<Self, OutOfMemory>
        ensures copy { IfOk result (IsSameEntry self.now) }
    {
        Ok(NonterminalData {
            productions: clone_productions(alloc, &self.productions)?,
            attributes: clone_attributes(alloc, &self.attributes)?,
            span: self.span,
        })
    }
}

fn clone_productions(
    alloc: Global,
    productions: &[Production],
) -> Result<Vec<Production>, OutOfMemory>
    ensures { IfOk result (λ copy. copy.items ≡ productions.now) }
{
    let mut copy = Vec::new(alloc);
    for production in productions {
        copy.push(production.clone(alloc)?)?;
    }
    Ok(copy)
}

fn clone_attributes(alloc: Global, attributes: &[Attribute]) -> Result<Vec<Attribute>, OutOfMemory>
    ensures { IfOk result (λ copy. copy.items ≡ attributes.now) }
{
    let mut copy = Vec::new(alloc);
    for attribute in attributes {
        copy.push(attribute.clone(alloc)?)?;
    }
    Ok(copy)
}

impl ActionFnDefnKind {
    /// A copy of the kind.
    pub fn clone(&self, alloc: Global) -> Result<Self, OutOfMemory>
        ensures copy { IfOk result (λ copy. copy ≡ self.now) }
    {
        match self {
            ActionFnDefnKind::User => Ok(ActionFnDefnKind::User),
            ActionFnDefnKind::Inline(defn) => Ok(ActionFnDefnKind::Inline(defn.clone(alloc)?)),
        }
    }
}

impl ActionFnDefn {
    /// A copy of the action.
    pub fn clone(&self, alloc: Global) -> Result<Self, OutOfMemory>
        ensures copy { IfOk result (λ copy. copy ≡ self.now) }
    {
        Ok(ActionFnDefn {
            fallible: self.fallible,
            ret_type: self.ret_type.clone(alloc)?,
            kind: self.kind.clone(alloc)?,
        })
    }
}

fn clone_action_fn_defns(
    alloc: Global,
    defns: &[ActionFnDefn],
) -> Result<Vec<ActionFnDefn>, OutOfMemory>
    ensures { IfOk result (λ copy. copy.items ≡ defns.now) }
{
    let mut copy = Vec::new(alloc);
    for defn in defns {
        copy.push(defn.clone(alloc)?)?;
    }
    Ok(copy)
}

impl Clone for NonterminalString {
    ghost is_clone = { λ name copy. copy ≡ name };

    fn clone(&self) -> Result<NonterminalString, AllocError> {
        match self.clone(self.text.allocator()) {
            Ok(copy) => Ok(copy),
            Err(OutOfMemory) => Err(AllocError),
        }
    }
}

impl Clone for NonterminalData {
    ghost is_clone = { IsSameEntry };

    fn clone(&self) -> Result<NonterminalData, AllocError> {
        match self.clone(*self.productions.allocator()) {
            Ok(copy) => Ok(copy),
            Err(OutOfMemory) => Err(AllocError),
        }
    }
}

impl Grammar {
    /// A copy of the grammar.
    pub fn clone(&self, alloc: Global) -> Result<Self, OutOfMemory>
        ensures copy { IfOk result (IsSameGrammar self.now) }
    {
        Ok(Grammar {
            nonterminals: Clone::clone(&self.nonterminals)?,
            terminals: self.terminals.clone(alloc)?,
            action_fn_defns: clone_action_fn_defns(alloc, &self.action_fn_defns)?,
            algorithm: self.algorithm,
        })
    }

    /// The productions of a nonterminal. There are none if it has no entry.
    pub fn productions_for(&self, nonterminal: &NonterminalString) -> &[Production]
        ensures { result.now ≡ productions_of self.now nonterminal.now }
    {
        match self.nonterminals.get(nonterminal) {
            Some(entry) => &entry.productions,
            None => &[],
        }
    }
}

/// Whether a grammar is well-formed, which each call with a grammar requires. Each production is
/// under its own name, its terminals are those of the grammar, and its action exists. No two
/// productions of a name are equal.
pub fn is_well_formed(grammar: &Grammar) -> bool
    ensures { IsTrue result ↔ IsWellFormed grammar.now }
{
    let actions = grammar.action_fn_defns.len();
    for (name, entry) in grammar.nonterminals.iter() {
        if !is_well_formed_entry(name, &entry.productions, &grammar.terminals, actions) {
            return false;
        }
    }
    true
}

// Whether the productions of one name are well-formed.
fn is_well_formed_entry(
    name: &NonterminalString,
    productions: &[Production],
    terminals: &TerminalSet,
    actions: usize,
) -> bool
    ensures { IsTrue result ↔ IsWellFormedEntry terminals.now actions name.now productions.now }
{
    for (place, production) in productions.iter().enumerate() {
        if !is_well_formed_production(name, production, terminals, actions) {
            return false;
        }
        if let Some(first) = place_of(productions, production)
            && first < place
        {
            return false;
        }
    }
    true
}

// Whether a production of a name is well-formed, whatever the other productions are.
fn is_well_formed_production(
    name: &NonterminalString,
    production: &Production,
    terminals: &TerminalSet,
    actions: usize,
) -> bool
    ensures { IsTrue result ↔ IsWellFormedProduction terminals.now actions name.now production.now }
{
    equal(&production.nonterminal, name)
        && has_known_terminals(production.symbols.as_slice(), terminals)
        && production.action.index() < actions
}

// Whether each terminal of a list of symbols is in the set.
fn has_known_terminals(symbols: &[Symbol], terminals: &TerminalSet) -> bool
    ensures { IsTrue result ↔ HasKnownTerminals terminals.now symbols.now }
{
    for symbol in symbols {
        if let Symbol::Terminal(terminal) = symbol
            && terminals.bit(terminal).is_none()
        {
            return false;
        }
    }
    true
}
