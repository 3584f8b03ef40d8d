//! The numbers of the terminals, nonterminals and productions of a grammar.
ghost use Rattle.std.specs.Prelude.{◌≡◌, ◌++◌, IfOk, OnOk, map};
ghost use Rattle.lalrpop_base.specs.Words.{productions};
ghost use Rattle.table_numbers.specs.Lists.{lists_of, named, nonterminals_of, side_of};

use crate::error::NumbersError;
use crate::layout::number_of;
use crate::numbering::Numbering;
use lalrpop_base::repr::grammar::Grammar;
use lalrpop_base::repr::terminals::TerminalSet;
use lalrpop_base::repr::{NonterminalString, Production, TerminalString};
use lalrpop_base::sequence::Sequence;
use std::alloc::Global;
use std::marker::Model;

/// The terminals, nonterminals and productions of a grammar, each with its number.
#[derive(Drop)]
pub(crate) struct Names {
    pub(crate) terminals: Numbering<TerminalString>,
    pub(crate) nonterminals: Numbering<NonterminalString>,
    pub(crate) productions: Numbering<Production>,
}

impl Model for Names {
    ghost use Rattle.table_numbers.specs.Lists.{Lists};

    ghost Value = { Lists };

    ghost view = { λ n. record {
      terminals = n.terminals;
      nonterminals = n.nonterminals;
      productions = n.productions;
    } };
}

impl Names {
    /// The names of a grammar. The errors are `Repeated` and `Memory`.
    pub(crate) fn new(alloc: Global, grammar: &Grammar) -> Result<Names, NumbersError>
        ensures { IfOk result (λ names. names ≡ lists_of grammar.now) }
    {
        Ok(Names {
            terminals: number_terminals(alloc, &grammar.terminals)?,
            nonterminals: number_nonterminals(alloc, grammar)?,
            productions: number_productions(alloc, grammar)?,
        })
    }
}

// The terminals, in their order.
fn number_terminals(
    alloc: Global,
    terminals: &TerminalSet,
) -> Result<Numbering<TerminalString>, NumbersError>
    ensures { IfOk result (λ n. n ≡ terminals.now) }
{
    let mut numbering = Numbering::new(alloc);
    for terminal in terminals.all() {
        numbering.add(terminal.clone(alloc)?)?;
    }
    Ok(numbering)
}

// The nonterminals of a grammar, in its order.
fn number_nonterminals(
    alloc: Global,
    grammar: &Grammar,
) -> Result<Numbering<NonterminalString>, NumbersError>
    ensures { IfOk result (λ n. n ≡ nonterminals_of grammar.now) }
{
    let mut numbering = Numbering::new(alloc);
    for (name, _data) in grammar.nonterminals.iter() {
        numbering.add(name.clone(alloc)?)?;
    }
    Ok(numbering)
}

// The productions of a grammar, in its order.
fn number_productions(
    alloc: Global,
    grammar: &Grammar,
) -> Result<Numbering<Production>, NumbersError>
    ensures { IfOk result (λ n. n ≡ productions grammar.now) }
{
    let mut numbering = Numbering::new(alloc);
    for (_name, data) in grammar.nonterminals.iter() {
        add_productions(alloc, &data.productions, &mut numbering)?;
    }
    Ok(numbering)
}

// Adds productions after the others.
fn add_productions(
    alloc: Global,
    productions: &[Production],
    numbering: &mut Numbering<Production>,
) -> Result<(), NumbersError>
    ensures { OnOk result (numbering.new ≡ numbering.old ++ productions.now) }
{
    for production in productions {
        numbering.add(production.clone(alloc)?)?;
    }
    Ok(())
}

/// The number of the nonterminal of each production, and the length of its right side.
pub(crate) fn list_sides(
    alloc: Global,
    nonterminals: &Numbering<NonterminalString>,
    productions: &[Production],
) -> Result<Sequence<(u32, u32)>, NumbersError>
    ensures { IfOk result (λ sides. named nonterminals.now sides ≡ map side_of productions.now) }
{
    let mut sides = Sequence::with_capacity(alloc, productions.len())?;
    for production in productions {
        let Some(number) = nonterminals.number(&production.nonterminal) else {
            return Err(NumbersError::Productions);
        };
        sides.push((number_of(number)?, number_of(production.symbols.len())?))?;
    }
    Ok(sides)
}
