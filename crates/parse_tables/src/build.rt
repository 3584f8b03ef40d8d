//! The parse table of states.
ghost use Rattle.std.specs.Prelude.{◌≡◌, ◌++◌, ◌∷◌, [], IfOk, OnOk, length, map};
ghost use Rattle.lalrpop_base.specs.Words.{contents, contents_in, holds_token, productions};
ghost use Rattle.lalrpop_grammar.specs.declared.repr.NonterminalString.{NonterminalString};
ghost use Rattle.lalrpop_grammar.specs.declared.repr.grammar.NonterminalData.{NonterminalData};
ghost use Rattle.parse_tables.specs.Codes.{AreSides};
ghost use Rattle.parse_tables.specs.StateRows.{HaveActions, HaveGotos};
ghost use Rattle.parse_tables.specs.Tables.{IsTableOf};

use crate::action_rows::{list_actions, list_gotos};
use crate::cells::number_of;
use crate::error::ParseTableError;
use crate::numbering::Numbering;
use crate::packing::Packing;
use crate::rows::Rows;
use crate::table::ParseTable;
use lalrpop_base::lr1_core::state::Lr1State;
use lalrpop_base::repr::grammar::Grammar;
use lalrpop_base::repr::terminals::TerminalSet;
use lalrpop_base::repr::{NonterminalString, Production};
use std::alloc::Global;

impl ParseTable {
    /// The table of states for a grammar. States that were built for the grammar have one, unless an
    /// allocation fails or a number has more than 32 bits.
    pub fn new(
        alloc: Global,
        grammar: &Grammar,
        states: &[Lr1State<'_>],
    ) -> Result<ParseTable, ParseTableError>
        ensures table { IfOk result
            (λ t. IsTableOf t (contents grammar.now.terminals states.now)) }
        ensures terminals { IfOk result (λ t. t.terminals ≡ grammar.now.terminals) }
        ensures nonterminals { IfOk result (λ t. t.nonterminals ≡ map
            (λ (e : NonterminalString × NonterminalData). e.0) grammar.now.nonterminals.entries) }
        ensures productions { IfOk result (λ t. t.productions ≡ productions grammar.now) }
    {
        let terminals = grammar.terminals.clone(alloc)?;
        let nonterminals = number_nonterminals(alloc, grammar)?;
        let productions = number_productions(alloc, grammar)?;
        let first_shift = number_of(productions.all().len() + 1)?;
        let sides = list_sides(alloc, &nonterminals, &productions)?;
        let actions = pack_actions(alloc, &terminals, &productions, states)?;
        let gotos = pack_gotos(alloc, nonterminals.all(), states)?;
        Ok(ParseTable {
            terminals,
            nonterminals,
            productions,
            sides,
            first_shift,
            actions,
            gotos,
        })
    }
}

// The nonterminals of a grammar, in its order.
fn number_nonterminals(
    alloc: Global,
    grammar: &Grammar,
) -> Result<Numbering<NonterminalString>, ParseTableError>
    ensures { IfOk result (λ n. n ≡ map (λ (e : NonterminalString × NonterminalData). e.0)
        grammar.now.nonterminals.entries) }
{
    let mut numbering = Numbering::new(alloc);
    for (name, _data) in grammar.nonterminals.iter() {
        numbering.add(name.clone(alloc)?)?;
    }
    Ok(numbering)
}

// The productions of a grammar, in its order.
fn number_productions(
    alloc: Global,
    grammar: &Grammar,
) -> Result<Numbering<Production>, ParseTableError>
    ensures { IfOk result (λ n. n ≡ productions grammar.now) }
{
    let mut numbering = Numbering::new(alloc);
    for (_name, data) in grammar.nonterminals.iter() {
        add_productions(alloc, &data.productions, &mut numbering)?;
    }
    Ok(numbering)
}

// Adds productions after the others.
fn add_productions(
    alloc: Global,
    productions: &[Production],
    numbering: &mut Numbering<Production>,
) -> Result<(), ParseTableError>
    ensures { OnOk result (numbering.new ≡ numbering.old ++ productions.now) }
{
    for production in productions {
        numbering.add(production.clone(alloc)?)?;
    }
    Ok(())
}

// The number of the nonterminal of each production, and the length of its right side.
fn list_sides(
    alloc: Global,
    nonterminals: &Numbering<NonterminalString>,
    productions: &Numbering<Production>,
) -> Result<Vec<(u32, u32)>, ParseTableError>
    ensures counted { IfOk result (λ sides. length sides.items ≡ length productions.now) }
    ensures sided { IfOk result
        (λ sides. AreSides nonterminals.now productions.now sides.items) }
{
    let mut sides = Vec::new(alloc);
    for production in productions.all() {
        sides.push(side_of(alloc, nonterminals, production)?)?;
    }
    Ok(sides)
}

// The number of the nonterminal of a production, and the length of its right side.
fn side_of(
    alloc: Global,
    nonterminals: &Numbering<NonterminalString>,
    production: &Production,
) -> Result<(u32, u32), ParseTableError>
    ensures { IfOk result
        (λ side. AreSides nonterminals.now (production.now ∷ []) (side ∷ [])) }
{
    let Some(number) = nonterminals.number(&production.nonterminal) else {
        let name = production.nonterminal.clone(alloc)?;
        return Err(ParseTableError::UnknownNonterminal(name));
    };
    Ok((number_of(number)?, number_of(production.symbols.len())?))
}

// The actions of states, as packed rows.
fn pack_actions(
    alloc: Global,
    terminals: &TerminalSet,
    productions: &Numbering<Production>,
    states: &[Lr1State<'_>],
) -> Result<Rows, ParseTableError>
    ensures { IfOk result (HaveActions terminals.now productions.now
        (contents terminals.now states.now)) }
{
    let mut packing = Packing::new(alloc);
    let mut row = Vec::new(alloc);
    for state in states {
        list_actions(terminals, productions, state, &mut row)?;
        packing.add(&row)?;
    }
    Ok(packing.into_rows())
}

// The gotos of states, as packed rows.
fn pack_gotos(
    alloc: Global,
    nonterminals: &[NonterminalString],
    states: &[Lr1State<'_>],
) -> Result<Rows, ParseTableError>
    ensures { IfOk result (HaveGotos nonterminals.now (contents [] states.now)) }
{
    let mut packing = Packing::new(alloc);
    let mut row = Vec::new(alloc);
    for state in states {
        list_gotos(nonterminals, state, &mut row)?;
        packing.add(&row)?;
    }
    Ok(packing.into_rows())
}
