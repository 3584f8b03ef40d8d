//! A new start symbol, which is on no right side.
ghost use Rattle.std.specs.Prelude.{◌≡◌, ◌↔◌, ◌∷◌, [], ◌++◌, List, Contains, IfOk, IfErr, IsTrue, vec_len};
ghost use Rattle.std.specs.BTreeMap.{get, insert_entry};
ghost use Rattle.lalrpop_grammar.specs.grammars.Grammar.{IsOnNoRightSide, IsSentence, IsBeginning};
ghost use Rattle.lalrpop_grammar.specs.grammars.NewStart.{underscored, IsUnused, IsNewName, span_of, start_production, start_action, IsEntryOf, HasNewStart, IsAboveParseTree, IsRefusedStart};
ghost use Rattle.lalrpop_grammar.specs.parsing.Runs.{IsFirstWrong};
ghost use Rattle.lalrpop_grammar.specs.parsing.Trees.{Tree, IsParseTree};
ghost use Rattle.lalrpop_grammar.specs.grammars.WellFormed.{IsWellFormed, name_cmp, productions};
ghost use Rattle.lalrpop_grammar.specs.declared.lookahead.token.Token.{Token};
ghost use Rattle.lalrpop_grammar.specs.declared.repr.TerminalString.{TerminalString};
ghost use Rattle.lalrpop_grammar.specs.declared.repr.Symbol.TheVariants.{Nonterminal};

use super::grammar::{ActionFnDefn, ActionFnDefnKind, Grammar, NonterminalData};
use super::norm_error::{NormError, NormResult};
use super::{ActionFn, NonterminalString, Production, Span, Symbol, Symbols};
use lalrpop_collections::exact::equal;
use lalrpop_collections::memory::OutOfMemory;
use lalrpop_collections::sequence::Sequence;
use lalrpop_collections::text::Text;
use std::alloc::Global;

/// The grammar with a new start symbol, and the name of that symbol. Tables of the new grammar for
/// that name parse the same lists. Each tree has one more node at its root, even if the old start
/// symbol is on right sides. A grammar may lose its tables. For example, `S = S | "a"` has tables
/// for `S`, but a conflict at the end of input for a new symbol that derives `S`. Returns
/// `TooManyActions` if the new action would have a number above 4294967295, and `Memory` if an
/// allocation fails.
pub fn augment(
    alloc: Global,
    grammar: Grammar,
    start: NonterminalString,
) -> NormResult<(Grammar, NonterminalString)>
    requires { IsWellFormed grammar }
    ensures added { IfOk result (λ r. HasNewStart grammar start r.0 r.1) }
    ensures well_formed { IfOk result (λ r. IsWellFormed r.0) }
    ensures alone { IfOk result (λ r. IsOnNoRightSide (productions r.0) r.1) }
    ensures trees { IfOk result (λ r. (w : List TerminalString) (t : Tree) →
        IsParseTree (productions r.0) r.1 w t ↔ IsAboveParseTree (productions grammar) start r.1 w
        t) }
    ensures sentences { IfOk result (λ r. (w : List TerminalString) →
        IsSentence (productions r.0) r.1 w ↔ IsSentence (productions grammar) start w) }
    ensures beginnings { IfOk result (λ r. (w : List TerminalString) →
        IsBeginning (productions r.0) r.1 w ↔ IsBeginning (productions grammar) start w) }
    ensures wrong { IfOk result (λ r. (w : List TerminalString) (t : Token) →
        IsFirstWrong (productions r.0) r.1 w t →
        IsFirstWrong (productions grammar) start w t) }
    ensures refused { IfErr result (IsRefusedStart grammar) }
{
    let action = next_action(&grammar)?;
    let span = span_of(&grammar, &start);
    let name = new_name(alloc, &grammar, &start)?;
    let production = Production {
        nonterminal: name.clone(alloc)?,
        symbols: only(alloc, Symbol::Nonterminal(start))?,
        action,
        span,
    };
    let entry = entry_of(alloc, production)?;
    let augmented = with_entry(alloc, grammar, name.clone(alloc)?, entry)?;
    Ok((augmented, name))
}

// The number of the next action. Returns `TooManyActions` if the number does not fit into 32 bits.
fn next_action(grammar: &Grammar) -> NormResult<ActionFn>
    ensures ok { IfOk result (λ action. action.0 ≡ vec_len grammar.now.action_fn_defns) }
    ensures err { IfErr result (IsRefusedStart grammar.now) }
{
    match u32::try_from(grammar.action_fn_defns.len()) {
        Ok(number) => Ok(ActionFn::new(number)),
        Err(_) => Err(NormError::TooManyActions),
    }
}

// The span of the entry of a name, or `Span(0, 0)` if the name has no entry.
fn span_of(grammar: &Grammar, name: &NonterminalString) -> Span
    ensures { result ≡ span_of (get name_cmp grammar.now.nonterminals name.now) }
{
    match grammar.nonterminals.get(name) {
        Some(entry) => entry.span,
        None => Span(0, 0),
    }
}

// The first unused name of those with two, three and more underscores before `start`.
fn new_name(
    alloc: Global,
    grammar: &Grammar,
    start: &NonterminalString,
) -> Result<NonterminalString, OutOfMemory>
    ensures { IfOk result (IsNewName grammar.now start.now) }
{
    let one = underscored(alloc, start)?;
    let mut name = underscored(alloc, &one)?;
    while !is_unused(grammar, &name) {
        name = underscored(alloc, &name)?;
    }
    Ok(name)
}

// A name with an underscore before it.
fn underscored(alloc: Global, name: &NonterminalString) -> Result<NonterminalString, OutOfMemory>
    ensures { IfOk result (λ made. made ≡ underscored 1 name.now) }
{
    let text = format!(in alloc; "_{name}")?;
    Ok(NonterminalString {
        text: Text::new(alloc, text.as_str())?,
    })
}

// Whether a name has no entry and is on no right side.
fn is_unused(grammar: &Grammar, name: &NonterminalString) -> bool
    ensures { IsTrue result ↔ IsUnused grammar.now name.now }
{
    match grammar.nonterminals.get(name) {
        Some(_) => false,
        None => is_on_no_right_side(grammar, name),
    }
}

/// Whether a name is on no right side of a grammar. All right sides are read.
pub fn is_on_no_right_side(grammar: &Grammar, name: &NonterminalString) -> bool
    ensures { IsTrue result ↔ IsOnNoRightSide (productions grammar.now) name.now }
{
    for (_name, entry) in grammar.nonterminals.iter() {
        if !is_in_no_production(&entry.productions, name) {
            return false;
        }
    }
    true
}

// Whether a name is on no right side of some productions.
fn is_in_no_production(productions: &[Production], name: &NonterminalString) -> bool
    ensures { IsTrue result ↔ IsOnNoRightSide productions.now name.now }
{
    for production in productions {
        if names(production.symbols.as_slice(), name) {
            return false;
        }
    }
    true
}

// Whether a name is among symbols.
fn names(symbols: &[Symbol], name: &NonterminalString) -> bool
    ensures { IsTrue result ↔ Contains symbols.now (Nonterminal name.now) }
{
    for symbol in symbols {
        if let Symbol::Nonterminal(other) = symbol
            && equal(other, name)
        {
            return true;
        }
    }
    false
}

// A list of one symbol.
fn only(alloc: Global, symbol: Symbol) -> Result<Symbols, OutOfMemory>
    ensures { IfOk result (λ symbols. symbols ≡ symbol ∷ []) }
{
    let mut symbols = Sequence::new(alloc);
    symbols.push(symbol)?;
    Ok(symbols)
}

// The entry with one production, without attributes.
fn entry_of(alloc: Global, production: Production) -> Result<NonterminalData, OutOfMemory>
    ensures { IfOk result (IsEntryOf production) }
{
    let span = production.span;
    let mut productions = Vec::new(alloc);
    productions.push(production)?;
    Ok(NonterminalData {
        productions,
        attributes: Vec::new(alloc),
        span,
    })
}

// A user's action that cannot fail, with the return type `()`.
fn start_action(alloc: Global) -> Result<ActionFnDefn, OutOfMemory>
    ensures { IfOk result (λ action. action ≡ start_action) }
{
    Ok(ActionFnDefn {
        fallible: false,
        ret_type: Text::new(alloc, "()")?,
        kind: ActionFnDefnKind::User,
    })
}

// The grammar with one more entry, and with the action of a new start symbol as the last action.
fn with_entry(
    alloc: Global,
    grammar: Grammar,
    name: NonterminalString,
    entry: NonterminalData,
) -> Result<Grammar, OutOfMemory>
    ensures entries { IfOk result (λ h. h.nonterminals.entries ≡ insert_entry name_cmp
        grammar.nonterminals.entries name entry) }
    ensures terminals { IfOk result (λ h. h.terminals ≡ grammar.terminals) }
    ensures actions { IfOk result
        (λ h. h.action_fn_defns.items ≡ grammar.action_fn_defns.items ++ start_action ∷ []) }
    ensures algorithm { IfOk result (λ h. h.algorithm ≡ grammar.algorithm) }
{
    let Grammar {
        mut nonterminals,
        terminals,
        mut action_fn_defns,
        algorithm,
    } = grammar;
    nonterminals.insert(name, entry)?;
    action_fn_defns.push(start_action(alloc)?)?;
    Ok(Grammar {
        nonterminals,
        terminals,
        action_fn_defns,
        algorithm,
    })
}
