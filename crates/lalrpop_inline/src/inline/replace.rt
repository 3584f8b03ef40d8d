//! Replaces the occurrences of a nonterminal by its alternatives.
ghost use Rattle.std.specs.Prelude.{◌≡◌, ◌+◌, ◌++◌, ◌∷◌, [], IfOk, OnOk, IfErr, length, slice_get};
ghost use Rattle.std.specs.List.{list_any};
ghost use Rattle.lalrpop_inline.specs.inlining.InlineSteps.{is_fallible, is_fallible_part, ret_type_of, choice_defn, choice_production, made_of, in_front, chosen, replaced, replaced_all};
ghost use Rattle.lalrpop_inline.specs.inlining.InlineRefusals.{IsPastLast};

use super::choices::{choices, laid_out, mentions};
use lalrpop_base::memory::OutOfMemory;
use lalrpop_base::repr::grammar::{ActionFnDefn, ActionFnDefnKind};
use lalrpop_base::repr::inlined::{InlineActionFnDefn, InlinedSymbol};
use lalrpop_base::repr::norm_error::{NormError, NormResult};
use lalrpop_base::repr::{ActionFn, NonterminalString, Production};
use lalrpop_base::sequence::Sequence;
use lalrpop_base::text::Text;
use std::alloc::Global;

// Whether an action can fail.
fn is_fallible(defns: &[ActionFnDefn], action: ActionFn) -> bool
    ensures { result ≡ is_fallible defns.now action }
{
    match defns.get(action.index()) {
        Some(defn) => defn.fallible,
        None => false,
    }
}

// Whether a part can fail. An inlined alternative can if its action can.
fn is_fallible_part(defns: &[ActionFnDefn], part: &InlinedSymbol) -> bool
    ensures { result ≡ is_fallible_part defns.now part.now }
{
    match part {
        InlinedSymbol::Original(_) => false,
        InlinedSymbol::Inlined(action, _) => is_fallible(defns, *action),
    }
}

// Whether one of the parts can fail.
fn any_fallible(defns: &[ActionFnDefn], parts: &[InlinedSymbol]) -> bool
    ensures { result ≡ list_any (is_fallible_part defns.now) parts.now }
{
    parts.iter().any(|part| is_fallible_part(defns, part))
}

// The return type of an action, or an empty text if the action has no definition.
fn ret_type_of(alloc: Global, defns: &[ActionFnDefn], action: ActionFn) -> Result<Text, OutOfMemory>
    ensures { IfOk result (λ text. text ≡ ret_type_of (slice_get defns.now action.0)) }
{
    match defns.get(action.index()) {
        Some(defn) => defn.ret_type.clone(alloc),
        None => Text::new(alloc, ""),
    }
}

// The definition of the action of a choice. It can fail if the outer action or that of a part can.
fn choice_defn(
    alloc: Global,
    defns: &[ActionFnDefn],
    outer: ActionFn,
    parts: Sequence<InlinedSymbol>,
) -> Result<ActionFnDefn, OutOfMemory>
    ensures { IfOk result (λ defn. defn ≡ choice_defn defns.now outer parts) }
{
    let fallible = is_fallible(defns, outer) || any_fallible(defns, parts.as_slice());
    let ret_type = ret_type_of(alloc, defns, outer)?;
    let defn = InlineActionFnDefn {
        action: outer,
        symbols: parts,
    };
    Ok(ActionFnDefn {
        fallible,
        ret_type,
        kind: ActionFnDefnKind::Inline(defn),
    })
}

// The action with the number `count`. The error is `TooManyActions` if that is above 4294967295.
fn action_after(count: usize) -> NormResult<ActionFn>
    ensures ok { IfOk result (λ action. action.0 ≡ count) }
    ensures err { IfErr result (λ e. IsPastLast (count + 1) e) }
{
    match u32::try_from(count) {
        Ok(number) => Ok(ActionFn::new(number)),
        Err(_) => Err(NormError::TooManyActions),
    }
}

// The production of a choice. Its action is new, and has its definition added to the list.
fn add_choice(
    alloc: Global,
    outer: &Production,
    parts: Sequence<InlinedSymbol>,
    defns: &mut Vec<ActionFnDefn>,
) -> NormResult<Production>
    ensures ok { IfOk result (λ p. p ≡ choice_production (length defns.old.items) outer.now parts) }
    ensures defined { OnOk result (defns.new.items ≡ defns.old.items ++ choice_defn defns.old.items
        outer.now.action parts ∷ []) }
    ensures err { IfErr result (λ e. IsPastLast (length defns.old.items + 1) e) }
{
    let action = action_after(defns.len())?;
    let symbols = laid_out(alloc, parts.as_slice())?;
    let defn = choice_defn(alloc, defns, outer.action, parts)?;
    defns.push(defn)?;
    Ok(Production {
        nonterminal: outer.nonterminal.clone(alloc)?,
        symbols,
        action,
        span: outer.span,
    })
}

// Adds a production for each choice, and the definition of its action.
fn add_choices(
    alloc: Global,
    outer: &Production,
    choices: Vec<Sequence<InlinedSymbol>>,
    made: &mut Vec<Production>,
    defns: &mut Vec<ActionFnDefn>,
) -> NormResult<()>
    ensures ok { OnOk result (made_of made.new.items defns.new.items ≡ in_front made.old.items
        (chosen outer.now choices.items defns.old.items)) }
    ensures err { IfErr result
        (λ e. IsPastLast (length (chosen outer.now choices.items defns.old.items).defns) e) }
{
    for parts in choices {
        made.push(add_choice(alloc, outer, parts, defns)?)?;
    }
    Ok(())
}

// Adds the productions that replace a production: itself if it does not mention the nonterminal,
// else one for each choice.
fn replace(
    alloc: Global,
    name: &NonterminalString,
    alternatives: &[Production],
    production: Production,
    made: &mut Vec<Production>,
    defns: &mut Vec<ActionFnDefn>,
) -> NormResult<()>
    ensures ok { OnOk result (made_of made.new.items defns.new.items ≡ in_front made.old.items
        (replaced name.now alternatives.now production defns.old.items)) }
    ensures err { IfErr result (λ e. IsPastLast
        (length (replaced name.now alternatives.now production defns.old.items).defns) e) }
{
    if mentions(name, production.symbols.as_slice()) {
        let all = choices(alloc, name, alternatives, production.symbols.as_slice())?;
        add_choices(alloc, &production, all, made, defns)
    } else {
        made.push(production)?;
        Ok(())
    }
}

/// The productions that replace the given ones if a nonterminal with these alternatives is inlined.
/// The definitions of their new actions are added to the list. The error is `TooManyActions` if an
/// action would have a number above 4294967295, or `Memory` if an allocation fails.
pub fn replace_all(
    alloc: Global,
    name: &NonterminalString,
    alternatives: &[Production],
    productions: Vec<Production>,
    defns: &mut Vec<ActionFnDefn>,
) -> NormResult<Vec<Production>>
    ensures ok { IfOk result (λ made. made_of made.items defns.new.items ≡ replaced_all name.now
        alternatives.now productions.items defns.old.items) }
    ensures err { IfErr result (λ e. IsPastLast
        (length (replaced_all name.now alternatives.now productions.items defns.old.items).defns)
        e) }
{
    let mut made = Vec::new(alloc);
    for production in productions {
        replace(alloc, name, alternatives, production, &mut made, defns)?;
    }
    Ok(made)
}
