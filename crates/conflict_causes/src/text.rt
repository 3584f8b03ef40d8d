//! The causes of conflicts, as a text for people.
mod examples;
mod lines;
pub mod one_line;

ghost use Rattle.std.specs.Prelude.{◌≡◌, ◌<◌, ℕ, IfOk, OnOk, Contains, Some, length, slice_get, string_bytes};
ghost use Rattle.lalrpop_grammar.specs.grammars.WellFormed.{IsWellFormed};
ghost use Rattle.conflict_causes.specs.CauseTexts.{AppendsCause, AppendsCauses, IsConflictsText};
ghost use Rattle.conflict_causes.specs.Causes.{AreCauses};
ghost use Rattle.conflict_causes.specs.ExampleTexts.{KnowsOwn};

use self::examples::{Examples, push_examples};
use self::lines::{push_heading, push_others, push_reduction, push_search, push_summary};
use crate::causes::key::items_of_action;
use crate::causes::{Cause, causes};
use lalrpop_ambiguity::search::AmbiguityFinder;
use lalrpop_base::first::FirstSets;
use lalrpop_base::lookahead::token_set::TokenSet;
use lalrpop_base::lr1_core::state::{Lr1Conflict, Lr1State};
use lalrpop_base::memory::OutOfMemory;
use lalrpop_base::repr::grammar::Grammar;
use lalrpop_explain::explain::{Explainer, are_own_states};
use std::alloc::Global;

// A grammar, its states and their conflicts, what finds witnesses and makes examples, and the bound
// of a search.
#[derive(Drop)]
struct Given<'a, 'grammar> {
    grammar: &'grammar Grammar,
    states: &'a [Lr1State<'grammar>],
    conflicts: &'a [Lr1Conflict<'grammar>],
    finder: &'a AmbiguityFinder<'a, 'grammar, TokenSet>,
    examples: &'a Examples<'a, 'grammar>,
    steps: usize,
    ghost finds: { finder.now.ground.grammar.now ≡ grammar.now },
    ghost of_grammar: { examples.now.grammar.now ≡ grammar.now },
    ghost of_states: { examples.now.explainer.now.context.states.now ≡ states.now },
}

/// The causes of conflicts as a text. Each has its tokens, its states, the items of both actions,
/// and a witness of ambiguity of its first conflict, if one is found in so many steps. If none is
/// found, it has an example of input for each action, if the states and the conflict are over the
/// productions of the grammar. The error is `OutOfMemory` if an allocation fails.
pub fn conflicts_text<'grammar>(
    alloc: Global,
    grammar: &'grammar Grammar,
    states: &[Lr1State<'grammar>],
    conflicts: &[Lr1Conflict<'grammar>],
    steps: usize,
) -> Result<String, OutOfMemory>
    requires { IsWellFormed grammar.now }
    ensures text { IfOk result (λ text.
        IsConflictsText grammar.now states.now conflicts.now steps (string_bytes text)) }
{
    let causes = causes(alloc, states, conflicts)?;
    let finder = AmbiguityFinder::new(alloc, grammar, states)?;
    let first_sets = FirstSets::new(alloc, grammar)?;
    let explainer = Explainer::new(alloc, &first_sets, states)?;
    let examples = Examples {
        grammar,
        explainer: &explainer,
        are_own: are_own_states(grammar, states),
    };
    let given = Given {
        grammar,
        states,
        conflicts,
        finder: &finder,
        examples: &examples,
        steps,
    };
    let mut text = String::new(alloc);
    push_summary(&mut text, conflicts.len(), causes.len())?;
    push_causes(alloc, &mut text, &given, &causes)?;
    Ok(text)
}

// Appends the paragraphs of causes, which are numbered from 1.
fn push_causes(
    alloc: Global,
    text: &mut String,
    given: &Given<'_, '_>,
    causes: &[Cause],
) -> Result<(), OutOfMemory>
    requires well_formed { IsWellFormed given.now.grammar.now }
    requires own { KnowsOwn given.now.examples.now.are_own given.now.examples.now.explainer.now }
    requires causes { AreCauses given.now.states.now given.now.conflicts.now causes.now }
    ensures { OnOk result
        (AppendsCauses given.now.grammar.now given.now.states.now given.now.conflicts.now
        given.now.steps causes.now (string_bytes text.old) (string_bytes text.new)) }
{
    for (place, cause) in causes.iter().enumerate() {
        push_cause(alloc, text, given, place + 1, cause)?;
    }
    Ok(())
}

// Appends the paragraph of a cause with a number.
fn push_cause(
    alloc: Global,
    text: &mut String,
    given: &Given<'_, '_>,
    number: usize,
    cause: &Cause,
) -> Result<(), OutOfMemory>
    requires well_formed { IsWellFormed given.now.grammar.now }
    requires own { KnowsOwn given.now.examples.now.are_own given.now.examples.now.explainer.now }
    requires some { 0 < length cause.now }
    requires within { (i : ℕ) → Contains cause.now i → i < length given.now.conflicts.now }
    ensures { OnOk result
        (AppendsCause given.now.grammar.now given.now.states.now given.now.conflicts.now
        given.now.steps number cause.now (string_bytes text.old) (string_bytes text.new)) }
{
    let numbers = cause.conflicts();
    let first = conflict_at(given.conflicts, numbers[0]);
    let tokens = cause.tokens(alloc, given.conflicts)?;
    let states = cause.states(alloc, given.conflicts)?;
    let items = items_of_action(alloc, given.states, first.state, &first.action)?;
    let search = given.finder.find(alloc, first, given.steps)?;
    let moves = search.common_moves(alloc)?;
    let terminals = &given.grammar.terminals;
    push_heading(text, number, &first.action, &tokens, terminals, &states)?;
    push_others(text, &first.action, &items)?;
    push_reduction(text, first.production)?;
    push_search(alloc, text, &search, given.steps, moves)?;
    push_examples(alloc, text, given.examples, first, &search)?;
    Ok(())
}

// The conflict with a number.
fn conflict_at<'a, 'grammar>(
    conflicts: &'a [Lr1Conflict<'grammar>],
    number: usize,
) -> &'a Lr1Conflict<'grammar>
    requires { number < length conflicts.now }
    ensures { slice_get conflicts.now number ≡ Some result.now }
{
    &conflicts[number]
}
