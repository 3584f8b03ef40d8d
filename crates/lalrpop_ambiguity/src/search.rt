//! The search for witnesses of ambiguity.
mod frames;
mod links;
mod missing;
mod moves;
mod pending;
mod replay;

ghost use Rattle.std.specs.Prelude.{◌≡◌, IfOk, IfSome};
ghost use Rattle.lalrpop_grammar.specs.grammars.WellFormed.{IsWellFormed, productions};
ghost use Rattle.lalrpop_ambiguity.specs.derivations.Represented.{tree_of};
ghost use Rattle.lalrpop_ambiguity.specs.witnesses.Witnesses.{IsWitness};
ghost use Rattle.lalrpop_ambiguity.specs.witnesses.Searches.{AreCommonMoves, IfFound};

use crate::witness::{Ambiguity, is_witness};
use frames::{Frame, Shape, is_whole};
use lalrpop_base::exact::equal;
use lalrpop_base::first::FirstSets;
use lalrpop_base::lr1_core::state::{Action, Conflict, State};
use lalrpop_base::memory::OutOfMemory;
use lalrpop_base::repr::grammar::Grammar;
use lalrpop_base::repr::{Production, Symbol, TerminalString};
use links::links_of;
use moves::{Ground, Taken, add_moves, missing_cost};
use pending::{Pending, Step, Waiting};
use replay::replayed;
use std::alloc::Global;
use std::collections::BTreeSet;

/// The result of a search: a witness, or the reason why there is none. The search was exhausted, or
/// it was cut, since its steps or its memory were used up.
#[derive(Debug, Drop)]
pub enum Search<'grammar> {
    Found(Ambiguity<'grammar>),
    Exhausted,
    Cut,
}

impl<'grammar> Search<'grammar> {
    /// The number of moves that both derivations of a witness have in common, or 0 if there is no
    /// witness. The error is `OutOfMemory` if an allocation fails.
    pub fn common_moves(&self, alloc: Global) -> Result<usize, OutOfMemory>
        ensures common { IfOk result (λ count. AreCommonMoves count self.now) }
    {
        match self {
            Search::Found(found) => found.common_moves(alloc),
            Search::Exhausted => Ok(0),
            Search::Cut => Ok(0),
        }
    }
}

/// Searches witnesses of ambiguity for the conflicts of states.
#[derive(Drop)]
pub struct AmbiguityFinder<'a, 'grammar, L> {
    ground: Ground<'a, 'grammar, L>,
}

impl<'a, 'grammar, L> AmbiguityFinder<'a, 'grammar, L> {
    /// A finder for all conflicts of the states of a grammar. The error is `OutOfMemory` if an
    /// allocation fails.
    pub fn new(
        alloc: Global,
        grammar: &'grammar Grammar,
        states: &'a [State<'grammar, L>],
    ) -> Result<Self, OutOfMemory>
        requires { IsWellFormed grammar.now }
        ensures grammar { IfOk result (λ finder. finder.ground.grammar.now ≡ grammar.now) }
    {
        let first_sets = FirstSets::new(alloc, grammar)?;
        let links = links_of(alloc, states)?;
        Ok(AmbiguityFinder {
            ground: Ground {
                grammar,
                first_sets,
                states,
                links,
            },
        })
    }

    /// Searches a witness of ambiguity for a conflict of the states: two derivations from one
    /// nonterminal that have the same symbols before the conflict, and then take its two actions.
    /// The cheapest is returned first. Each symbol costs 1, and each production around or within a
    /// derivation 50. A step tries one pair of derivations. Pairs of 2,000,000 productions are kept.
    /// Once there are more, others are left out. The error is `OutOfMemory` if an allocation fails.
    pub fn find(
        &self,
        alloc: Global,
        conflict: &Conflict<'grammar, L>,
        steps: usize,
    ) -> Result<Search<'grammar>, OutOfMemory>
        requires { IsWellFormed self.now.ground.grammar.now }
        ensures witness { IfOk result (IfFound (λ found. IsWitness
            (productions self.now.ground.grammar.now) (tree_of found.left) (tree_of found.right))) }
    {
        let mut waiting = Waiting::new(alloc);
        begin(alloc, &self.ground, conflict, &mut waiting)?;
        let mut tried = Tried::new(alloc);
        for _ in 0..steps {
            let Some(pending) = waiting.take() else {
                break;
            };
            if let Some(found) = tried.try_one(alloc, &self.ground, pending, &mut waiting)? {
                return Ok(Search::Found(found));
            }
        }
        if waiting.is_exhausted() {
            return Ok(Search::Exhausted);
        }
        Ok(Search::Cut)
    }
}

/// Searches a witness of ambiguity for one conflict of the states of a grammar, as
/// `AmbiguityFinder::find` does. The error is `OutOfMemory` if an allocation fails.
pub fn find_ambiguity<'grammar, L>(
    alloc: Global,
    grammar: &'grammar Grammar,
    states: &[State<'grammar, L>],
    conflict: &Conflict<'grammar, L>,
    steps: usize,
) -> Result<Search<'grammar>, OutOfMemory>
    requires { IsWellFormed grammar.now }
    ensures witness { IfOk result (IfFound (λ found.
        IsWitness (productions grammar.now) (tree_of found.left) (tree_of found.right))) }
{
    let finder = AmbiguityFinder::new(alloc, grammar, states)?;
    finder.find(alloc, conflict, steps)
}

// Adds the shapes in which the search begins. On the left is the reduction of the conflict. On the
// right is its other action: a reduction, or an item of the state that shifts the terminal.
fn begin<'grammar, L>(
    alloc: Global,
    ground: &Ground<'_, 'grammar, L>,
    conflict: &Conflict<'grammar, L>,
    waiting: &mut Waiting<'grammar>,
) -> Result<(), OutOfMemory> {
    let state = conflict.state.0;
    let left = finished(conflict.production);
    match &conflict.action {
        Action::Reduce(production) => {
            begin_at(alloc, ground, state, left, finished(*production), waiting)
        }
        Action::Shift(terminal, _target) => {
            begin_at_shifts(alloc, ground, state, left, terminal, waiting)
        }
    }
}

fn begin_at_shifts<'grammar, L>(
    alloc: Global,
    ground: &Ground<'_, 'grammar, L>,
    state: usize,
    left: Frame<'grammar>,
    terminal: &TerminalString,
    waiting: &mut Waiting<'grammar>,
) -> Result<(), OutOfMemory> {
    let Some(entered) = ground.states.get(state) else {
        return Ok(());
    };
    for item in &entered.items.vec {
        let right = Frame::at(item.production, item.index);
        if is_terminal(right.after(), terminal) {
            begin_at(alloc, ground, state, left, right, waiting)?;
        }
    }
    Ok(())
}

fn begin_at<'grammar, L>(
    alloc: Global,
    ground: &Ground<'_, 'grammar, L>,
    state: usize,
    left: Frame<'grammar>,
    right: Frame<'grammar>,
    waiting: &mut Waiting<'grammar>,
) -> Result<(), OutOfMemory> {
    let step = Step::Begin(left.production, left.to, right.production, right.to);
    let shape = Shape {
        state,
        left: Vec::from_slice(alloc, &[left])?,
        right: Vec::from_slice(alloc, &[right])?,
    };
    let missing = missing_cost(&ground.first_sets, &shape);
    waiting.add(Pending {
        shape,
        step,
        previous: 0,
        cost: 0,
        missing,
    })
}

// The end of a production.
fn finished<'grammar>(production: &'grammar Production) -> Frame<'grammar> {
    Frame::at(production, production.symbols.len())
}

fn is_terminal(symbol: Option<&Symbol>, terminal: &TerminalString) -> bool {
    match symbol {
        Some(Symbol::Terminal(other)) => equal(other, terminal),
        _ => false,
    }
}

// A step that was made, and the number of the step before it.
#[derive(Drop)]
struct Made<'grammar> {
    step: Step<'grammar>,
    previous: usize,
}

// The shapes that a search has tried, and the steps that it has made.
#[derive(Drop)]
struct Tried<'grammar> {
    steps: Vec<Made<'grammar>>,
    shapes: BTreeSet<Shape<'grammar>>,
}

impl<'grammar> Tried<'grammar> {
    fn new(alloc: Global) -> Self {
        Tried {
            steps: Vec::new(alloc),
            shapes: BTreeSet::new(alloc),
        }
    }

    // Tries a shape, unless it was tried before. A witness is returned. If it is none, the shapes to
    // which it leads are added to those that wait.
    fn try_one<L>(
        &mut self,
        alloc: Global,
        ground: &Ground<'_, 'grammar, L>,
        pending: Pending<'grammar>,
        waiting: &mut Waiting<'grammar>,
    ) -> Result<Option<Ambiguity<'grammar>>, OutOfMemory>
        requires { IsWellFormed ground.now.grammar.now }
        ensures { IfOk result (λ answer. IfSome answer (λ found. IsWitness
            (productions ground.now.grammar.now) (tree_of found.left) (tree_of found.right))) }
    {
        if self.shapes.contains(&pending.shape) {
            return Ok(None);
        }
        let Pending {
            shape,
            step,
            previous,
            cost,
            missing: _,
        } = pending;
        let number = self.steps.len();
        self.steps.push(Made { step, previous })?;
        if is_whole(&shape)
            && let Some(found) = self.witness(alloc, ground.grammar, number)?
        {
            return Ok(Some(found));
        }
        let taken = Taken {
            shape,
            cost,
            number,
        };
        add_moves(alloc, ground, &taken, waiting)?;
        let _is_new = self.shapes.insert(taken.shape)?;
        Ok(None)
    }

    // The derivations that the steps up to a number make, if they are a witness.
    fn witness(
        &self,
        alloc: Global,
        grammar: &Grammar,
        number: usize,
    ) -> Result<Option<Ambiguity<'grammar>>, OutOfMemory>
        requires { IsWellFormed grammar.now }
        ensures { IfOk result (λ answer. IfSome answer (λ found. IsWitness
            (productions grammar.now) (tree_of found.left) (tree_of found.right))) }
    {
        let steps = self.steps_to(alloc, number)?;
        let Some(found) = replayed(alloc, &steps)? else {
            return Ok(None);
        };
        if !is_witness(alloc, grammar, &found.left, &found.right)? {
            return Ok(None);
        }
        Ok(Some(found))
    }

    // The steps that lead to the one with a number, with that one.
    fn steps_to(&self, alloc: Global, number: usize) -> Result<Vec<Step<'grammar>>, OutOfMemory> {
        let mut steps = Vec::new(alloc);
        let mut next = number;
        for _ in 0..self.steps.len() {
            let Some(made) = self.steps.get(next) else {
                break;
            };
            steps.push(made.step)?;
            if matches!(made.step, Step::Begin(..)) {
                break;
            }
            next = made.previous;
        }
        steps.reverse();
        Ok(steps)
    }
}
