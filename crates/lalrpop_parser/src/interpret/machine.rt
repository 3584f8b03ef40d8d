//! A run of the parser.
ghost use Rattle.std.specs.Prelude.{◌≡◌, ◌+◌, ◌<◌, ◌≤◌, ℕ, suc, List, [], ◌∷◌, ◌++◌, length, drop, slice_get, Some, cond, OnOk, IfOk, IfErr, IfSome, IsNone};
ghost use Rattle.lalrpop_base.specs.Words.{AreCoherent, contents_in, received, reduced, Goes, Ends, HasOutcome, IsTerminal, Tree, Leaf};
ghost use Rattle.lalrpop_grammar.specs.declared.repr.TerminalString.{TerminalString};
ghost use Rattle.lalrpop_grammar.specs.declared.lookahead.token.Token.{Token};
ghost use Rattle.lalrpop_parser.specs.runs.Answers.{ReportsOutcome, IsFailure};
ghost use Rattle.lalrpop_parser.specs.runs.Machines.{numbers, trees_on, configuration, CanPop, IsInitialMachine, IsStacked, IsProgress, IsHalted, IsSpent, IsShifted, HasRead, shift_on};
ghost use Rattle.lalrpop_parser.specs.trees.ParseTrees.{tree_of};
ghost use Rattle.lalrpop_parser.specs.runs.Reading.{StopsReading};
ghost use Rattle.lalrpop_parser.specs.runs.Steps.{HasOutcomeFrom};

use super::error::InterpretError;
use super::lookahead::LookaheadInterpret;
use super::tree::ParseTree;
use lalrpop_base::lookahead::token::Token;
use lalrpop_base::lr1_core::state::{State, StateIndex};
use lalrpop_base::memory::OutOfMemory;
use lalrpop_base::repr::terminals::TerminalSet;
use lalrpop_base::repr::{Production, TerminalString};
use std::alloc::Global;

/// The state on top of the stack, the states below it, the trees over them, and how many steps are
/// left. Both lists have the newest last.
#[derive(Drop)]
pub(crate) struct Machine {
    state: StateIndex,
    below: Vec<StateIndex>,
    trees: Vec<ParseTree>,
    left: usize,
}

/// What became of an attempt to reduce. `Stuck` means that there is no reduction. After a reduction
/// `GoesOn` means that there is a goto, and `Ended` that there is none.
#[derive(Clone, Copy)]
pub(crate) enum Progress {
    Stuck,
    GoesOn,
    Ended,
}

impl Machine {
    pub(crate) fn new(alloc: Global, limit: usize) -> Machine
        ensures start { IsInitialMachine result }
        ensures left { result.left ≡ limit }
    {
        Machine {
            state: StateIndex(0),
            below: Vec::new(alloc),
            trees: Vec::new(alloc),
            left: limit,
        }
    }

    /// All states of the stack, the newest last.
    pub(crate) fn into_stack(self) -> Result<Vec<StateIndex>, OutOfMemory>
        ensures { IfOk result (λ stack. stack.items ≡ self.below.items ++ self.state ∷ []) }
    {
        let mut stack = self.below;
        stack.push(self.state)?;
        Ok(stack)
    }

    // The state on top.
    fn top<'a, 'grammar, L>(&self, states: &'a [State<'grammar, L>]) -> &'a State<'grammar, L>
        requires { self.now.state.0 < length states.now }
        ensures { slice_get states.now self.now.state.0 ≡ Some result.now }
    {
        &states[self.state.0]
    }

    // Replaces the newest trees by a node of the nonterminal over them, and pops their states. The
    // result is the state that is then on top.
    fn gather(&mut self, alloc: Global, production: &Production) -> Result<StateIndex, OutOfMemory>
        requires trees { length production.now.symbols ≤ length self.old.trees.items }
        requires states { length production.now.symbols ≤ length self.old.below.items }
        ensures gathered { OnOk result (trees_on self.new.trees.items ≡ reduced production.now
            (trees_on self.old.trees.items)) }
        ensures popped { OnOk result (numbers self.new.below.items ≡ drop
            (length production.now.symbols) (self.old.state.0 ∷ numbers self.old.below.items)) }
        ensures top { IfOk result
            (λ top. (under : List ℕ) × (numbers self.new.below.items ≡ top.0 ∷ under)) }
        ensures from { IfOk result (λ top. (k : ℕ) ×
            (slice_get (self.old.below.items ++ self.old.state ∷ []) k ≡ Some top)) }
        ensures left { self.new.left ≡ self.old.left }
    {
        let count = production.symbols.len();
        let children = self.trees.split_off(self.trees.len() - count)?;
        let name = production.nonterminal.clone(alloc)?;
        self.trees.push(ParseTree::Nonterminal(name, children))?;
        self.below.push(self.state)?;
        self.below.truncate(self.below.len() - count);
        Ok(self.below[self.below.len() - 1])
    }

    // Reduces by a production. The result is whether the state that is then on top has a goto,
    // which is taken.
    fn reduce<'grammar, L: LookaheadInterpret>(
        &mut self,
        alloc: Global,
        states: &[State<'grammar, L>],
        production: &Production,
    ) -> Result<bool, OutOfMemory>
        requires { CanPop (length states.now) self.old (length production.now.symbols) }
        ensures made { IfOk result (λ goes_on.
            (terminals : List TerminalString) (rest : List TerminalString) →
            received (contents_in (L.holds terminals) states.now) production.now
            (drop (length production.now.symbols) (self.old.state.0 ∷ numbers self.old.below.items))
            (reduced production.now (trees_on self.old.trees.items)) rest ≡ cond goes_on
            (Goes (configuration self.new rest)) (Ends (trees_on self.new.trees.items))) }
        ensures left { self.new.left ≡ self.old.left }
    {
        let receiving = self.gather(alloc, production)?;
        match states[receiving.0].gotos.get(&production.nonterminal) {
            Some(target) => {
                self.state = *target;
                Ok(true)
            }
            None => Ok(false),
        }
    }

    // Makes the reduction that the top state has on a token, if it has one.
    fn reduce_on<'a, 'grammar, L: LookaheadInterpret>(
        &mut self,
        alloc: Global,
        states: &'a [State<'grammar, L>],
        terminals: &TerminalSet,
        token: &Token,
    ) -> Result<Progress, InterpretError<'a, 'grammar, L>>
        requires coherent { AreCoherent states.now }
        requires some { 0 < length states.now }
        requires stacked { IsStacked (contents_in (L.holds terminals.now) states.now) self.old }
        ensures made { IfOk result (λ progress. (rest : List TerminalString) →
            IsProgress (contents_in (L.holds terminals.now) states.now) self.old token.now rest
            self.new progress) }
        ensures halted { IfErr result (λ e. (rest : List TerminalString) →
            IsHalted (contents_in (L.holds terminals.now) states.now) self.old token.now rest e) }
    {
        match L::reduction(self.top(states), token, terminals) {
            Some(production) => {
                if self.left == 0 {
                    return Err(InterpretError::Limit);
                }
                self.left -= 1;
                if self.reduce(alloc, states, production)? {
                    Ok(Progress::GoesOn)
                } else {
                    Ok(Progress::Ended)
                }
            }
            None => Ok(Progress::Stuck),
        }
    }

    // Pushes a terminal and the state to which it leads. The error is `Limit` if no step is left.
    fn push<'a, 'grammar, L>(
        &mut self,
        target: StateIndex,
        terminal: TerminalString,
    ) -> Result<(), InterpretError<'a, 'grammar, L>>
        ensures made { OnOk result (IsShifted self.old target.0 terminal self.new) }
        ensures spent { IfErr result (IsSpent self.old) }
    {
        if self.left == 0 {
            return Err(InterpretError::Limit);
        }
        self.left -= 1;
        self.trees.push(ParseTree::Terminal(terminal))?;
        self.below.push(self.state)?;
        self.state = target;
        Ok(())
    }

    // Reduces on a terminal until it can be shifted, and shifts it.
    fn shift<'a, 'grammar, L: LookaheadInterpret>(
        &mut self,
        alloc: Global,
        states: &'a [State<'grammar, L>],
        terminals: &TerminalSet,
        terminal: TerminalString,
    ) -> Result<(), InterpretError<'a, 'grammar, L>>
        requires coherent { AreCoherent states.now }
        requires some { 0 < length states.now }
        requires stacked { IsStacked (contents_in (L.holds terminals.now) states.now) self.old }
        ensures shifted { OnOk result ((rest : List TerminalString) →
            HasRead (contents_in (L.holds terminals.now) states.now)
            (configuration self.old (terminal ∷ rest)) self.old.left self.new rest) }
        ensures stopped { IfErr result (λ e. (rest : List TerminalString) →
            IsFailure (StopsReading (contents_in (L.holds terminals.now) states.now)
            (configuration self.old (terminal ∷ rest)) self.old.left) states.now e) }
    {
        let token = Token::Terminal(terminal);
        'reducing: loop {
            let state = self.top(states);
            if let Some(target) = shift_target(state, &token) {
                return self.push(target, into_terminal(token));
            }
            match self.reduce_on(alloc, states, terminals, &token)? {
                Progress::GoesOn => {}
                Progress::Stuck | Progress::Ended => {
                    return Err(InterpretError::Refused(state, token));
                }
            }
        }
    }

    /// Shifts all terminals, and then reduces on `Eof` until the parse ends.
    pub(crate) fn run<'a, 'grammar, L: LookaheadInterpret>(
        mut self,
        alloc: Global,
        states: &'a [State<'grammar, L>],
        terminals: &TerminalSet,
        tokens: Vec<TerminalString>,
    ) -> Result<ParseTree, InterpretError<'a, 'grammar, L>>
        requires coherent { AreCoherent states.now }
        requires some { 0 < length states.now }
        requires start { IsInitialMachine self }
        ensures { ReportsOutcome
            (HasOutcome (contents_in (L.holds terminals.now) states.now) tokens.items self.left)
            states.now result }
    {
        self.shift_all(alloc, states, terminals, tokens)?;
        self.finish(alloc, states, terminals)
    }

    /// Shifts all terminals in turn.
    pub(crate) fn shift_all<'a, 'grammar, L: LookaheadInterpret>(
        &mut self,
        alloc: Global,
        states: &'a [State<'grammar, L>],
        terminals: &TerminalSet,
        tokens: Vec<TerminalString>,
    ) -> Result<(), InterpretError<'a, 'grammar, L>>
        requires coherent { AreCoherent states.now }
        requires some { 0 < length states.now }
        requires stacked { IsStacked (contents_in (L.holds terminals.now) states.now) self.old }
        ensures shifted { OnOk result (HasRead (contents_in (L.holds terminals.now) states.now)
            (configuration self.old tokens.items) self.old.left self.new []) }
        ensures stopped { IfErr result (λ e. IsFailure (StopsReading
            (contents_in (L.holds terminals.now) states.now) (configuration self.old tokens.items)
            self.old.left) states.now e) }
    {
        for terminal in tokens {
            self.shift(alloc, states, terminals, terminal)?;
        }
        Ok(())
    }

    /// Reduces on `Eof` until the parse ends.
    pub(crate) fn finish<'a, 'grammar, L: LookaheadInterpret>(
        mut self,
        alloc: Global,
        states: &'a [State<'grammar, L>],
        terminals: &TerminalSet,
    ) -> Result<ParseTree, InterpretError<'a, 'grammar, L>>
        requires coherent { AreCoherent states.now }
        requires some { 0 < length states.now }
        requires stacked { IsStacked (contents_in (L.holds terminals.now) states.now) self }
        ensures { ReportsOutcome (HasOutcomeFrom (contents_in (L.holds terminals.now) states.now)
            (configuration self []) self.left) states.now result }
    {
        'reducing: loop {
            let state = self.top(states);
            match self.reduce_on(alloc, states, terminals, &Token::Eof)? {
                Progress::GoesOn => {}
                Progress::Stuck => return Err(InterpretError::Refused(state, Token::Eof)),
                Progress::Ended => {
                    let tree = only_tree(self.trees);
                    return tree.ok_or(InterpretError::Refused(state, Token::Eof));
                }
            }
        }
    }
}

// The state to which a state leads by a shift of the token, if it has one.
fn shift_target<'grammar, L>(state: &State<'grammar, L>, token: &Token) -> Option<StateIndex>
    ensures { result ≡ shift_on state.now token.now }
{
    match token {
        Token::Terminal(terminal) => state.shifts.get(terminal).copied(),
        Token::Eof => None,
        Token::Error => None,
    }
}

// The terminal of a token that is one.
fn into_terminal(token: Token) -> TerminalString
    requires { IsTerminal token }
    ensures { token ≡ Token.Terminal result }
{
    match token {
        Token::Terminal(terminal) => terminal,
        Token::Eof => unreachable!(),
        Token::Error => unreachable!(),
    }
}

// The tree of a list that has exactly one.
fn only_tree(mut trees: Vec<ParseTree>) -> Option<ParseTree>
    ensures one { IfSome result (λ tree. trees_on trees.items ≡ tree_of tree ∷ []) }
    ensures other { IsNone result → (t : Tree) → trees_on trees.items ≡ t ∷ [] → ⊥ }
{
    let tree = trees.pop();
    if trees.is_empty() { tree } else { None }
}
