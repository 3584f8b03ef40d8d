//! Theorems on the answers for tables by number. The contract of each function states one, and the
//! function does nothing.
ghost use Rattle.parse_call_laws.specs.Laws.{ActionsAreRight, GotosAreRight, ParsesAreRight, SidesAreRight};

/// The action that `action` writes is that of the state.
pub fn actions()
    ensures right { ActionsAreRight }
{}

/// The goto that `goto` writes is that of the state.
pub fn gotos()
    ensures right { GotosAreRight }
{}

/// The nonterminal and the length that `action` writes for a reduction are those of the production.
pub fn sides()
    ensures right { SidesAreRight }
{}

/// The answer of `parse` has the outcome of the run of the states.
pub fn parses()
    ensures right { ParsesAreRight }
{}
