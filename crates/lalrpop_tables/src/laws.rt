//! What the construction of states promises, with sets of tokens and without lookahead. Each
//! function does nothing, and its contract is the law.
ghost use Rattle.lalrpop_tables.specs.canonical.Laws.{SetTablesAreCanonical, SetErrorsAreCanonical};
ghost use Rattle.lalrpop_tables.specs.canonical.Laws.{NilTablesAreLr0, NilTablesAreFree, NilErrorsHaveLr0, NilErrorsStop, NilErrorsListConflicts};

/// States with sets of tokens, if Eof follows the start symbol.
pub fn states_with_sets()
    ensures tables { SetTablesAreCanonical }
    ensures errors { SetErrorsAreCanonical }
{}

/// States without lookahead.
pub fn states_without_lookahead()
    ensures tables { NilTablesAreLr0 }
    ensures free { NilTablesAreFree }
    ensures errors { NilErrorsHaveLr0 }
    ensures stopped { NilErrorsStop }
    ensures conflicts { NilErrorsListConflicts }
{}
