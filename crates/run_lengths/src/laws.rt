//! Theorems on the lengths of runs. The contract of each function states them, and the function
//! does nothing.
ghost use Rattle.run_lengths.specs.Laws.{EndlessRunsExist, FaithfulRunsEnd, ProductiveRunsEnd};

/// Each run over faithful states ends, whatever the list of terminals is. The premise is that each
/// reachable nonterminal is nullable, or has a terminal in FIRST. A productive one does.
pub fn faithful_runs()
    ensures ends { FaithfulRunsEnd }
    ensures productive { ProductiveRunsEnd }
{}

/// Without that premise there are faithful states whose runs never end.
pub fn endless_runs()
    ensures { EndlessRunsExist }
{}
