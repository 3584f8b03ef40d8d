//! Theorems on numbers of tables. The contract of each function states one, and the function does
//! nothing.
ghost use Rattle.table_numbers.specs.Laws.{FaithfulNumbers, OneTables, WholeNumbers};

/// Different tables have different numbers. So numbers have one meaning.
pub fn one_tables()
    ensures one { OneTables }
{}

/// Numbers of states that are faithful to a grammar are faithful to it, as the definitions of LR(1)
/// parsing say.
pub fn faithful_numbers()
    ensures faithful { FaithfulNumbers }
{}

/// Numbers of faithful states with their items are faithful with the items that they list.
pub fn whole_numbers()
    ensures whole { WholeNumbers }
{}
