//! Theorems on the nodes of a run. The contract of each function states them, and the function does
//! nothing.
ghost use Rattle.parse_nodes.specs.Laws.{ChildrenAreThere, NodesAreCounted, TerminalsAreSeen};
ghost use Rattle.parse_nodes.specs.Laws.{ParsesBuildTrees, StepsBuildTrees};
ghost use Rattle.parse_nodes.specs.Laws.{TreesAreThere, TreesAreUnique};

/// A builder that was empty has the nodes of the trees that a run has made.
pub fn builds_trees()
    ensures steps { StepsBuildTrees }
    ensures parse { ParsesBuildTrees }
{}

/// The nodes of trees say which are terminals and how many there are, and are those of no other
/// trees.
pub fn describes_trees()
    ensures terminals { TerminalsAreSeen }
    ensures count { NodesAreCounted }
    ensures unique { TreesAreUnique }
{}

/// The nodes of a tree have the trees of its children.
pub fn has_trees()
    ensures whole { TreesAreThere }
    ensures children { ChildrenAreThere }
{}
