// How often a variable is tightened, on a function that does nothing.
ghost use Rattle.search_reach.specs.StepPaths.{FewWhereHalted, FewWhereRefuted, FewWhereWorked};

/// On the path from the root of a problem within its limits to each box of its search, no variable is tightened by more
/// than 320 steps: where the search halted, where it refuted the problem, and wherever it has worked its boxes in their
/// order.
pub fn steps_on_paths_are_few()
    ensures halted { FewWhereHalted }
    ensures refuted { FewWhereRefuted }
    ensures worked { FewWhereWorked }
{}
