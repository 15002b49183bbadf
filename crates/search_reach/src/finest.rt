// How narrow the boxes are that a search leaves open, on functions that do nothing.
ghost use Rattle.search_reach.specs.Finest.{LeftBoxesAreFinest};
ghost use Rattle.search_reach.specs.SharedFlow.{SharedFlow};

/// Where a search halts for want of a finer grid, each variable is at most one sixteenth of a unit wide in each box that it
/// leaves open.
pub fn left_boxes_are_finest()
    ensures { LeftBoxesAreFinest }
{}

/// Why such a box may have to stay open: two equal pipes share a flow of 1, one half each. The box that holds this point
/// alone has no wide variable, and the point meets all laws, so that no tree refutes it; and no whole numbers do.
pub fn shared_flow()
    ensures { SharedFlow }
{}
