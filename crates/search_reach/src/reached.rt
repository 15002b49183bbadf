// How far a search reaches, on a function that does nothing.
ghost use Rattle.search_reach.specs.Reached.{HaltedSearchesReach};

/// Where a search of a problem within its limits halts, for whatever reason, on the way to each box each variable is
/// tightened at most 320 times, and halved at most m times, where it is at most 2^m wide at first. In the box that it
/// names each variable of the split list is as narrow as an equal share of the halvings leaves it. Widths count sixteenths
/// of a unit: at first they are at most 16 * 10^16. Where it stops for want of a finer grid, each variable is at most one
/// sixteenth wide in each box that is open. Where it stops for want of budget, the box that it names lies deeper than each
/// depth that the budget pays for, and the budget doesn't pay for all boxes that there can be.
pub fn halted_searches_reach()
    ensures { HaltedSearchesReach }
{}
