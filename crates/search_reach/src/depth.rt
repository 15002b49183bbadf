// How deep a search reaches, on a function that does nothing.
ghost use Rattle.search_reach.specs.Depth.{StoppedSearchesAreDeep};

/// A search of a problem that stops for want of budget names a box that is deeper than each depth down to which the
/// budget pays for all boxes. For a box has no more children than its depth allows: first the decisions of the groups in
/// order; then the states of a loose arc, one after another; then two halves.
pub fn stopped_searches_are_deep()
    ensures { StoppedSearchesAreDeep }
{}
