// What holds of each search in breadth-first order, on functions that do nothing.
ghost use Rattle.search_order.specs.Searches.{SearchRules};
ghost use Rattle.search_order.specs.Laws.{SearchBegins, TurnsKeep, TurnsShrink, FirstQuitStays, FullStops, StopsDeep};

/// What a search asks of boxes, which only proofs know.
pub trait Search {
    ghost search: { SearchRules };
}

/// A new pool of the root's box alone is one that the search has worked in order.
pub fn search_begins<S: Search>()
    ensures { SearchBegins S.search }
{}

/// Where the first waiting box is given back with work that holds at it and is known, the pool is still worked in order.
pub fn turns_keep_order<S: Search>()
    ensures { TurnsKeep S.search }
{}

/// Each turn leaves less to do, and needs no more numbers than were kept free for the budget.
pub fn turns_shrink<S: Search>()
    ensures { TurnsShrink S.search }
{}

/// The first box in breadth-first order that was left open for good is the first that the search left so.
pub fn first_left_stays<S: Search>()
    ensures { FirstQuitStays S.search }
{}

/// Where the budget is spent at a box that would be split, the search stops there: all before it is known, and all
/// behind it is untouched.
pub fn searches_stop<S: Search>()
    ensures { FullStops S.search }
{}

/// The box at which a search stops for want of budget is deeper than each depth down to which the budget pays for all
/// boxes that there can be.
pub fn stopped_boxes_are_deep<S: Search>()
    ensures { StopsDeep S.search }
{}
