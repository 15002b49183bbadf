// What holds of searches by any rules, of the search of a problem, on a function that does nothing.
ghost use Rattle.std.specs.Prelude.{ℤ};
ghost use Rattle.gas_model.specs.Rows.{Network};
ghost use Rattle.search_order.specs.Laws.{SearchBegins, TurnsKeep, TurnsShrink, FirstQuitStays, FullStops, StopsDeep};
ghost use Rattle.nom_search.specs.Sought.{sought};

/// What holds of each search that takes the boxes of a pool in breadth-first order holds of that of a problem: a new pool is
/// one that it has worked, each turn keeps that and leaves less to do, the first box that is left stays the first, and where
/// the budget is spent the search stops, at a box that is deeper than each depth which the budget pays for.
pub fn problems_are_searched_in_order()
    ensures begins { (p : Network) (tol : ℤ) → SearchBegins (sought p tol) }
    ensures turns { (p : Network) (tol : ℤ) → TurnsKeep (sought p tol) }
    ensures shrinks { (p : Network) (tol : ℤ) → TurnsShrink (sought p tol) }
    ensures first { (p : Network) (tol : ℤ) → FirstQuitStays (sought p tol) }
    ensures stops { (p : Network) (tol : ℤ) → FullStops (sought p tol) }
    ensures deep { (p : Network) (tol : ℤ) → StopsDeep (sought p tol) }
{}
