// Which budgets a search never spends, on a function that does nothing.
ghost use Rattle.search_reach.specs.Budgets.{BudgetsSuffice};

/// A search of a problem never stops for want of budget where the budget pays for all boxes that there can be down to this
/// depth: the number of the groups, and that of the loose arcs, and for each variable the least m, from 0 on, with 2^m at
/// least its width at first, in sixteenths.
pub fn enough_budgets_suffice()
    ensures { BudgetsSuffice }
{}
