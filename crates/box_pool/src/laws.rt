// What holds of forks, of their children and of pools of problems, on functions that do nothing.
ghost use Rattle.gas_model.specs.Rows.{Network};
ghost use Rattle.tree_rules.specs.Branches.{rules_of};
ghost use Rattle.tree_pool.specs.Laws.{ShownPass, NewIsOf, StandingKeeps, GivingKeeps};
ghost use Rattle.box_pool.specs.Laws.{ForksAreOf, PoolsShowOneTree};
ghost use Rattle.box_pool.specs.Expected.{ForksAreExpected};

/// The group, the arc or the variable of a fork is one of the problem.
pub fn forks_are_of_the_problem()
    ensures { ForksAreOf }
{}

/// The branch of a fork is allowed where the fork is that of a box, its children are all that the branch waits for, and
/// each of them can be made.
pub fn forks_are_expected()
    ensures { ForksAreExpected }
{}

/// A pool of a problem and a root shows one tree, and no other. It passes at that root: as a refutation exactly where no box
/// waits, is held or was left, and else in part.
pub fn pools_show_one_tree()
    ensures { PoolsShowOneTree }
{}

/// What holds of pools of any rules holds of those of a problem: a new one is of its rules and its root, taking, losing and
/// giving back keep that, and the tree that is shown passes.
pub fn pools_keep_problems()
    ensures new { (p : Network) → NewIsOf (rules_of p) }
    ensures standing { (p : Network) → StandingKeeps (rules_of p) }
    ensures giving { (p : Network) → GivingKeeps (rules_of p) }
    ensures shown { (p : Network) → ShownPass (rules_of p) }
{}
