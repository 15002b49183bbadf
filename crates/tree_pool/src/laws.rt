// What holds of pools by any rules, on functions that do nothing.
ghost use Rattle.tree_pool.specs.Laws.{WorksDecide, StandingLeavesWorks, GivingSetsWork, GivingAddsChildren, GivingLeavesOthers, ShownPass, NewIsOf, StandingKeeps, GivingKeeps};

use tree_cert::Rules;

/// What was given back at each path decides the tree that is shown, in whatever order it came, and whatever numbers the
/// boxes have.
pub fn works_decide()
    ensures { WorksDecide }
{}

/// Taking a box and losing it leave what was given back at each path. Giving work back sets it at the path of its box, puts
/// the children below that path, and leaves it at each other path. So the tree depends on the works alone that were given
/// back at each path, in whatever order they came.
pub fn works_follow_calls()
    ensures standing { StandingLeavesWorks }
    ensures own { GivingSetsWork }
    ensures children { GivingAddsChildren }
    ensures others { GivingLeavesOthers }
{}

/// The tree that a pool of rules and a root shows passes at that root.
pub fn shown_trees_pass<R: Rules>()
    ensures { ShownPass R.rules }
{}

/// A new pool is of any rules and any root, with the root as its one box. It stays of them where a box is taken or lost,
/// with the same boxes, and where work that holds is given back, with the children's boxes at the end.
pub fn pools_keep_rules<R: Rules>()
    ensures new { NewIsOf R.rules }
    ensures standing { StandingKeeps R.rules }
    ensures giving { GivingKeeps R.rules }
{}
