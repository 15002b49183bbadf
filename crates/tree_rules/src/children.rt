// The children of branches of small problems, on functions that do nothing.
ghost use Rattle.tree_rules.specs.Children.{ArcsHaveTheirStates, GroupsHaveTheirDecisions, HalvesMeet};

/// A branch by a group has a child for each decision in order, and is allowed once.
pub fn groups_have_their_decisions()
    ensures { GroupsHaveTheirDecisions }
{}

/// A branch by an arc has a child for each state that the picked decisions allow, and waits for the arc's group.
pub fn arcs_have_their_states()
    ensures { ArcsHaveTheirStates }
{}

/// The two halves of a variable meet at one value strictly between its ends, and the lower half comes first.
pub fn halves_meet()
    ensures { HalvesMeet }
{}
