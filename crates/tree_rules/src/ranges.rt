// What steps and cuts ask for beside a condition, on functions that do nothing.
ghost use Rattle.tree_rules.specs.Ranges.{CutsAskForAllThis, RulesKeepTheirSign, StepsMoveInward, StepsNameTheirPlace};

/// A step moves an end inward, and at most one past the other end.
pub fn steps_move_inward()
    ensures { StepsMoveInward }
{}

/// A rule with roots gives no value below 0; a rule of an arc gives nothing before the arc's state is fixed.
pub fn rules_keep_their_sign()
    ensures { RulesKeepTheirSign }
{}

/// A step names a variable, and a node or an arc, of the problem.
pub fn steps_name_their_place()
    ensures { StepsNameTheirPlace }
{}

/// A cut names nodes in order, has shut arcs alone to other nodes, and a supply that can't balance.
pub fn cuts_ask_for_all_this()
    ensures { CutsAskForAllThis }
{}
