// What is proved of the rules and of all trees, on functions that do nothing.
ghost use Rattle.tree_rules.specs.Theorems.{ClosingsRefute, HeadsAreToldApart, RulesKeepPoints, StepsKeepPoints, TextsRefute, TreesRefuteBoxes};

/// A step that is allowed keeps every point of the box, over any denominator, that meets the problem in listed choices
/// which agree with the box's part state.
#[tactic(auto, using(crate::proofs::StepSound::steps_keep_points))]
pub fn steps_keep_points()
    ensures { StepsKeepPoints }
{}

/// The condition of a rule does so by itself, whichever value it gives: the range in which a step's value must lie, and
/// its sign, are of no need for that.
pub fn rules_keep_points()
    ensures { RulesKeepPoints }
{}

/// A box in which a closing holds has no such point.
#[tactic(auto, using(crate::proofs::StepSound::closings_refute))]
pub fn closings_refute()
    ensures { ClosingsRefute }
{}

/// A box at which a tree passes, with no box left open, has no such point, in any units of 1/K.
#[tactic(auto, using(crate::proofs::TreeSound::trees_refute_boxes))]
pub fn trees_refute_boxes()
    ensures { TreesRefuteBoxes }
{}

/// The text of a tree that passes for a problem within the limits, with no box left open, refutes the problem: no listed
/// decisions and states, no flows and squared pressures over any denominator, and no resistances in their intervals
/// meet all laws, balances and bounds.
pub fn texts_refute()
    ensures { TextsRefute }
{}

/// A head passes for the one that is expected where it is the same, and nowhere else.
#[tactic(auto, using(crate::proofs::SameHeads::heads_are_told_apart))]
pub fn heads_are_told_apart()
    ensures { HeadsAreToldApart }
{}
