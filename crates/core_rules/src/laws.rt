// What is proved of what lines read and cite, on functions that do nothing.
ghost use Rattle.core_rules.specs.Examples.{TreesCiteWhatTheyRead};
ghost use Rattle.core_rules.specs.TextTheorems.{CoreTextsRefute};
ghost use Rattle.core_rules.specs.Theorems.{ClosingsReadNoMore, CoresRefute, CoresRefuteBoxes, StepsReadNoMore};

/// The lines of small trees cite what they read and no line above has set.
#[tactic(auto, using(crate::proofs::Computed::trees_cite_what_they_read))]
pub fn trees_cite_what_they_read()
    ensures { TreesCiteWhatTheyRead }
{}

/// The condition of a rule, in a box of another problem, holds where all that it reads is the same.
#[tactic(auto, using(crate::proofs::StepReads::steps_read_no_more))]
pub fn steps_read_no_more()
    ensures { StepsReadNoMore }
{}

/// A closing, in a box of another problem, holds where all that it reads is the same.
#[tactic(auto, using(crate::proofs::ClosingReads::closings_read_no_more))]
pub fn closings_read_no_more()
    ensures { ClosingsReadNoMore }
{}

/// A tree that passes in one problem, with no box left open, leaves no point in a box of another problem that has what
/// was set above the tree and what its lines cite.
pub fn cores_refute_boxes()
    ensures { CoresRefuteBoxes }
{}

/// Each problem with the same numbers at what the lines of a refutation cite, whatever its other numbers, has no point.
pub fn cores_refute()
    ensures { CoresRefute }
{}

/// Each problem with the same nodes, arcs, kinds and groups, and the same numbers at what the text of a core lists, whatever
/// its other numbers, is infeasible.
pub fn core_texts_refute()
    ensures { CoreTextsRefute }
{}
