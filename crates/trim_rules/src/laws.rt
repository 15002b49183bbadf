// What is proved of trimmed texts, on functions that do nothing.
ghost use Rattle.trim_rules.specs.Theorems.{ClosingsTighten, RulesTighten, TrimmedTextsNeedTheirSteps, TrimmedTextsPass};

/// The condition of a rule that holds in a box holds in each tighter box of the same part state and units.
pub fn rules_tighten()
    ensures { RulesTighten }
{}

/// A closing that holds in a box holds in each tighter box of the same part state and units.
pub fn closings_tighten()
    ensures { ClosingsTighten }
{}

/// The trimmed text of one that passes, with no box left open, passes, and its lines are some of those of the text, in their
/// order.
pub fn trimmed_texts_pass()
    ensures { TrimmedTextsPass }
{}

/// And without any one of its steps it doesn't pass. Other steps may be of use only where that one is left out, or only where
/// it stays: the conditions of rules hold in tighter boxes, and the ranges of steps in looser ones.
pub fn trimmed_texts_need_their_steps()
    ensures { TrimmedTextsNeedTheirSteps }
{}
