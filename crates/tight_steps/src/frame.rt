// What a change of a variable leaves as it was, on functions that do nothing.
ghost use Rattle.tight_steps.specs.Frame.{OtherLawsStayQuiet, BoxesStillFit, EndsStayLimited};

/// A law that closes nothing and has no step that shrinks a width by an eighth stays so where an end of a variable
/// changes that it doesn't mention.
#[tactic(auto, using(crate::proofs::Quiet::other_laws_stay_quiet))]
pub fn other_laws_stay_quiet()
    ensures { OtherLawsStayQuiet }
{}

/// A box has the ends of each variable of the problem after a step too.
#[tactic(auto, using(crate::proofs::Boxes::boxes_still_fit))]
pub fn boxes_still_fit()
    ensures { BoxesStillFit }
{}

/// Ends keep the limits of a box where one of them becomes a value that it may be given.
#[tactic(auto, using(crate::proofs::Boxes::ends_stay_limited))]
pub fn ends_stay_limited()
    ensures { EndsStayLimited }
{}
