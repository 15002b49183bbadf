// How often a variable can be tightened, on a function that does nothing.
ghost use Rattle.stable_sweep.specs.Paths.{StepsAreFew};

/// On each path of steps a variable is tightened at most 320 times, whatever else makes boxes smaller between them, where
/// it is at most 16 * 10^16 wide at first.
#[tactic(auto, using(crate::proofs::StepCounts::steps_are_few))]
pub fn steps_are_few()
    ensures { StepsAreFew }
{}
