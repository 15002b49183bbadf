// What is proved of the values that a rule may give, on functions that do nothing.
ghost use Rattle.tree_rules.specs.Looser.{RulesLoosen, StepsLoosen};
ghost use Rattle.tree_rules.specs.TightestRoots.{EachAtMost, GreatestAtLeast, GreatestAtMost, LeastAtLeast, LeastAtMost, NoAtLeast};

/// The condition of a rule that holds for a value holds for each that is no tighter: each smaller one of a lower end,
/// each larger one of an upper end.
#[tactic(auto, using(crate::proofs::Loosening::rules_loosen))]
pub fn rules_loosen()
    ensures { RulesLoosen }
{}

/// So a step that is allowed is allowed with each value that may be given and is no tighter.
#[tactic(auto, using(crate::proofs::Loosening::steps_loosen))]
pub fn steps_loosen()
    ensures { StepsLoosen }
{}

/// The greatest C whose root is at most the root of x plus D is `x + D^2 + root_down(4 * D^2 * x)`, in units of 1/K with
/// `r * D` for D, where K is the square of r. So it is in the five laws below.
pub fn greatest_at_most()
    ensures { GreatestAtMost }
{}

/// The least C whose root is at least the root of x plus D is `x + D^2 + root_up(4 * D^2 * x)`.
pub fn least_at_least()
    ensures { LeastAtLeast }
{}

/// The greatest C from 0 on to whose root plus D the root of y comes is `y + D^2 - root_up(4 * D^2 * y)`, where D^2 is at
/// most y.
pub fn greatest_at_least()
    ensures { GreatestAtLeast }
{}

/// Where D^2 is above y there is no such C.
pub fn no_at_least()
    ensures { NoAtLeast }
{}

/// The least C from 0 on beyond whose root plus D the root of y doesn't come is `y + D^2 - root_down(4 * D^2 * y)`, where
/// D^2 is at most y.
pub fn least_at_most()
    ensures { LeastAtMost }
{}

/// Where D^2 is above y each C from 0 on is one, so that the least is 0.
pub fn each_at_most()
    ensures { EachAtMost }
{}
