// What holds of all made rows, on a function that does nothing.
ghost use Rattle.make_net.specs.Answer.{EachMakesOne};

/// The rows of each number from 1 to 2,000 make a problem, so that no offence of theirs hides behind want of memory.
pub fn each_count_makes_a_problem()
    ensures { EachMakesOne }
{}
