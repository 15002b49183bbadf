// What holds of all lines, on functions that do nothing.
ghost use Rattle.flat_text.specs.Laws.{LinesMean, ItemsAreRead};

/// A line is of its form exactly where some item spells it, whatever the size of its numbers and whichever fields its ids
/// are. It is over a limit where an item that spells it may stand at its place, but isn't within the limits; and it isn't
/// flat where no item that spells it may stand there, and it is not `end`.
pub fn lines_have_their_form()
    ensures means { LinesMean }
    ensures spelled { ItemsAreRead }
{}
