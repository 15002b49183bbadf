// How often variables are halved, and how narrow they get, on functions that do nothing.
ghost use Rattle.search_reach.specs.Widths.{FewHalvingsWhereHalted, FewHalvingsWhereRefuted, NamedBoxesAreNarrow};

/// On the path from the root to each box of a search that halted, or that refuted the problem, a variable is halved at
/// most m times, where it is at most 2^m sixteenths wide at first.
pub fn halvings_are_few()
    ensures halted { FewHalvingsWhereHalted }
    ensures refuted { FewHalvingsWhereRefuted }
{}

/// Where a search halts, let h be the number of halvings on the path to the box that it names, and n the length of the
/// split list there. Each variable of the list is as narrow in that box as r halvings leave it, for each r with n * r at
/// most h: its width less one, times 2^r, is at most its width at first, both in sixteenths.
pub fn named_boxes_are_narrow()
    ensures { NamedBoxesAreNarrow }
{}
