// That one setting meets the equations, and no other, on functions that do nothing.
ghost use Rattle.probe_point.specs.OneProbe.{OneTreeFlow, OneSquare, OneProbe, ChoicesExist, ProbeExists};

/// Flows that agree off the walk, and on it have the values of their boxes that are nearest to what balances the far
/// ends, are the same.
pub fn one_tree_flow()
    ensures { OneTreeFlow }
{}

/// Squares that agree at the nodes which are no far end, and at far ends have the values of their boxes that are nearest
/// to what the near ends give, are the same.
pub fn one_square()
    ensures { OneSquare }
{}

/// A box of a problem has only one probe, in ones and in sixteenths.
pub fn one_probe()
    ensures { OneProbe }
{}

/// Each arc has a state to be chosen; and where the network has a shape in the chosen states, a box has a probe, whatever
/// its ends are.
pub fn some_probe()
    ensures choices { ChoicesExist }
    ensures probe { ProbeExists }
{}
