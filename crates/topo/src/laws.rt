// What holds of all shapes, on a function that does nothing.
ghost use Rattle.topo.specs.Laws.{OneShape};

/// A network has only one shape in a part state: one list of roots, one of chords, one walk, one split list.
pub fn one_shape()
    ensures { OneShape }
{}
