// Two settings with their lines, on functions that do nothing.
ghost use Rattle.setting_text.specs.Examples.{IsLineAtRest, IsLineBackwards};

/// Two nodes and a pipe, at rest, have the line
/// `{"arcs":[["p","open",0]],"decisions":[],"nodes":[["a",40],["b",40]]}`.
pub fn line_at_rest()
    ensures { IsLineAtRest }
{}

/// A pipe with a backward flow beside a valve that its group shuts has the line
/// `{"arcs":[["p","open",-3],["v","closed",0]],"decisions":[["g","shut"]],"nodes":[["a",40],["b",49]]}`.
pub fn line_backwards()
    ensures { IsLineBackwards }
{}
