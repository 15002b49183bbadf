// The squares of roots, which are the middles of their boxes.
ghost use Rattle.std.specs.Prelude.{◌≡◌, ◌<◌, ℕ, length, IsTrue};
ghost use Rattle.base_types.specs.Numbers.{is_square};
ghost use Rattle.gas_model.specs.Near.{number_at};
ghost use Rattle.box_ends.specs.Middle.{middle};
ghost use Rattle.probe_point.specs.Probes.{box_at};
ghost use Rattle.probe_point.specs.Squares.{AreSquareBoxes, AreSquares};
ghost use Rattle.probe_point.specs.Chords.{HasMiddles, KeepsTheRest, AreBelow};

use box_ends::middle;
use gas_model::Ends;

// The middle of the box of a node.
fn root_square(boxes: &[Ends], node: u32) -> i128
    requires has_box { node < length boxes.now }
    requires boxes { AreSquareBoxes boxes.now }
    ensures value { result ≡ middle (box_at boxes.now node) }
    ensures size { IsTrue (is_square result) }
{
    middle(boxes[node as usize])
}

/// Gives each root the middle of its box.
pub fn root_squares(boxes: &[Ends], roots: &[u32], squares: &mut [i128])
    requires box_of_each { length boxes.now ≡ length squares.old }
    requires boxes { AreSquareBoxes boxes.now }
    requires roots { AreBelow (length squares.old) roots.now }
    requires squares { AreSquares squares.old }
    ensures middles { HasMiddles (box_at boxes.now) roots.now (number_at squares.new) }
    ensures others { KeepsTheRest roots.now (number_at squares.old) (number_at squares.new) }
    ensures squares { AreSquares squares.new }
{
    for root in roots {
        squares[*root as usize] = root_square(boxes, *root);
    }
}
