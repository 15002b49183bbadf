// The grid on which the boxes of a pool stand, and the first line of its trees.
ghost use Rattle.std.specs.Prelude.{◌≡◌};
ghost use Rattle.box_pool.specs.Grid.{pool_line};

use interval_core::Sixteenths;
use tree_cert::Line;

/// Ends of boxes count sixteenths of a unit: of 1 l/h, and of 1 Pa^2.
pub type PoolGrid = Sixteenths;

/// The first line of a tree on this grid.
pub fn first_line() -> Line
    ensures { result ≡ pool_line }
{
    Line::FirstSixteenths
}
