// What is found of a range.
ghost use Rattle.std.specs.Prelude.{◌≡◌};
ghost use Rattle.nom_range.specs.declared.found.RangeFault.{RangeFault};

use decide::Why;
use gas_model::{Bytes, NoMemory, Setting};

/// Draws that are refused, from `first` l/h to the greatest that was asked of: the text of a tree that refutes the problem
/// in which the node draws so much.
#[derive(Drop)]
pub struct Refused {
    pub first: i64,
    pub tree: Bytes,
}

/// How a range ends.
#[derive(Drop)]
pub enum RangeEnd {
    /// All that was asked of is carried: the greatest draw is.
    Whole,
    /// The first draw that is refused is the next whole one after the one that is carried.
    Narrow,
    /// The search of the draws from `mid` l/h on was left open, for this reason; the text has the open box at this line.
    Left {
        mid: i64,
        why: Why,
        tree: Bytes,
        line: u64,
    },
    /// The search of the draws from `mid` l/h on found a setting that draws what is refused: the laws hold within a
    /// tolerance, and the tree refutes them without one.
    Overlap {
        mid: i64,
        setting: Setting,
    },
}

/// What is found of a range: a draw in l/h that is carried, with its setting, and the draws above it that are refused, if
/// any are.
#[derive(Drop)]
pub struct RangeFound {
    pub carried: i64,
    pub setting: Setting,
    pub refused: Option<Refused>,
    pub end: RangeEnd,
}

/// Why there is no range: the least draw isn't carried.
#[derive(Drop)]
pub enum RangeFault {
    /// It is refused, by the text of a tree.
    Refuted { tree: Bytes },
    /// Its search was left open, for this reason; the text has the open box at this line.
    Left { why: Why, tree: Bytes, line: u64 },
    NoMemory,
}

impl From<NoMemory> for RangeFault {
    ghost from_gives = { λ _ fault. fault ≡ RangeFault.NoMemory };

    fn from(_: NoMemory) -> Self {
        RangeFault::NoMemory
    }
}
