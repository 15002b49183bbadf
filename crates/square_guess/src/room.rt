// Laws that leave room between two squares.
use clamped::{difference, portion_above, root_above, root_below, scaled, sum};

/// No square lies farther out than this, in Pa^2.
pub const FARTHEST: i64 = 1 << 56;

/// What the law of an arc asks for, which flow passes from a first to a second node: the pressure falls by `low` to `high`
/// Pa; or it rises, by at most `rise` Pa, and at most to its `num / den`-fold.
#[derive(Clone, Copy, Debug)]
pub enum Room {
    Fall { low: i64, high: i64 },
    Rise { num: i64, den: i64, rise: i64 },
}

/// A square.
pub fn square(x: i64) -> i64 {
    scaled(x, x, 0)
}

// The least square whose root is at least that of `of` and a difference, in Pa.
fn raised(of: i64, by: i64) -> i64 {
    let by = square(by);
    let twice = root_above(scaled(by, 4, 0), of);
    sum(sum(of, by), twice)
}

// The least square whose root is at least that of `of` less a difference, in Pa.
fn lowered(of: i64, by: i64) -> i64 {
    let by = square(by);
    if by > of {
        return 0;
    }
    let twice = root_below(scaled(by, 4, 0), of);
    difference(sum(of, by), twice)
}

// The least square whose `num / den`-fold square is at least `of`.
fn divided(of: i64, num: i64, den: i64) -> i64 {
    portion_above(square(den), of, square(num))
}

impl Room {
    /// The least square at the first node, where this is that at the second.
    pub fn least_first(self, second: i64) -> i64 {
        let second = second.max(0);
        let least = match self {
            Room::Fall { low, .. } => raised(second, low),
            Room::Rise { num, den, rise } => lowered(second, rise).max(divided(second, num, den)),
        };
        least.min(FARTHEST)
    }

    /// The least square at the second node, where this is that at the first.
    pub fn least_second(self, first: i64) -> i64 {
        let first = first.max(0);
        match self {
            Room::Fall { high, .. } => lowered(first, high).min(FARTHEST),
            Room::Rise { .. } => first.min(FARTHEST),
        }
    }
}
