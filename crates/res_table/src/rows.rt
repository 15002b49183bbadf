// The rows of a table.

use gas_model::{List, Name};

/// What a row speaks of.
#[derive(Clone, Copy, Debug, PartialEq, Eq)]
pub enum ResWord {
    /// The resistance of a pipe.
    Pipe,
    /// The resistance of a resistor that has no constant loss.
    Resistor,
    /// The ratio and the rise of a compressor station.
    Station,
}

/// A row: three numbers for the arc of this id.
///
/// Of a pipe or a resistor the resistance lies from `a / c` to `b / c`, in Pa^2 per (l/h)^2. Each number lies from 1 to
/// 2^38, and `a` is at most `b`. Of a station the pressure behind it is at most `a / b` times the one before it, each
/// from 1 to 2^20, and at most `c` Pa above it, from 0 to 4 * 10^8.
#[derive(Debug, Drop)]
pub struct ResRow {
    pub word: ResWord,
    pub id: Name,
    pub a: i64,
    pub b: i64,
    pub c: i64,
}

/// The rows of a table, in order. The first one is row 1.
#[derive(Debug, Drop)]
pub struct ResRows {
    pub rows: List<ResRow>,
}
