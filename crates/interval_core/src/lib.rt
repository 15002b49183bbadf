//! Intervals of fractions on a grid: their operations, rounded outward, give the least interval of the grid that
//! encloses every result.
//!
//! Contracts see an interval as its lower and upper end, counted in units of the grid. No call takes memory.
#![tactic(auto)]

mod grid;
mod interval;
mod isotony;

pub use grid::{Grid, Ones, Sixteenths};
pub use interval::Interval;
pub use isotony::smaller_operands_give_smaller_results;
