//! Exact numbers of gas network files: decimals, units, their whole grid values, quotients and roots.
//!
//! The grid counts pressures in whole Pa and flows in whole l/h. No call takes memory.
#![tactic(auto)]

mod decimal;
mod grid;
mod roots_and_quotients;

pub use decimal::{Decimal, NumFault, faults_are_first, form_is_decimal, read_decimal};
pub use grid::{Side, Unit, grid_value_rounds, read_unit, to_grid};
pub use roots_and_quotients::{ceil_div, floor_div, root_down, root_up};
