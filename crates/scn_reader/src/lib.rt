//! The reader of scenario files: the nominated nodes with their bounds, in whole Pa and l/h.
#![tactic(auto)]

mod bounds;
mod rows;
mod scenario;

pub use rows::{ScnNode, ScnRows};
pub use scenario::read_scn;
