//! Why rows, or the lines of a flat text, make no problem.
#![tactic(auto)]

mod flat;
mod join;

pub use flat::FlatFault;
pub use join::JoinFault;
