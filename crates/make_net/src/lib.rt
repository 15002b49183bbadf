//! Problems that are made from a number.
#![tactic(auto)]

mod all_counts;
mod arcs;
mod groups;
mod making;
mod names;
mod nodes;

pub use all_counts::each_count_makes_a_problem;
pub use making::{MakeFault, is_count, make};
