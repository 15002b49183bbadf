//! The laws of arcs and nodes on whole-number settings: what a flow drops, and which law a setting breaks first.
#![tactic(auto)]

mod active;
mod arcs;
mod balance;
mod bounds;
mod broken;
mod choices;
mod drags;
mod drops;
mod falls;
mod numbers;
mod root_tests;
mod scaled;

pub use broken::{Broken, first_broken};
pub use drops::{drop_high, drop_low, interval_is_weymouth};
pub use root_tests::{at_least, at_most};
pub use scaled::{
    box_ends_are_safe, drop_gap, ratio_square, root_times, scaled_at_least, scaled_at_most,
};
