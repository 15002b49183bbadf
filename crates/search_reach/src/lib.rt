//! How far a search reaches: how deep the box lies at which it stops and how narrow it is, and how often a variable is
//! tightened and halved.
#![tactic(auto)]

mod budgets;
mod depth;
mod finest;
mod reached;
mod steps;
mod widths;

pub use budgets::enough_budgets_suffice;
pub use depth::stopped_searches_are_deep;
pub use finest::{left_boxes_are_finest, shared_flow};
pub use reached::halted_searches_reach;
pub use steps::steps_on_paths_are_few;
pub use widths::{halvings_are_few, named_boxes_are_narrow};
