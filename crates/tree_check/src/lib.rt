//! A checker of refutation trees, which reads their lines one after the other and keeps one box.
#![tactic(auto)]

mod arc_steps;
mod balance;
mod branches;
mod check;
mod cuts;
mod frames;
mod lookup;
mod open_box;
mod reader;
mod stack;
mod states;
mod steps;
mod verdict;

pub use check::check_tree;
pub use tree_cert::TreeFault;
pub use verdict::Verdict;
