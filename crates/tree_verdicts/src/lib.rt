//! The text of a tree that is known to pass, read back by the checker.
#![tactic(auto)]

mod read_back;

pub use read_back::{check_part, check_whole};
