//! The commands `check` and `check-flat`: a problem and a tree in, and whether the tree refutes it.
#![tactic(auto)]

mod check;

pub use check::Check;
