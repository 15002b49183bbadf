//! The branch of a box: how it is split where nothing shrinks it further.
#![tactic(auto)]

mod forks;
mod places;
mod wide;

pub use forks::{Fork, branch};
