//! A freer refutation tree, depth first: before a box is split by a choice, each choice is tried, and the one is taken that
//! leaves the fewest children open.
#![tactic(auto)]

mod children;
mod forks;
mod refuting;
mod settling;
mod tools;

pub use refuting::look_ahead;
