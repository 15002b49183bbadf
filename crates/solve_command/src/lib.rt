//! The commands `solve` and `solve-flat`: a problem in, a setting or a refutation tree out.
#![tactic(auto)]

mod solve;

pub use solve::Solve;
