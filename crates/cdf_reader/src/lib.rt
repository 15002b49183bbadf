//! The reader of combined decision files: groups of decisions, and what each says of an arc.
#![tactic(auto)]

mod groups;
mod rows;
mod sets;

pub use groups::read_cdf;
pub use rows::{ActiveWord, CdfDecision, CdfGroup, CdfRows, CdfSet};
