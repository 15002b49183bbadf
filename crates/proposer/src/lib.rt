//! Whole settings that are proposed for a problem: choices of states and decisions, flows and squares for them, and changes
//! of the choices that are to blame for what is broken.
#![tactic(auto)]

mod blame;
mod choice;
mod climb;
mod evaluate;
mod fitting;
mod moves;
mod pool;
mod proposing;

pub use proposing::propose;
