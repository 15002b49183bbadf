//! What is found for a problem: the one place where commands search, and where what is found is read back.
#![tactic(auto)]

mod finding;

pub use finding::{Answer, answer_of};
