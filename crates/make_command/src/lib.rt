//! The command `make`: a number in, the flat text of its problem out, and what is found for it.
#![tactic(auto)]

mod making;

pub use making::Make;
