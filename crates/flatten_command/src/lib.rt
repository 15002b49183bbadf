//! The command `flat`: four files in, and the flat text of the problem that they make out.
#![tactic(auto)]

mod flatten;

pub use flatten::Flatten;
