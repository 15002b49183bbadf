//! The lines of a text that refutes a problem, or why a text is no refutation.
#![tactic(auto)]

mod fault;
mod reading;

pub use fault::RefutingFault;
pub use reading::lines_of_refuting;
