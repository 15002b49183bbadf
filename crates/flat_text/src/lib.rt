//! Problems as flat text: a line for each node, each arc and each word of a decision, between a head line and `end`.
#![tactic(auto)]

mod draft;
mod fault;
mod fields;
mod kinds;
mod laws;
mod line;
mod text;
mod writing;

pub use laws::lines_have_their_form;
pub use problem_faults::FlatFault;
pub use text::read_flat;
pub use writing::write_flat;
