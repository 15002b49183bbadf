//! Joins the rows of a network, a scenario, decisions and a table of resistances to one problem.
#![tactic(auto)]

mod arcs;
mod assembly;
mod decisions;
mod faults;
mod limits;
mod marks;
mod nodes;
mod nominations;
mod table;

pub use assembly::assemble;
pub use problem_faults::JoinFault;
