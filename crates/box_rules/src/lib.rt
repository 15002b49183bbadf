//! The conditions of steps and closings at a box whose ends count units of 1/scale: whether a value may be given, and
//! whether nothing is left, by the law of an arc and by the balance of a node. They compute no bound.
#![tactic(auto)]

mod arc_rules;
mod balance;
mod forms;
mod problem_arcs;
mod rules;

pub use balance::{balance_bound, net_flow, node_closing, supply_of};
pub use forms::form_of;
pub use problem_arcs::{fixed_form, sides};
pub use rules::{Aim, form_closing, form_step, keeps_sign};
