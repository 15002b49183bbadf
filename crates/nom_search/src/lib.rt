//! The search of a pool for a setting that carries a nomination, or a tree that refutes it.
#![tactic(auto)]

mod laws;
mod rooted;
mod searching;
mod trial;

pub use box_pool::{BoxView, Pool, Work, WorkEnd};
pub use laws::problems_are_searched_in_order;
pub use rooted::search_problem;
pub use searching::{Found, Why, search};
