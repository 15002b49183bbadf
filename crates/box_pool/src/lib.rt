//! The pool of the boxes of a problem that a search works on, each with its part state, the ends of its variables and
//! its turn.
#![tactic(auto)]

mod choice;
mod forks;
mod grid;
mod laws;
mod open_box;
mod pool;

pub use forks::{Children, children_of};
pub use grid::{PoolGrid, first_line};
pub use laws::{
    forks_are_expected, forks_are_of_the_problem, pools_keep_problems, pools_show_one_tree,
};
pub use open_box::{BoxView, shared};
pub use pool::{Pool, Work, WorkEnd};
