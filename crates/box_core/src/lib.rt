//! Boxes: a lower and an upper end for the flow of each arc and the squared pressure of each node.
#![tactic(auto)]

mod var_box;

pub use var_box::VarBox;
