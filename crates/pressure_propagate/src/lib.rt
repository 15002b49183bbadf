//! Steps on squared pressures: the first step of an arc that shrinks the width of a square by an eighth, with the
//! tightest value of its rule; and the first closing of an arc. No call takes memory.
#![tactic(auto)]

mod arcs;
mod bounds;
mod closings;
mod ends;
mod propagate;
mod root_bounds;

pub use propagate::{best_square, best_square_by_law, shut_square, shut_square_by_law};
