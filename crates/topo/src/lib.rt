//! The shape of a network in a part state: its components and their roots, its chords, the breadth-first walk over its
//! tree arcs, and the variables that a box is split at first.
#![tactic(auto)]

mod fixed;
mod forest;
mod laws;
mod roles;
mod shape;
mod split;
mod walking;

pub use laws::one_shape;
pub use shape::Shape;
pub use walking::far;
