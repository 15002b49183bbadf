//! The setting that is tried in a box: flows that balance tree arcs from the leaves inward, and squares from the roots
//! outward.
#![tactic(auto)]

mod choices;
mod choosing;
mod chords;
mod exactly_one;
mod flows;
mod hull;
mod numbers;
mod probing;
mod squares;
mod supplies;
mod tree_roots;

pub use choosing::{Chosen, is_same_part};
pub use exactly_one::{one_probe, one_square, one_tree_flow, some_probe};
pub use probing::{probe, probe_chosen};
