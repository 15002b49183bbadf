//! Small problems for tests: a few nodes and arcs with numbers that are worked by hand.
#![tactic(auto)]

mod pair;
mod rows;

pub use pair::{Pair, piped, single, sized, two_nodes};
pub use rows::{ONE, ONE_TO_TWO, PIPE, arc, decision, group, loose_node, node, station};
