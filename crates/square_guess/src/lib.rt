//! Squared pressures for given flows: the network is cut at the arcs whose law leaves room, flows tell the squares of each
//! part up to one shift, and the least shifts that meet all bounds and laws are found by raising lower ends.
#![tactic(auto)]

mod chords;
mod heights;
mod room;
mod shifts;
mod squares;

pub use squares::{Clash, Missed, Squares};
