//! The reader of network files: nodes and connections with their bounds, in whole Pa and l/h.
#![tactic(auto)]

mod arc;
mod network;
mod node;
mod rows;

pub use network::read_net;
pub use rows::{ArcWord, NetArc, NetNode, NetRows, NodeWord};
