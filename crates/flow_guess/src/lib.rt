//! Flows of a choice of states that balance and nearly meet the laws of loops: the laws are made linear at the last flows
//! and solved on the nodes, again and again, and active arcs whose flow goes against their way are bypassed, held or shut.
#![tactic(auto)]

mod fixing;
mod forest;
mod guess;
mod linear;
mod net;
mod plan;
mod rounds;
mod supplies;
mod way;

pub use forest::{Branch, Forest};
pub use guess::Guess;
pub use linear::drop_of;
pub use net::{Edge, Net};
pub use plan::Plan;
pub use supplies::{Supply, joined, stranded};
pub use way::{Way, flow_bounds, may_be};
