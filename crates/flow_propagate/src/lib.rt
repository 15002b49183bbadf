//! Steps on flows: the first step of a law that shrinks the width of a flow by an eighth, with the tightest value of its
//! rule; and the closing by the balance of a node. No call takes memory.
#![tactic(auto)]

mod arcs;
mod drags;
mod nodes;
mod propagate;

pub use propagate::{best_flow, best_flow_by_law, shut_flow};
pub use tight_steps::Law;
