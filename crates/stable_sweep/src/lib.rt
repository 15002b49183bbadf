//! Settling of boxes: steps are made, law by law, until the box is stable or a closing holds.
#![tactic(auto)]

mod counts;
mod cuts;
mod law_moves;
mod law_queue;
mod sweep;
mod waiting;
mod waking;

pub use counts::steps_are_few;
pub use law_queue::LawQueue;
pub use sweep::{Settled, settle, settle_child};
