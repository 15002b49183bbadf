//! The range of one exit: how much a node may draw, and how much it may not. What is searched are problems in which the
//! node's draw has an interval; each search may be left undecided.
#![tactic(auto)]

mod bracket;
mod draws;
mod found;
mod ranging;

pub use decide::Why;
pub use found::{RangeEnd, RangeFault, RangeFound, Refused};
pub use ranging::range;
