//! The commands `replay` and `replay-flat`: a problem and a setting in, and whether the setting carries it.
#![tactic(auto)]

mod replay;

pub use replay::Replay;
