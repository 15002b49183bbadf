//! The trimmed text of a refutation: its steps are gone through from the last to the first, and each is left out where the
//! text that is left without it passes.
#![tactic(auto)]

mod kept;
mod trimming;

pub use refuting_tree::RefutingFault as TrimFault;
pub use trimming::trim;
