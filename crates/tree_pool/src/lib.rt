//! Pools of boxes of a refutation tree, by number, and the one tree that a pool shows, over any rules.
#![tactic(auto)]

mod laws;
mod lineage;
mod node;
mod pool;
mod walk;

pub use laws::{pools_keep_rules, shown_trees_pass, works_decide, works_follow_calls};
pub use node::{BranchBy, Work, WorkEnd};
pub use pool::TreePool;
