//! A search that decides: a short search, then proposed settings, then a freer tree, and only then the whole search.
#![tactic(auto)]

mod deciding;

pub use deciding::decide;
pub use nom_search::{Found, Why};
