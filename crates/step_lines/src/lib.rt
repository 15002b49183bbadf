//! Lines of refutation trees, of which steps and closings by cuts, the commonest and the longest, are read in one pass over
//! their bytes.
#![tactic(auto)]

mod cuts;
mod digits;
mod fields;
mod reading;

pub use reading::next_line;
